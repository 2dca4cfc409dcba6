//! What a payment of a request is made from.

ghost use Rattle.std.specs.Prelude.{◌≡◌, ◌≤ℤ◌, pos, All, IfErr, IfOk};
ghost use Rattle.coin_candidates.specs.Candidates.{AreCandidates};
ghost use Rattle.fee_rates.specs.Terms.{AreRates, IsLoad};
ghost use Rattle.wallet_text.specs.WalletRules.{IsWatch};
ghost use Rattle.search_run.specs.Step.{AreSteps};
ghost use Rattle.fund_steps.specs.Basis.{basis_of, given_in, load_alone};
ghost use Rattle.fund_steps.specs.Plan.{HasEligible, IsBumpFor, IsPlanFault, IsPlan, IsRoomy, IsWithin, ladder_in};
ghost use Rattle.fund_steps.specs.Amounts.{AreWithin};
ghost use Rattle.fund_steps.specs.Listed.{burden_in, presets_in};
ghost use Rattle.fund_steps.specs.Searches.{steps_of};
ghost use Rattle.fund_steps.specs.Selection.{unlisted};
ghost use Rattle.fund_steps.specs.Terms.{load_of, rates_of};

use crate::amounts::worth;
use crate::bump::BumpInput;
use crate::fault::PlanFault;
use crate::pools::{add_rows, check_rows};
use crate::presets::{Presets, presets_alone};
use crate::selection::{Given, Parted, are_there, presets_and_burden, split};
use crate::terms::{load, rates};
use crate::turns::row_turns;
use coin_candidates::Candidate;
use fee_rates::{PaymentLoad, Rates};
use fund_base::MAX_MONEY;
use request_text::Request;
use search_run::Step;
use std::alloc::Global;
use std::marker::Model;
use std::snapshot::Snapshot;
use wallet_text::Watch;

/// What a payment of a request is made from: the coins that each payment spends, those that may be added, the rates, and
/// what the payment is to carry. It is seen as the plan: the request, the script that its change is paid to, the
/// candidates, and what it is given where it replaces a payment. It keeps the rules that [`PlanBasis::keeps_rules`] states.
pub struct PlanBasis {
    // what the plan was made from takes no memory
    request: Snapshot<Request>,
    change: Snapshot<Watch>,
    candidates: Snapshot<Vec<Candidate>>,
    bump: Snapshot<Option<BumpInput>>,
    // the coins that each payment spends, in the order of their outpoints, and the candidates that aren't listed
    presets: Vec<Candidate>,
    rest: Vec<Candidate>,
    rates: Rates,
    load: PaymentLoad,
}

/// One call, wherever it is dropped.
impl Drop for PlanBasis {
    fn drop(self) {
        let PlanBasis {
            request: _,
            change: _,
            candidates: _,
            bump: _,
            presets: _,
            rest: _,
            rates: _,
            load: _,
        } = self;
    }
}

impl Model for PlanBasis {
    ghost use Rattle.fund_steps.specs.Plan.{PlainPlan};
    ghost use Rattle.fund_steps.specs.BasisOf.{IsBasisOf};

    ghost Value = { PlainPlan };

    ghost view = { λ p. record { request = p.request.value; change = p.change.value; candidates = p.candidates.value.items; bump = p.bump.value } };

    ghost invariant = { λ p. IsBasisOf (record { request = p.request.value; change = p.change.value; candidates = p.candidates.value.items; bump = p.bump.value }) p.presets.items p.rest.items p.rates p.load };
}

/// What a payment is made from, and the steps of the run that chooses coins for it.
#[derive(Drop)]
pub struct Prepared {
    /// What the payment is made from.
    pub funds: PlanBasis,
    /// The steps in the order in which they are taken.
    pub steps: Vec<Step>,
}

impl PlanBasis {
    /// What a payment of a request is made from, and the steps of its run. The change script keeps the rules of a wallet's,
    /// and the candidates are at most 100,000, each outpoint once. A bump is given exactly where the request replaces a
    /// payment. Its coins and the candidates are together at most 100,000, each outpoint once, and its burden is at most
    /// 1,000,000,000,000,000,000 satoshi.
    ///
    /// The steps go through the rows of the request's ladder in order, and in each through the stages of its method, each
    /// with the problem of the row's pool. There are none with `manual`, and none where the coins that each payment spends
    /// bring all that is needed. The groups are formed once for all rows, and dropped when the steps are made.
    ///
    /// [`PlanFault::Total`] comes exactly where the candidates and the coins of the bump are worth more than 21,000,000
    /// bitcoin together. Otherwise [`PlanFault::NotEligible`] comes exactly where the request lists an outpoint at which
    /// there is no candidate that is safe, or that may be unsafe because the request says `include_unsafe`; it shows the
    /// first such outpoint. Otherwise [`PlanFault::TooMany`] comes exactly where a row of the request's ladder keeps more
    /// than 10,000 groups of the candidates that it doesn't list; it shows the first such row. [`PlanFault::Memory`] is out
    /// of memory, and comes only where these coins are worth no more than that: their worth is tested before any memory is
    /// taken.
    pub fn new(
        alloc: Global,
        request: &Request,
        change: &Watch,
        candidates: Vec<Candidate>,
        bump: Option<BumpInput>,
    ) -> Result<Prepared, PlanFault>
        requires bump { IsBumpFor request.now candidates.items bump }
        requires change { IsWatch change.now }
        requires candidates { AreCandidates candidates.items }
        ensures made { IfOk result (λ s. s.funds ≡ record { request = request.now; change = change.now; candidates = candidates.items; bump = bump }) }
        ensures steps { IfOk result (λ s. s.steps.items ≡ steps_of (basis_of s.funds)) }
        ensures fine { IfOk result (λ s. AreSteps s.steps.items) }
        ensures within { IfOk result (λ s. IsWithin s.funds) }
        ensures eligible { IfOk result (λ s. All (HasEligible s.funds) s.funds.request.coins) }
        ensures roomy { IfOk result (λ s. All (IsRoomy s.funds) (ladder_in s.funds)) }
        ensures fault { IfErr result (IsPlanFault (record { request = request.now; change = change.now; candidates = candidates.items; bump = bump })) }
    {
        let sum = worth(&candidates, &bump);
        if sum > u128::from(MAX_MONEY) {
            return Err(PlanFault::Total(sum));
        }
        let all = Snapshot::of(&candidates);
        let replacing = Snapshot::of(&bump);
        let Parted { listed, rest } = split(alloc, request, candidates)?;
        match are_there(alloc, &listed, &request.coins) {
            Ok(()) => {}
            Err(fault) => return Err(fault),
        }
        let Given { presets, burden } = presets_and_burden(alloc, listed, bump)?;
        let load = load(request, change, &presets, burden);
        let turns = row_turns(request, &load);
        let mut steps = Vec::new(alloc);
        let crowded = add_rows(alloc, request, &rest, &load, turns, &mut steps)?;
        match check_rows(crowded) {
            Ok(()) => {}
            Err(fault) => return Err(fault),
        }
        request.keeps_rules();
        let funds = PlanBasis {
            request: Snapshot::of(request),
            change: Snapshot::of(change),
            candidates: all,
            bump: replacing,
            presets,
            rest,
            rates: rates(request),
            load,
        };
        Ok(Prepared { funds, steps })
    }

    /// That the funds keep the rules of a plan: those of the request, of the change script, of the candidates and of a bump;
    /// that the candidates and the coins of a bump are worth at most 21,000,000 bitcoin together; that at each listed
    /// outpoint there is a candidate that the request may list; and that each row of the ladder keeps at most 10,000 groups
    /// of the others. A call does nothing.
    pub fn keeps_rules(&self)
        ensures { IsPlan self.now }
    {
        let _ = &self.rates;
    }

    /// The coins that each payment spends, in the order of their outpoints: those of the payment that it replaces, and where
    /// it replaces none those that the request lists.
    pub fn presets(&self) -> &[Candidate]
        ensures value { result.now ≡ presets_in self.now }
        ensures fit { AreWithin result.now }
    {
        self.presets.as_slice()
    }

    /// The coins that may be added to them: the candidates that the request doesn't list.
    pub fn rest(&self) -> &[Candidate]
        ensures value { result.now ≡ unlisted self.now.request.coins self.now.candidates }
        ensures candidates { AreCandidates result.now }
    {
        self.rest.as_slice()
    }

    /// The rates of the request.
    pub fn rates(&self) -> Rates
        ensures value { result ≡ rates_of self.now.request }
        ensures fit { AreRates result }
    {
        self.rates
    }

    /// What a payment from the coins that each payment spends is to carry, where no other is added.
    pub fn load(&self) -> PaymentLoad
        ensures value { result ≡ load_of self.now.request self.now.change (presets_in self.now) (burden_in self.now) }
        ensures alone { result ≡ load_alone (basis_of self.now) }
        ensures fit { IsLoad result }
        ensures worth { result.preset_effective ≤ℤ pos MAX_MONEY }
    {
        self.load
    }

    /// Whether the coins that each payment spends pay alone, and how.
    pub fn alone(&self) -> Presets
        ensures { result ≡ given_in (basis_of self.now) }
    {
        presets_alone(&self.rates, &self.load)
    }
}

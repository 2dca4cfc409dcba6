//! What the payments of a plan are made from, and the payments that the ends of its run come to.

ghost use Rattle.std.specs.Prelude.{◌≡◌, ◌≤◌, ◌==◌, All, IfOk, None, find, length, option_copied, sum};
ghost use Rattle.fee_rates.specs.Terms.{IsLoad};
ghost use Rattle.output_groups.specs.declared.rows.Row.{Row};
ghost use Rattle.request_text.specs.PlainRequest.{paid_to};
ghost use Rattle.search_run.specs.Found.{IsResultOf};
ghost use Rattle.search_run.specs.Stands.{IsEndOf};
ghost use Rattle.search_run.specs.declared.ending.End.TheVariants as ends;
ghost use Rattle.fund_steps.specs.Amounts.{AreWithin};
ghost use Rattle.fund_steps.specs.Basis.{basis_of, load_alone};
ghost use Rattle.fund_steps.specs.Listed.{presets_in};
ghost use Rattle.fund_steps.specs.Making.{AreSearched};
ghost use Rattle.fund_steps.specs.Plan.{IsPlan, IsRoomy};
ghost use Rattle.fund_steps.specs.Searches.{load_with, sizes_of};
ghost use Rattle.fund_plan.specs.Answer.{ArePayments, HasSelection, IsPayment, IsSelection, given_from};
ghost use Rattle.fund_plan.specs.Chosen.{funded_at, mark_of, row_among, row_of};
ghost use Rattle.fund_plan.specs.Figures.{waste_of};
ghost use Rattle.fund_plan.specs.Kept.{choice_of};
ghost use Rattle.fund_plan.specs.Outcome.{by_end, given_of};
ghost use Rattle.fund_plan.specs.Pays.{payment_weight};
ghost use Rattle.fund_plan.specs.Steps.{groups_of, is_given, load_in, pool_in, steps_of};

use crate::chosen::{at_hand, together};
use crate::outcome::{Funded, Outcome, Place};
use crate::worth::{change, declared_weight, waste};
use closing_log::{Mark, Stage};
use coin_candidates::Candidate;
use fee_rates::{PaymentLoad, Terms};
use fund_base::Memory;
use fund_steps::{PlanBasis, Presets, presets_alone};
use output_groups::{Groups, PoolFault, Row, RowItems, ladder};
use request_text::Request;
use search_run::{End, Found};
use std::alloc::Global;
use std::marker::Model;

/// What a request says of the coins that may be chosen.
#[derive(Clone, Copy)]
pub struct Choice {
    /// Whether pending coins of the wallet's own may be spent.
    pub zero_conf: bool,
    /// Whether unsafe coins may be spent.
    pub include_unsafe: bool,
    /// Whether the coins of one script are spent together.
    pub group: bool,
    /// Whether a result is taken where the tries are used up.
    pub take: bool,
}

impl Choice {
    /// What the request says.
    fn of(request: &Request) -> Choice
        ensures { result ≡ choice_of request.now }
    {
        Choice {
            zero_conf: request.zero_conf,
            include_unsafe: request.include_unsafe,
            group: request.group,
            take: request.take,
        }
    }
}

/// What the payments of a plan are made from. It is seen as the plan: the request, the script that its change is paid to,
/// the candidates, and what it is given where it replaces a payment.
#[derive(Drop)]
pub struct PaymentMaker {
    alloc: Global,
    funds: PlanBasis,
    choice: Choice,
}

impl Model for PaymentMaker {
    ghost use Rattle.std.specs.Prelude.{◌≡◌};
    ghost use Rattle.fund_steps.specs.Plan.{PlainPlan};
    ghost use Rattle.fund_plan.specs.Kept.{choice_of};

    ghost Value = { PlainPlan };

    ghost view = { λ f. f.funds };

    ghost invariant = { λ f. f.choice ≡ choice_of f.funds.request };
}

impl PaymentMaker {
    /// The payments of these funds, which were made from this request.
    pub fn new(alloc: Global, request: &Request, funds: PlanBasis) -> PaymentMaker
        requires { funds.request ≡ request.now }
        ensures { result ≡ funds }
    {
        PaymentMaker {
            alloc,
            funds,
            choice: Choice::of(request),
        }
    }

    /// That it keeps the rules of plans. A call does nothing.
    pub fn keeps_rules(&self)
        ensures { IsPlan self.now }
    {
        self.funds.keeps_rules();
    }

    /// Whether a result is taken where the tries are used up.
    pub fn take(&self) -> bool
        ensures { result ≡ self.now.request.take }
    {
        self.choice.take
    }

    /// The row of this number.
    fn row(&self, number: u8) -> Row
        ensures { result ≡ row_of self.now number }
    {
        row_among(
            ladder(self.choice.zero_conf, self.choice.include_unsafe),
            number,
        )
    }

    /// The groups of the coins that aren't given. The error is out of memory.
    fn groups(&self) -> Result<Groups<'_>, Memory>
        ensures { IfOk result (λ g. g ≡ groups_of self.now) }
    {
        self.funds.keeps_rules();
        let rates = self.funds.rates();
        let groups = Groups::new(
            self.alloc,
            self.funds.rest(),
            rates.rate,
            rates.long_term,
            self.choice.group,
        )?;
        Ok(groups)
    }

    /// What a search sees of a row's pool, by the groups. The error is out of memory.
    fn seen(&self, groups: &Groups, row: &Row) -> Result<RowItems, Memory>
        requires groups { groups.now ≡ groups_of self.now }
        requires roomy { IsRoomy self.now row.now }
        ensures sizes { IfOk result (λ s. s.sizes.items ≡ sizes_of (pool_in self.now row.now).groups) }
        ensures fit { IfOk result (λ s. AreSearched s.items.items s.sizes.items) }
    {
        match groups.items(self.alloc, row) {
            Ok(seen) => Ok(seen),
            Err(fault) => match fault {
                PoolFault::Memory => Err(Memory),
                PoolFault::TooMany(_) => unreachable!(),
            },
        }
    }

    /// What a payment from the given coins and from those of a pool is to carry, by how many coins each of its groups has:
    /// all of them count.
    fn load(&self, sizes: &[u8]) -> PaymentLoad
        requires few { length sizes.now ≤ 10_000 }
        requires each { All (λ n. n ≤ 100) sizes.now }
        ensures value { result ≡ load_with (load_alone (basis_of self.now)) (sum sizes.now) }
        ensures fits { IsLoad result }
        ensures paid { result.paid ≡ paid_to self.now.request.recipients }
    {
        let load = self.funds.load();
        let _ = self.funds.presets();
        PaymentLoad {
            coins: load.coins + at_hand(sizes),
            ..load
        }
    }

    /// What a payment from the given coins and from those of a row is to carry, by the groups. The error is out of memory.
    fn load_by(&self, groups: &Groups, row: &Row) -> Result<PaymentLoad, Memory>
        requires groups { groups.now ≡ groups_of self.now }
        requires roomy { IsRoomy self.now row.now }
        ensures value { IfOk result (λ l. l ≡ load_in self.now row.now) }
        ensures fits { IfOk result IsLoad }
        ensures paid { IfOk result (λ l. l.paid ≡ paid_to self.now.request.recipients) }
    {
        let seen = self.seen(groups, row)?;
        Ok(self.load(&seen.sizes))
    }

    /// What its payments are made from.
    pub fn funds(&self) -> &PlanBasis
        ensures { result.now ≡ self.now }
    {
        &self.funds
    }

    /// What a payment from the given coins and from those of a row of the ladder is to carry. The error is out of memory.
    pub fn load_at(&self, row: &Row) -> Result<PaymentLoad, Memory>
        requires roomy { IsRoomy self.now row.now }
        ensures value { IfOk result (λ l. l ≡ load_in self.now row.now) }
        ensures fits { IfOk result IsLoad }
        ensures paid { IfOk result (λ l. l.paid ≡ paid_to self.now.request.recipients) }
    {
        let groups = self.groups()?;
        let load = self.load_by(&groups, row)?;
        Ok(load)
    }

    /// The payment from these coins, by what it is to carry.
    fn paid(
        &self,
        mark: Mark,
        place: Place,
        load: &PaymentLoad,
        coins: Vec<Candidate>,
        change: Option<u64>,
    ) -> Funded
        requires load { IsLoad load.now }
        requires paid { load.now.paid ≡ paid_to self.now.request.recipients }
        requires coins { AreWithin coins.items }
        ensures { result ≡ record { mark = mark; row = place.row; stage = place.stage; coins = coins.items; change = change; waste = waste_of self.now.request load.now coins.items change; weight = payment_weight load.now coins.items change } }
    {
        self.funds.keeps_rules();
        let rates = self.funds.rates();
        let waste = waste(&rates, load, &coins, change);
        let weight = declared_weight(&rates, load, &coins, change);
        Funded {
            mark,
            row: place.row,
            stage: place.stage,
            coins,
            change,
            waste,
            weight,
        }
    }

    /// The payment of a result of a step: the coins of its places, and those that are given. The error is out of memory.
    pub fn funded(&self, mark: Mark, found: &Found) -> Result<Funded, Memory>
        requires { IsResultOf (steps_of self.now) found.now }
        ensures value { IfOk result (λ f. f ≡ funded_at self.now mark found.now) }
        ensures payment { IfOk result (IsPayment self.now) }
        ensures selection { IfOk result (IsSelection self.now.request) }
    {
        self.funds.keeps_rules();
        let rates = self.funds.rates();
        let row = self.row(found.row);
        let groups = self.groups()?;
        let load = self.load_by(&groups, &row)?;
        let chosen = groups.members(self.alloc, &row, found.places.as_slice())?;
        let change = change(&rates, &load, &chosen, found.stage);
        let coins = together(self.alloc, self.funds.presets(), &chosen)?;
        let place = Place {
            row: found.row,
            stage: found.stage,
        };
        let funded = self.paid(mark, place, &load, coins, change);
        Ok(funded)
    }

    /// The payment from the given coins alone, with this change or with none. The error is out of memory.
    fn alone(&self, change: Option<u64>) -> Result<Funded, Memory>
        ensures { IfOk result (λ f. f ≡ given_from self.now (presets_in self.now) change) }
    {
        let load = self.funds.load();
        let coins = Candidate::copy_all(self.alloc, self.funds.presets())?;
        let place = Place {
            row: 0,
            stage: Stage::Presets,
        };
        let funded = self.paid(Mark::Given, place, &load, coins, change);
        Ok(funded)
    }

    /// What the given coins alone come to. The error is out of memory.
    #[tactic(auto, unfolding(crate::specs::Outcome::given_of))]
    pub fn given(&self) -> Result<Outcome, Memory>
        ensures { IfOk result (λ o. o ≡ given_of self.now) }
    {
        let rates = self.funds.rates();
        let load = self.funds.load();
        let change = match presets_alone(&rates, &load) {
            Presets::Short => return Ok(Outcome::NoSelection),
            Presets::Plain => None,
            Presets::Change(amount) => Some(amount),
        };
        let funded = self.alone(change)?;
        Ok(Outcome::Funded(funded))
    }

    /// Whether the given coins bring all that is needed, so that there is nothing to search for.
    fn is_given(&self) -> bool
        ensures { result ≡ is_given self.now }
    {
        let load = self.funds.load();
        let terms = Terms::new(&self.funds.rates(), &load);
        load.has_presets && terms.target <= 0
    }

    /// What a run comes to that ended without a result. The error is out of memory.
    fn unsearched(&self) -> Result<Outcome, Memory>
        ensures { IfOk result (λ o. o ≡ by_end self.now (ends.Ended None)) }
    {
        if self.is_given() {
            self.given()
        } else {
            Ok(Outcome::NoSelection)
        }
    }

    /// What an end of a run over its steps comes to: a payment, if it is funded. The error is out of memory.
    pub fn outcome(&self, end: &End) -> Result<Outcome, Memory>
        requires { IsEndOf (steps_of self.now) end.now }
        ensures value { IfOk result (λ o. o ≡ by_end self.now end.now) }
        ensures pays { IfOk result (ArePayments self.now) }
        ensures fits { IfOk result (HasSelection self.now.request) }
    {
        self.funds.keeps_rules();
        let outcome = self.come_to(end)?;
        Ok(outcome)
    }

    /// What an end comes to. The error is out of memory.
    fn come_to(&self, end: &End) -> Result<Outcome, Memory>
        requires { IsEndOf (steps_of self.now) end.now }
        ensures { IfOk result (λ o. o ≡ by_end self.now end.now) }
    {
        match end {
            End::Ended(None) => self.unsearched(),
            End::Ended(Some(found)) => {
                let funded = self.funded(mark_of(found.stage), found)?;
                Ok(Outcome::Funded(funded))
            }
            End::Partial(found) => {
                let funded = self.funded(Mark::Partial, found)?;
                Ok(Outcome::Funded(funded))
            }
            End::Unfinished => Ok(Outcome::Unfinished),
        }
    }
}

/// The mark of a result: drawn, or found by a search that came to its end.
fn mark_of(stage: Stage) -> Mark
    ensures { result ≡ mark_of stage }
{
    match stage {
        Stage::Draw => Mark::Drawn,
        Stage::Presets | Stage::Changeless | Stage::LeanBig | Stage::LeanSmall | Stage::Wide => {
            Mark::Exhausted
        }
    }
}

/// No row: it stands where a number is that of none.
const NO_ROW: Row = Row {
    number: 0,
    own: 0,
    foreign: 0,
    ancestors: 0,
    descendants: 0,
    partial: false,
    unsafe_too: false,
};

/// The first row of this number, if there is one.
fn found_row(rows: &[Row], number: u8) -> Option<&Row>
    ensures { option_copied result ≡ find (λ (r : Row). r.number == number) rows.now }
{
    rows.iter().find(|row| row.number == number)
}

/// The row of this number.
fn row_among(rows: &[Row], number: u8) -> Row
    ensures { result ≡ row_among rows.now number }
{
    match found_row(rows, number) {
        Some(row) => *row,
        None => NO_ROW,
    }
}

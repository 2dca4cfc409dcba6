//! What a plan is made from beside its request.

ghost use Rattle.std.specs.Prelude.{◌≡◌, IfOk, None, option_map};
ghost use Rattle.coin_candidates.specs.Candidates.{AreCandidates};
ghost use Rattle.fund_steps.specs.Plan.{IsBumpFor};
ghost use Rattle.fund_files.specs.Chain.{IsChain};
ghost use Rattle.command_inputs.specs.Outcome.{bump_fault_in, bump_of, candidates_by, terms_for};

use coin_candidates::Candidate;
use fee_bump::BumpTerms;
use fund_base::Memory;
use fund_files::Chain;
use fund_steps::BumpInput;
use request_text::Request;
use std::alloc::Global;

/// What a plan is made from beside its request.
#[derive(Drop)]
pub struct PlanCoins {
    /// The coins that may be spent; those that may be added where a payment is replaced.
    pub candidates: Vec<Candidate>,
    /// What is given where a payment is replaced.
    pub bump: Option<BumpInput>,
}

/// What the plan of a request is made from beside it. The terms are those of the replacement, where the request names a payment
/// to be replaced. The error is out of memory.
pub fn plan_coins(
    alloc: Global,
    held: &Chain,
    request: &Request,
    terms: Option<BumpTerms>,
) -> Result<PlanCoins, Memory>
    requires held { IsChain held.now }
    requires terms { terms ≡ terms_for held.now request.now }
    requires taken { bump_fault_in held.now request.now ≡ None }
    ensures candidates { IfOk result (λ c. c.candidates.items ≡ candidates_by held.now request.now.rate (terms_for held.now request.now)) }
    ensures bump { IfOk result (λ c. c.bump ≡ option_map bump_of (terms_for held.now request.now)) }
    ensures fit { IfOk result (λ c. AreCandidates c.candidates.items) }
    ensures asked { IfOk result (λ c. IsBumpFor request.now c.candidates.items c.bump) }
{
    held.book.keeps_rules();
    let rate = request.rate;
    match terms {
        Some(terms) => {
            let BumpTerms {
                presets,
                candidates,
                burden,
                replaced: _,
                old_fee: _,
                old_vsize: _,
            } = terms;
            let bump = BumpInput { presets, burden };
            Ok(PlanCoins {
                candidates,
                bump: Some(bump),
            })
        }
        None => {
            let (_, candidates) = held.states_and_coins(alloc, rate)?;
            Ok(PlanCoins {
                candidates,
                bump: None,
            })
        }
    }
}

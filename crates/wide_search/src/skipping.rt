//! Tries that drop their place, with its twins, and change nothing else. Most are such ones, and a few tests tell them.

ghost use Rattle.std.specs.Prelude.{◌↔◌, ◌+◌, ◌<◌, IfSome, IsTrue, length};
ghost use Rattle.pick_problem.specs.Later.{behind_twins};
ghost use Rattle.wide_search.specs.Best.{IsBestSoFar, plain_best};
ghost use Rattle.wide_search.specs.Skipping.{OnlyDrops};
ghost use Rattle.wide_search.specs.Stack.{IsStack};

use crate::best::Best;
use crate::cases::{Case, first_case};
use crate::prepared::Prepared;
use crate::stack::Stack;
use wide_check::WideReason;

/// Whether a place is left after a place and its twins.
#[inline(always)]
fn has_next(prepared: &Prepared, t: u32) -> bool
    requires { t < length prepared.now.items }
    ensures { IsTrue result ↔ behind_twins prepared.now (t + 1) < length prepared.now.items }
{
    prepared.run_end(t) < prepared.count()
}

/// The reason of a try that drops its place and changes nothing else. `None` says nothing.
#[inline(always)]
#[tactic(auto, using(crate::proofs::DropLaws::drops_over, crate::proofs::DropLaws::drops_heavy, crate::proofs::DropLaws::drops_wasteful))]
pub(crate) fn drop_reason(
    prepared: &Prepared,
    best: &Best,
    stack: &Stack,
    t: u32,
) -> Option<WideReason>
    requires below { t < length prepared.now.items }
    requires stack { IsStack prepared.now t stack.now }
    requires best { IsBestSoFar prepared.now best.now }
    ensures { IfSome result (λ reason. OnlyDrops prepared.now (plain_best best.now) stack.now.places.items t reason) }
{
    if !has_next(prepared, t) {
        return None;
    }
    let sums = stack.sums_with(prepared, t);
    match first_case(prepared, best, &sums, t) {
        Case::Over => Some(WideReason::Over),
        Case::Heavy => Some(WideReason::Heavy),
        Case::Wasteful => Some(WideReason::Wasteful),
        _ => None,
    }
}

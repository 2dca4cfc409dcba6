//! Tries that drop their place, with its twins, and change nothing else. Most are such ones, and a few tests tell them.

ghost use Rattle.std.specs.Prelude.{◌≡◌, ◌↔◌, ◌+◌, ◌<◌, IfSome, IsTrue, length};
ghost use Rattle.pick_problem.specs.Later.{behind_twins};
ghost use Rattle.pick_problem.specs.Problem.{IsProblem};
ghost use Rattle.pick_problem.specs.declared.item.Kind.TheVariants.{Changeless, Lean};
ghost use Rattle.walk_engine.specs.Best.{IsBestSoFar, plain_best};
ghost use Rattle.walk_engine.specs.Skipping.{OnlyDrops};
ghost use Rattle.walk_engine.specs.Stack.{IsStack};

use crate::best::{Best, stays};
use crate::cases::{is_above, is_heavy, is_short, is_worse, reaches};
use crate::prepared::Prepared;
use crate::stack::Stack;
use crate::transitions::is_lightest;
use pick_problem::{Kind, Reason};

/// The reason of a changeless try that drops its place and changes nothing else: O or W. What is above the greatest
/// value isn't short, so that is asked first.
#[inline(always)]
#[tactic(auto, using(crate::proofs::DropLaws::drops_over, crate::proofs::DropLaws::drops_worse))]
fn drop_changeless(prepared: &Prepared, best: &Best, stack: &Stack, t: u32) -> Option<Reason>
    requires kind { prepared.now.kind ≡ Changeless }
    requires problem { IsProblem prepared.now }
    requires below { t < length prepared.now.items }
    requires more { behind_twins prepared.now (t + 1) < length prepared.now.items }
    requires stack { IsStack prepared.now t stack.now }
    requires best { IsBestSoFar prepared.now best.now }
    ensures { IfSome result (λ reason. OnlyDrops prepared.now (plain_best best.now) stack.now.places.items t reason) }
{
    if is_above(prepared, stack, t) {
        return Some(Reason::Over);
    }
    if is_short(prepared, stack, t) {
        return None;
    }
    if is_heavy(prepared, stack, t) {
        return None;
    }
    if is_worse(prepared, best, stack, t) {
        return Some(Reason::Worse);
    }
    None
}

/// The reason of a lean try that drops its place and changes nothing else: L where a lighter place is left, or A where
/// the best stays.
#[inline(always)]
#[tactic(auto, using(crate::proofs::DropLaws::drops_heavier, crate::proofs::DropLaws::drops_hit))]
fn drop_lean(prepared: &Prepared, best: &Best, stack: &Stack, t: u32) -> Option<Reason>
    requires kind { prepared.now.kind ≡ Lean }
    requires below { t < length prepared.now.items }
    requires more { behind_twins prepared.now (t + 1) < length prepared.now.items }
    requires stack { IsStack prepared.now t stack.now }
    requires best { IsBestSoFar prepared.now best.now }
    ensures { IfSome result (λ reason. OnlyDrops prepared.now (plain_best best.now) stack.now.places.items t reason) }
{
    if is_short(prepared, stack, t) {
        return None;
    }
    if is_heavy(prepared, stack, t) {
        return None;
    }
    if is_worse(prepared, best, stack, t) {
        if is_lightest(prepared, t) {
            return None;
        }
        return Some(Reason::Heavier);
    }
    if !reaches(prepared, stack, t) {
        return None;
    }
    if !stays(best, prepared, stack, t) {
        return None;
    }
    Some(Reason::Hit)
}

/// Whether a place is left after a place and its twins.
#[inline(always)]
fn has_next(prepared: &Prepared, t: u32) -> bool
    requires { t < length prepared.now.items }
    ensures next { IsTrue result ↔ behind_twins prepared.now (t + 1) < length prepared.now.items }
    ensures problem { IsProblem prepared.now }
{
    prepared.run_end(t) < prepared.count()
}

/// The reason of a try that drops its place and changes nothing else, where few tests tell it. `None` says nothing.
#[inline(always)]
pub(crate) fn drop_reason(prepared: &Prepared, best: &Best, stack: &Stack, t: u32) -> Option<Reason>
    requires below { t < length prepared.now.items }
    requires stack { IsStack prepared.now t stack.now }
    requires best { IsBestSoFar prepared.now best.now }
    ensures { IfSome result (λ reason. OnlyDrops prepared.now (plain_best best.now) stack.now.places.items t reason) }
{
    if !has_next(prepared, t) {
        return None;
    }
    match prepared.kind() {
        Kind::Changeless => drop_changeless(prepared, best, stack, t),
        Kind::Lean => drop_lean(prepared, best, stack, t),
    }
}

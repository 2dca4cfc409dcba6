//! The rules of a try, each as a test of running sums.

ghost use Rattle.std.specs.Prelude.{◌≡◌, ◌+◌, ◌<◌, ◌≤◌, length, nat_le, nat_lt};
ghost use Rattle.pick_problem.specs.Later.{later_value};
ghost use Rattle.pick_problem.specs.Pool.{item_at};
ghost use Rattle.pick_problem.specs.Problem.{value_of, weight_of};
ghost use Rattle.pick_problem.specs.Walk.{GoesOn, IsHit, is_far, is_over, is_worse, rule};
ghost use Rattle.walk_engine.specs.Cases.{rule_of};
ghost use Rattle.walk_engine.specs.Best.{IsBestSoFar, plain_best};
ghost use Rattle.walk_engine.specs.Stack.{IsStack, with_place};

use crate::best::Best;
use crate::prepared::Prepared;
use crate::stack::Stack;
use pick_problem::Kind;

/// Which rule applies to a try.
#[derive(Clone, Copy, PartialEq, Eq)]
pub(crate) enum Case {
    /// With all later places it doesn't reach the least value.
    Short,
    /// It is above the greatest value.
    Over,
    /// It is above the limit of weight.
    Heavy,
    /// It is no better than the best.
    Worse,
    /// It reaches the least value.
    Hit,
    /// It can't reach the least value at a lower weight than the best.
    Far,
    /// The walk goes on to the next place.
    Goes,
}

/// Whether with all later places it doesn't reach the least value.
#[inline(always)]
#[tactic(auto, using(crate::proofs::CaseLaws::short_test))]
pub(crate) fn is_short(prepared: &Prepared, stack: &Stack, t: u32) -> bool
    requires below { t < length prepared.now.items }
    requires stack { IsStack prepared.now t stack.now }
    ensures { result ≡ nat_lt (value_of prepared.now (with_place stack.now t)
        + later_value prepared.now (t + 1)) prepared.now.lo }
{
    prepared.later_value(t) < u128::from(stack.gap)
}

/// Whether it is above the greatest value.
#[inline(always)]
#[tactic(auto, using(crate::proofs::CaseLaws::above_test))]
pub(crate) fn is_above(prepared: &Prepared, stack: &Stack, t: u32) -> bool
    requires below { t < length prepared.now.items }
    requires stack { IsStack prepared.now t stack.now }
    ensures { result ≡ is_over prepared.now.kind prepared.now (with_place stack.now t) }
{
    match prepared.kind() {
        Kind::Changeless => prepared.item(t).value > stack.gap + prepared.width(),
        Kind::Lean => false,
    }
}

/// Whether it is above the limit of weight.
#[inline(always)]
pub(crate) fn is_heavy(prepared: &Prepared, stack: &Stack, t: u32) -> bool
    requires below { t < length prepared.now.items }
    requires stack { IsStack prepared.now t stack.now }
    ensures { result ≡ nat_lt prepared.now.most_weight (weight_of prepared.now (with_place stack.now t)) }
{
    stack.weight_with(prepared, t) > prepared.problem().most_weight()
}

/// Whether it wastes as much as the best or more, or is heavier.
#[inline(always)]
#[tactic(auto, using(crate::proofs::CaseLaws::worse_never, crate::proofs::CaseLaws::worse_not_plain, crate::proofs::CaseLaws::worse_lean))]
pub(crate) fn is_worse(prepared: &Prepared, best: &Best, stack: &Stack, t: u32) -> bool
    requires below { t < length prepared.now.items }
    requires stack { IsStack prepared.now t stack.now }
    requires best { IsBestSoFar prepared.now best.now }
    ensures { result ≡ is_worse prepared.now.kind prepared.now (plain_best best.now) (with_place stack.now t) }
{
    if !best.found {
        return false;
    }
    match prepared.kind() {
        Kind::Changeless => {
            prepared.plain_costs() && best.sums.waste <= stack.waste_with(prepared, t)
        }
        Kind::Lean => best.sums.weight < stack.weight_with(prepared, t),
    }
}

/// Whether it reaches the least value.
#[inline(always)]
#[tactic(auto, using(crate::proofs::CaseLaws::hit_test))]
pub(crate) fn reaches(prepared: &Prepared, stack: &Stack, t: u32) -> bool
    requires below { t < length prepared.now.items }
    requires stack { IsStack prepared.now t stack.now }
    ensures test { result ≡ nat_le prepared.now.lo (value_of prepared.now (with_place stack.now t)) }
    ensures gap { result ≡ nat_le stack.now.gap (item_at prepared.now.items t).value }
{
    prepared.item(t).value >= stack.gap
}

/// Whether it is heavier than the best with as many of the lightest later items as it needs at least; it is below the
/// least value, and reaches it with all later places.
#[inline(always)]
#[tactic(auto, using(crate::proofs::CaseLaws::far_never, crate::proofs::CaseLaws::far_lean))]
fn is_far(prepared: &Prepared, best: &Best, stack: &Stack, t: u32) -> bool
    requires below { t < length prepared.now.items }
    requires stack { IsStack prepared.now t stack.now }
    requires best { IsBestSoFar prepared.now best.now }
    requires low { (item_at prepared.now.items t).value < stack.now.gap }
    requires later { stack.now.gap ≤ later_value prepared.now t }
    ensures { result ≡ is_far prepared.now.kind prepared.now (plain_best best.now) (with_place stack.now t) t }
{
    if !best.found {
        return false;
    }
    match prepared.kind() {
        Kind::Changeless => false,
        Kind::Lean => {
            let needed = u128::from((stack.gap - 1) / prepared.item(t).value);
            let more = needed * u128::from(prepared.weight_behind(t));
            u128::from(best.sums.weight) < u128::from(stack.weight_with(prepared, t)) + more
        }
    }
}

/// The first rule that applies where a place is put after the chosen ones.
#[inline(always)]
#[tactic(auto, using(crate::proofs::CaseLaws::not_short))]
pub(crate) fn first_case(prepared: &Prepared, best: &Best, stack: &Stack, t: u32) -> Case
    requires below { t < length prepared.now.items }
    requires stack { IsStack prepared.now t stack.now }
    requires best { IsBestSoFar prepared.now best.now }
    ensures rule { rule_of result ≡ rule prepared.now (plain_best best.now) (with_place stack.now t) t }
    ensures hit { rule_of result ≡ IsHit → stack.now.gap ≤ (item_at prepared.now.items t).value }
    ensures goes { rule_of result ≡ GoesOn → (item_at prepared.now.items t).value ≤ stack.now.gap }
{
    if is_short(prepared, stack, t) {
        return Case::Short;
    }
    if is_above(prepared, stack, t) {
        return Case::Over;
    }
    if is_heavy(prepared, stack, t) {
        return Case::Heavy;
    }
    if is_worse(prepared, best, stack, t) {
        return Case::Worse;
    }
    if reaches(prepared, stack, t) {
        return Case::Hit;
    }
    if is_far(prepared, best, stack, t) {
        return Case::Far;
    }
    Case::Goes
}

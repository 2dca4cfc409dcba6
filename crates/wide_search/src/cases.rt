//! The rules of a try, each as a test of the sums of the chosen places with the next one.

ghost use Rattle.std.specs.Prelude.{◌≡◌, ◌+◌, ◌<◌, ℕ, List, length, nat_le, nat_lt};
ghost use Rattle.pick_problem.specs.Later.{later_value};
ghost use Rattle.pick_problem.specs.Problem.{value_of, weight_of};
ghost use Rattle.wide_search.specs.Best.{IsBestSoFar, plain_best};
ghost use Rattle.wide_search.specs.Cases.{rule_of};
ghost use Rattle.wide_search.specs.Stack.{AreSmall, AreSums};
ghost use Rattle.wide_search.specs.WideWalk.{is_wasteful, rule};

use crate::best::Best;
use crate::prepared::Prepared;
use crate::sums::Sums;

/// Which rule applies to a try.
#[derive(Clone, Copy, PartialEq, Eq)]
pub(crate) enum Case {
    /// With all later places they don't reach the least value.
    Short,
    /// They are above the greatest value.
    Over,
    /// They are above the limit of weight.
    Heavy,
    /// With all that later places save they waste no less than the best.
    Wasteful,
    /// They reach the least value.
    Hit,
    /// The walk goes on to the next place.
    Goes,
}

/// Whether with all later places they don't reach the least value.
#[inline(always)]
fn is_short(prepared: &Prepared, sums: &Sums, t: u32) -> bool
    requires below { t < length prepared.now.items }
    requires small { AreSmall sums.now }
    ensures { (q : List ℕ) → AreSums prepared.now q sums.now →
        result ≡ nat_lt (value_of prepared.now q + later_value prepared.now (t + 1)) prepared.now.lo }
{
    sums.value + prepared.later_value(prepared.behind(t)) < u128::from(prepared.problem().lo())
}

/// Whether they are above the greatest value.
#[inline(always)]
fn is_above(prepared: &Prepared, sums: &Sums) -> bool
    ensures { (q : List ℕ) → AreSums prepared.now q sums.now →
        result ≡ nat_lt prepared.now.hi (value_of prepared.now q) }
{
    sums.value > u128::from(prepared.problem().hi())
}

/// Whether they are above the limit of weight.
#[inline(always)]
fn is_heavy(prepared: &Prepared, sums: &Sums) -> bool
    ensures { (q : List ℕ) → AreSums prepared.now q sums.now →
        result ≡ nat_lt prepared.now.most_weight (weight_of prepared.now q) }
{
    sums.weight > prepared.problem().most_weight()
}

/// Whether with all that later places save they waste no less than the best.
#[inline(always)]
fn is_wasteful(prepared: &Prepared, best: &Best, sums: &Sums, t: u32) -> bool
    requires below { t < length prepared.now.items }
    requires small { AreSmall sums.now }
    requires best { IsBestSoFar prepared.now best.now }
    ensures { (q : List ℕ) → AreSums prepared.now q sums.now →
        result ≡ is_wasteful prepared.now (plain_best best.now) q (t + 1) }
{
    if !best.found {
        return false;
    }
    best.waste <= prepared.least_waste(sums, prepared.behind(t))
}

/// Whether they reach the least value.
#[inline(always)]
fn reaches(prepared: &Prepared, sums: &Sums) -> bool
    ensures { (q : List ℕ) → AreSums prepared.now q sums.now →
        result ≡ nat_le prepared.now.lo (value_of prepared.now q) }
{
    sums.value >= u128::from(prepared.problem().lo())
}

/// The first rule that applies where a place was put after the chosen ones; together they have these sums.
#[inline(always)]
pub(crate) fn first_case(prepared: &Prepared, best: &Best, sums: &Sums, t: u32) -> Case
    requires below { t < length prepared.now.items }
    requires small { AreSmall sums.now }
    requires best { IsBestSoFar prepared.now best.now }
    ensures { (q : List ℕ) → AreSums prepared.now q sums.now →
        rule_of result ≡ rule prepared.now (plain_best best.now) q t }
{
    if is_short(prepared, sums, t) {
        return Case::Short;
    }
    if is_above(prepared, sums) {
        return Case::Over;
    }
    if is_heavy(prepared, sums) {
        return Case::Heavy;
    }
    if is_wasteful(prepared, best, sums, t) {
        return Case::Wasteful;
    }
    if reaches(prepared, sums) {
        return Case::Hit;
    }
    Case::Goes
}

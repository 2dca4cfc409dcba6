//! The best selection so far.

ghost use Rattle.std.specs.Prelude.{◌≡◌, ◌<◌, ◌≤◌, ℕ, true, List, [], ◌∷◌, ◌++◌, IfOk, None, Some, length};
ghost use Rattle.std.specs.Vec.{vec_capacity};
ghost use Rattle.pick_problem.specs.Pool.{item_at};
ghost use Rattle.pick_problem.specs.Problem.{PlainProblem, Rising, value_of};
ghost use Rattle.pick_problem.specs.Admissible.{IsAdmissible, IsFit};
ghost use Rattle.pick_problem.specs.Score.{score_by};
ghost use Rattle.pick_problem.specs.Walk.{IsHit, best_of, score_below};
ghost use Rattle.walk_engine.specs.Best.{HasSums, IsBestSoFar, plain_best};
ghost use Rattle.walk_engine.specs.Stack.{IsStack, with_place};

use crate::prepared::Prepared;
use crate::stack::{Stack, add};
use fund_base::{Memory, Places};
use pick_problem::{Kind, Problem};
use std::alloc::Global;

/// The waste of a selection without change, in satoshi; its weight, in weight units; and what its value is above the
/// least value that is looked for, in satoshi.
#[derive(Clone, Copy)]
pub(crate) struct Sums {
    pub(crate) waste: i128,
    pub(crate) weight: u64,
    pub(crate) excess: u128,
}

/// The best selection so far, if one was found, with its sums.
#[derive(Drop)]
pub(crate) struct Best {
    pub(crate) found: bool,
    pub(crate) places: Vec<u32>,
    pub(crate) sums: Sums,
}

/// Chosen places with one more, where there is room for them.
fn replace(places: &mut Vec<u32>, chosen: &[u32], place: u32)
    requires { length chosen.now < vec_capacity places.old }
    ensures places { places.new.items ≡ chosen.now ++ place ∷ [] }
    ensures room { vec_capacity places.old ≤ vec_capacity places.new }
{
    places.clear();
    if let Err(_) = places.extend_from_slice(chosen) {
        unreachable!()
    }
    add(places, place);
}

/// The sums of the chosen places with one more, which reach the least value.
#[inline(always)]
#[tactic(auto, using(crate::proofs::BestLaws::sums_are))]
fn sums_with(prepared: &Prepared, stack: &Stack, t: u32) -> Sums
    requires below { t < length prepared.now.items }
    requires stack { IsStack prepared.now t stack.now }
    requires reaches { stack.now.gap ≤ (item_at prepared.now.items t).value }
    ensures { HasSums prepared.now (with_place stack.now t) result }
{
    Sums {
        waste: stack.waste_with(prepared, t),
        weight: stack.weight_with(prepared, t),
        excess: u128::from(prepared.item(t).value - stack.gap),
    }
}

/// Whether the first of two selections has the lower score.
#[inline(always)]
#[tactic(auto, using(crate::proofs::BestLaws::lower_changeless, crate::proofs::BestLaws::lower_lean))]
fn is_lower(kind: Kind, a: &Sums, b: &Sums) -> bool
    ensures { (p : PlainProblem) (x y : List ℕ) → HasSums p x a.now → HasSums p y b.now →
        result ≡ score_below (score_by kind p x) (score_by kind p y) }
{
    match kind {
        Kind::Changeless => a.waste < b.waste,
        Kind::Lean => a.weight < b.weight || (a.weight == b.weight && a.excess < b.excess),
    }
}

/// Whether the best stays where the chosen places with one more, which reach the least value, are met.
#[inline(always)]
#[tactic(auto, using(crate::proofs::BestLaws::best_stays))]
pub(crate) fn stays(best: &Best, prepared: &Prepared, stack: &Stack, t: u32) -> bool
    requires below { t < length prepared.now.items }
    requires stack { IsStack prepared.now t stack.now }
    requires reaches { stack.now.gap ≤ (item_at prepared.now.items t).value }
    requires best { IsBestSoFar prepared.now best.now }
    ensures { result ≡ true →
        best_of prepared.now (plain_best best.now) (with_place stack.now t) IsHit ≡ plain_best best.now }
{
    if !best.found {
        return false;
    }
    let sums = sums_with(prepared, stack, t);
    !is_lower(prepared.kind(), &sums, &best.sums)
}

/// The sums of places that reach the least value.
#[tactic(auto, using(crate::proofs::BestLaws::sums_of))]
fn sums_of(problem: &Problem, places: &[u32]) -> Sums
    requires rising { Rising (length problem.now.items) 0 places.now }
    requires reaches { problem.now.lo ≤ value_of problem.now places.now }
    ensures { HasSums problem.now places.now result }
{
    let excess = problem.value(places) - u128::from(problem.lo());
    Sums {
        waste: problem.cost(places) + excess as i128,
        weight: problem.weight(places),
        excess,
    }
}

impl Best {
    /// A best that was found before, or none, with room for every place. The error is out of memory.
    pub(crate) fn of(
        alloc: Global,
        prepared: &Prepared,
        best: &Option<Places>,
    ) -> Result<Best, Memory>
        requires { IsFit prepared.now best.now }
        ensures best { IfOk result (λ b. IsBestSoFar prepared.now b) }
        ensures same { IfOk result (λ b. plain_best b ≡ best.now) }
    {
        match best {
            None => Best::new(alloc, prepared),
            Some(places) => Best::found(alloc, prepared, places.as_slice()),
        }
    }

    /// An admissible selection that was found before. The error is out of memory.
    fn found(alloc: Global, prepared: &Prepared, best: &[u32]) -> Result<Best, Memory>
        requires { IsAdmissible prepared.now best.now }
        ensures best { IfOk result (λ b. IsBestSoFar prepared.now b) }
        ensures same { IfOk result (λ b. plain_best b ≡ Some best.now) }
    {
        let mut places = Vec::with_capacity(alloc, prepared.count() as usize)?;
        places.extend_from_slice(best)?;
        Ok(Best {
            found: true,
            places,
            sums: sums_of(prepared.problem(), best),
        })
    }

    /// A copy of the places, if a selection was found. The error is out of memory.
    pub(crate) fn copy(&self, alloc: Global) -> Result<Option<Places>, Memory>
        ensures { IfOk result (λ copy. copy ≡ plain_best self.now) }
    {
        if !self.found {
            return Ok(None);
        }
        Ok(Some(Places::new(Vec::from_slice(alloc, self.places.as_slice())?)))
    }

    /// None yet, with room for every place. The error is out of memory.
    pub(crate) fn new(alloc: Global, prepared: &Prepared) -> Result<Best, Memory>
        ensures best { IfOk result (λ b. IsBestSoFar prepared.now b) }
        ensures none { IfOk result (λ b. plain_best b ≡ None) }
    {
        let places = Vec::with_capacity(alloc, prepared.count() as usize)?;
        let sums = Sums {
            waste: 0,
            weight: 0,
            excess: 0,
        };
        Ok(Best {
            found: false,
            places,
            sums,
        })
    }
}

/// The chosen places with one more, which reach the least value, become the best if there is none, or if their score is
/// lower.
pub(crate) fn improve(best: &mut Best, prepared: &Prepared, stack: &Stack, t: u32)
    requires below { t < length prepared.now.items }
    requires stack { IsStack prepared.now t stack.now }
    requires reaches { stack.now.gap ≤ (item_at prepared.now.items t).value }
    requires best { IsBestSoFar prepared.now best.old }
    ensures best { plain_best best.new ≡ best_of prepared.now (plain_best best.old) (with_place stack.now t) IsHit }
    ensures sums { IsBestSoFar prepared.now best.new }
{
    let sums = sums_with(prepared, stack, t);
    if best.found && !is_lower(prepared.kind(), &sums, &best.sums) {
        return;
    }
    replace(&mut best.places, stack.places.as_slice(), t);
    best.sums = sums;
    best.found = true;
}

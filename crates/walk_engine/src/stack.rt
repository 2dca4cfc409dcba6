//! The chosen places of a search.

ghost use Rattle.std.specs.Prelude.{◌≡◌, ◌+◌, ◌-◌, ◌<◌, ◌≤◌, ◌+ℤ◌, [], ◌∷◌, ◌++◌, IfOk, MatchOption, length, pos};
ghost use Rattle.std.specs.Vec.{vec_capacity};
ghost use Rattle.pick_problem.specs.Pool.{item_at};
ghost use Rattle.pick_problem.specs.Problem.{Rising, cost_of, value_of, weight_of};

use crate::prepared::Prepared;
use fund_base::Memory;
use std::alloc::Global;

/// The chosen places, rising, with what their value lacks of the least value that is looked for, and with their weight
/// and cost.
#[derive(Drop)]
pub(crate) struct Stack {
    pub(crate) places: Vec<u32>,
    pub(crate) gap: u64,
    pub(crate) weight: u64,
    pub(crate) cost: i128,
}

/// A place after the others, where there is room for it.
#[inline(always)]
pub(crate) fn add(places: &mut Vec<u32>, place: u32)
    requires { length places.old.items < vec_capacity places.old }
    ensures places { places.new.items ≡ places.old.items ++ place ∷ [] }
    ensures room { vec_capacity places.old ≤ vec_capacity places.new }
{
    places.push_reserved(place);
}

impl Stack {
    ghost use Rattle.walk_engine.specs.Stack.{IsStack, with_place};

    /// Nothing chosen yet, with room for every place. The error is out of memory.
    #[tactic(auto, using(crate::proofs::StackLaws::empty_stack))]
    pub(crate) fn new(alloc: Global, prepared: &Prepared) -> Result<Stack, Memory>
        ensures stack { IfOk result (λ s. IsStack prepared.now 0 s) }
        ensures none { IfOk result (λ s. s.places.items ≡ []) }
    {
        let places = Vec::with_capacity(alloc, prepared.count() as usize)?;
        Ok(Stack {
            places,
            gap: prepared.problem().lo(),
            weight: 0,
            cost: 0,
        })
    }

    /// These places chosen, which rise below the next one and bring at most the least value, with room for every place.
    /// The error is out of memory.
    #[tactic(auto, using(crate::proofs::RestoreLaws::stack_of))]
    pub(crate) fn of(
        alloc: Global,
        prepared: &Prepared,
        places: &[u32],
        next: u32,
    ) -> Result<Stack, Memory>
        requires within { next ≤ length prepared.now.items }
        requires rising { Rising next 0 places.now }
        requires low { value_of prepared.now places.now ≤ prepared.now.lo }
        ensures stack { IfOk result (λ s. IsStack prepared.now next s) }
        ensures places { IfOk result (λ s. s.places.items ≡ places.now) }
    {
        let problem = prepared.problem();
        let mut held = Vec::with_capacity(alloc, prepared.count() as usize)?;
        held.extend_from_slice(places)?;
        Ok(Stack {
            places: held,
            gap: problem.lo() - problem.value(places) as u64,
            weight: problem.weight(places),
            cost: problem.cost(places),
        })
    }

    /// What the chosen places weigh with one more, in weight units.
    #[inline(always)]
    pub(crate) fn weight_with(&self, prepared: &Prepared, t: u32) -> u64
        requires below { t < length prepared.now.items }
        requires stack { IsStack prepared.now t self.now }
        ensures { result ≡ weight_of prepared.now (with_place self.now t) }
    {
        self.weight + prepared.item(t).weight
    }

    /// What the chosen places waste with one more, in satoshi: their cost, and what their value is above the least
    /// value.
    #[inline(always)]
    pub(crate) fn waste_with(&self, prepared: &Prepared, t: u32) -> i128
        requires below { t < length prepared.now.items }
        requires stack { IsStack prepared.now t self.now }
        ensures { result ≡ cost_of prepared.now (with_place self.now t)
            +ℤ pos (value_of prepared.now (with_place self.now t) - prepared.now.lo) }
    {
        let item = prepared.item(t);
        self.cost + i128::from(item.cost) + i128::from(item.value.saturating_sub(self.gap))
    }

    /// A place is chosen, which is after the others; its value is at most the gap.
    #[inline(always)]
    pub(crate) fn choose(&mut self, prepared: &Prepared, t: u32)
        requires below { t < length prepared.now.items }
        requires stack { IsStack prepared.now t self.old }
        requires low { (item_at prepared.now.items t).value ≤ self.old.gap }
        ensures places { self.new.places.items ≡ with_place self.old t }
        ensures stack { IsStack prepared.now (t + 1) self.new }
    {
        let item = prepared.item(t);
        self.gap -= item.value;
        self.weight += item.weight;
        self.cost += i128::from(item.cost);
        add(&mut self.places, t);
    }

    /// The last chosen place is dropped, if there is one.
    #[inline(always)]
    pub(crate) fn drop_last(&mut self, prepared: &Prepared, next: u32) -> Option<u32>
        requires within { next ≤ length prepared.now.items }
        requires stack { IsStack prepared.now next self.old }
        ensures none { MatchOption result (self.old.places.items ≡ [])
            (λ j. self.old.places.items ≡ self.new.places.items ++ j ∷ []) }
        ensures less { MatchOption result (self.new.places.items ≡ []) (λ j. j < next) }
        ensures stack { MatchOption result (IsStack prepared.now (length prepared.now.items) self.new)
            (λ j. IsStack prepared.now j self.new) }
    {
        let j = self.places.pop()?;
        let item = prepared.item(j);
        self.gap += item.value;
        self.weight -= item.weight;
        self.cost -= i128::from(item.cost);
        Some(j)
    }
}

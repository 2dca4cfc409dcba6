//! The chosen places of a search.

ghost use Rattle.std.specs.Prelude.{◌≡◌, ◌+◌, ◌<◌, ◌≤◌, [], ◌∷◌, ◌++◌, IfOk, MatchOption, length};
ghost use Rattle.std.specs.Vec.{vec_capacity};

use crate::prepared::Prepared;
use crate::sums::Sums;
use fund_base::Memory;
use std::alloc::Global;

/// The chosen places, rising, with their sums.
#[derive(Drop)]
pub(crate) struct Stack {
    pub(crate) places: Vec<u32>,
    pub(crate) sums: Sums,
}

/// A place after the others, where there is room for it.
#[inline(always)]
pub(crate) fn add(places: &mut Vec<u32>, place: u32)
    requires { length places.old.items < vec_capacity places.old }
    ensures places { places.new.items ≡ places.old.items ++ place ∷ [] }
    ensures room { vec_capacity places.old ≤ vec_capacity places.new }
{
    places.push_reserved(place);
}

impl Stack {
    ghost use Rattle.wide_search.specs.Stack.{AreSums, IsStack, with_place};

    /// Nothing chosen yet, with room for every place. The error is out of memory.
    #[tactic(auto, using(crate::proofs::StackLaws::empty_stack))]
    pub(crate) fn new(alloc: Global, prepared: &Prepared) -> Result<Stack, Memory>
        ensures stack { IfOk result (λ s. IsStack prepared.now 0 s) }
        ensures none { IfOk result (λ s. s.places.items ≡ []) }
    {
        let places = Vec::with_capacity(alloc, prepared.count() as usize)?;
        let sums = Sums {
            value: 0,
            weight: 0,
            cost: 0,
        };
        Ok(Stack { places, sums })
    }

    /// The sums of the chosen places with one more.
    #[inline(always)]
    pub(crate) fn sums_with(&self, prepared: &Prepared, t: u32) -> Sums
        requires below { t < length prepared.now.items }
        requires stack { IsStack prepared.now t self.now }
        ensures { AreSums prepared.now (with_place self.now t) result }
    {
        let item = prepared.item(t);
        Sums {
            value: self.sums.value + u128::from(item.value),
            weight: self.sums.weight + item.weight,
            cost: self.sums.cost + i128::from(item.cost),
        }
    }

    /// A place is chosen, for which there is room; with it the chosen places have these sums.
    #[inline(always)]
    pub(crate) fn choose(&mut self, t: u32, sums: &Sums)
        requires { length self.old.places.items < vec_capacity self.old.places }
        ensures places { self.new.places.items ≡ with_place self.old t }
        ensures sums { self.new.sums ≡ sums.now }
        ensures room { vec_capacity self.old.places ≤ vec_capacity self.new.places }
    {
        self.sums = *sums;
        add(&mut self.places, t);
    }

    /// The last chosen place is dropped, if there is one.
    #[inline(always)]
    pub(crate) fn drop_last(&mut self, prepared: &Prepared, next: u32) -> Option<u32>
        requires within { next ≤ length prepared.now.items }
        requires stack { IsStack prepared.now next self.old }
        ensures none { MatchOption result (self.old.places.items ≡ [])
            (λ j. self.old.places.items ≡ self.new.places.items ++ j ∷ []) }
        ensures less { MatchOption result (self.new.places.items ≡ []) (λ j. j < next) }
        ensures stack { MatchOption result (IsStack prepared.now (length prepared.now.items) self.new)
            (λ j. IsStack prepared.now j self.new) }
    {
        let j = self.places.pop()?;
        let item = prepared.item(j);
        self.sums = Sums {
            value: self.sums.value - u128::from(item.value),
            weight: self.sums.weight - item.weight,
            cost: self.sums.cost - i128::from(item.cost),
        };
        Some(j)
    }
}

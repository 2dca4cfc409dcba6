//! The places that a running draw keeps.

ghost use Rattle.std.specs.Prelude.{◌≡◌, ◌+◌, ◌<◌, ◌∷◌, [], OnOk, length};
ghost use Rattle.pick_problem.specs.Problem.{PlainProblem};
ghost use Rattle.random_draw.specs.Draw.{kept_with, one_less, trimmed, with_place};

use fund_base::{Memory, Places};
use pick_problem::Problem;
use std::alloc::Global;
use std::collections::BinaryHeap;

/// Places that are kept, the greatest at hand, with their value in satoshi and their weight in weight units. As a
/// pool's values fall, the greatest place is the least valuable one, and on a tie the greater place.
#[derive(Drop)]
pub(crate) struct Kept {
    heap: BinaryHeap<u32, Global>,
    value: u128,
    weight: u64,
}

impl Kept {
    ghost use Rattle.random_draw.specs.KeptPlaces.{AreFresh, AreKeptPlaces, places_of};

    /// None.
    pub(crate) fn new(alloc: Global) -> Kept
        ensures places { places_of result ≡ [] }
        ensures kept { (p : PlainProblem) → AreKeptPlaces p result }
    {
        Kept {
            heap: BinaryHeap::new(alloc),
            value: 0,
            weight: 0,
        }
    }

    /// Their value, in satoshi.
    pub(crate) fn value(&self) -> u128
        ensures { result ≡ self.now.value }
    {
        self.value
    }

    /// The places, rising.
    pub(crate) fn into_places(self, problem: &Problem) -> Places
        requires { AreKeptPlaces problem.now self }
        ensures { result ≡ places_of self }
    {
        Places::new(self.heap.into_sorted_vec())
    }

    /// One place more, which isn't kept yet.
    fn push(&mut self, problem: &Problem, place: u32) -> Result<(), Memory>
        requires kept { AreKeptPlaces problem.now self.old }
        requires fresh { AreFresh problem.now (places_of self.old) (place ∷ []) }
        ensures places { OnOk result (places_of self.new ≡ with_place place (places_of self.old)) }
        ensures kept { OnOk result (AreKeptPlaces problem.now self.new) }
    {
        let item = &problem.items()[place as usize];
        self.heap.push(place)?;
        self.value += u128::from(item.value);
        self.weight += item.weight;
        Ok(())
    }

    /// Drops the least valuable place, on a tie the greater one.
    fn drop_one(&mut self, problem: &Problem)
        requires kept { AreKeptPlaces problem.now self.old }
        requires some { 0 < self.old.weight }
        ensures places { places_of self.new ≡ one_less problem.now (places_of self.old) }
        ensures fewer { length (places_of self.new) + 1 ≡ length (places_of self.old) }
        ensures kept { AreKeptPlaces problem.now self.new }
    {
        if let Some(place) = self.heap.pop() {
            let item = &problem.items()[place as usize];
            self.value -= u128::from(item.value);
            self.weight -= item.weight;
        }
    }

    /// Drops the least valuable place while they weigh more than the problem's limit.
    fn trim(&mut self, problem: &Problem)
        requires { AreKeptPlaces problem.now self.old }
        ensures places { places_of self.new ≡ trimmed problem.now (length (places_of self.old)) (places_of self.old) }
        ensures kept { AreKeptPlaces problem.now self.new }
    {
        let limit = problem.most_weight();
        while self.weight > limit {
            self.drop_one(problem);
        }
    }

    /// Adds a place, which isn't kept yet, and drops the least valuable one while they weigh more than the problem's
    /// limit.
    pub(crate) fn add(&mut self, problem: &Problem, place: u32) -> Result<(), Memory>
        requires kept { AreKeptPlaces problem.now self.old }
        requires fresh { AreFresh problem.now (places_of self.old) (place ∷ []) }
        ensures places { OnOk result (places_of self.new ≡ kept_with problem.now (places_of self.old) place) }
        ensures kept { OnOk result (AreKeptPlaces problem.now self.new) }
    {
        self.push(problem, place)?;
        self.trim(problem);
        Ok(())
    }
}

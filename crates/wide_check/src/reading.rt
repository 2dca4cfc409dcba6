//! Where the reading of a wide log stands, with the sums of the chosen places, which each move keeps.

ghost use Rattle.std.specs.Prelude.{◌≡◌, ◌++◌, ◌<◌, ◌≤◌, [], ◌∷◌, false, length, vec_capacity, IfOk};
ghost use Rattle.wide_check.specs.Reads.{IsReading, state_of};
ghost use Rattle.wide_check.specs.WideSteps.{after, left, root};
ghost use Rattle.wide_check.specs.declared.token.WideToken.TheVariants.{Enter, Pass};

use crate::claim::Claim;
use fund_base::Memory;
use std::alloc::Global;

/// The chosen places with their sums, the next place, whether the node was just entered by the first half of an I, whether
/// the tree is closed, and whether the answer was met.
#[derive(Drop)]
pub struct Reading {
    /// The chosen places, rising.
    pub places: Vec<u32>,
    /// Their value, in satoshi.
    pub value: u128,
    /// Their weight, in weight units.
    pub weight: u64,
    /// Their cost, in satoshi.
    pub cost: i128,
    /// The next place.
    pub next: u32,
    /// Whether the node was just entered by the first half of an I.
    pub entered: bool,
    /// Whether the tree is closed.
    pub closed: bool,
    /// Whether the answer was met.
    pub met: bool,
}

/// Puts a place after the others, for which there is room.
#[inline(always)]
fn put(places: &mut Vec<u32>, place: u32)
    requires { length places.old.items < vec_capacity places.old }
    ensures places { places.new.items ≡ places.old.items ++ place ∷ [] }
    ensures room { vec_capacity places.old ≤ vec_capacity places.new }
{
    if let Err(_) = places.push(place) {
        unreachable!()
    }
}

impl Reading {
    /// The root, with room for all places.
    #[tactic(auto, using(crate::proofs::MoveLaws::at_root))]
    pub fn begin(alloc: Global, claim: &Claim) -> Result<Reading, Memory>
        ensures state { IfOk result (λ r. state_of r ≡ root) }
        ensures reading { IfOk result (λ r. IsReading claim.now.problem r) }
    {
        Ok(Reading {
            places: Vec::with_capacity(alloc, claim.count() as usize)?,
            value: 0,
            weight: 0,
            cost: 0,
            next: 0,
            entered: false,
            closed: false,
            met: false,
        })
    }

    /// The next place is chosen.
    #[tactic(auto, using(crate::proofs::MoveLaws::has_room, crate::proofs::MoveLaws::entered))]
    #[inline(always)]
    pub fn enter(&mut self, claim: &Claim)
        requires below { self.old.next < length claim.now.problem.items }
        requires reading { IsReading claim.now.problem self.old }
        ensures state { state_of self.new ≡ after claim.now.problem claim.now.answer (state_of self.old) Enter }
        ensures reading { IsReading claim.now.problem self.new }
    {
        let item = claim.item(self.next);
        put(&mut self.places, self.next);
        self.value += u128::from(item.value);
        self.weight += item.weight;
        self.cost += i128::from(item.cost);
        self.next += 1;
        self.entered = true;
    }

    /// The run of twins of the place before is passed.
    #[tactic(auto, using(crate::proofs::MoveLaws::passed))]
    #[inline(always)]
    pub fn pass(&mut self, claim: &Claim)
        requires behind { 0 < self.old.next }
        requires below { self.old.next < length claim.now.problem.items }
        requires reading { IsReading claim.now.problem self.old }
        ensures state { state_of self.new ≡ after claim.now.problem claim.now.answer (state_of self.old) Pass }
        ensures reading { IsReading claim.now.problem self.new }
    {
        self.next = claim.run_end(self.next - 1);
        self.entered = false;
    }

    /// The node is closed: what follows is the node without the last chosen place, or the end of the tree.
    #[inline(always)]
    pub fn leave(&mut self, claim: &Claim)
        requires open { self.old.closed ≡ false }
        requires reading { IsReading claim.now.problem self.old }
        ensures state { state_of self.new ≡ left claim.now.problem self.old.met self.old.places.items }
        ensures reading { IsReading claim.now.problem self.new }
    {
        self.entered = false;
        match self.places.pop() {
            None => {
                self.next = claim.count();
                self.closed = true;
            }
            Some(place) => {
                let item = claim.item(place);
                self.value -= u128::from(item.value);
                self.weight -= item.weight;
                self.cost -= i128::from(item.cost);
                self.next = place + 1;
            }
        }
    }
}

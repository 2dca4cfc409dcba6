//! Results of steps, and which of them is taken.

ghost use Rattle.std.specs.Prelude.{◌≡◌, [], IfOk, MatchOption, Some, length};
ghost use Rattle.pick_problem.specs.Admissible.{IsAdmissible};
ghost use Rattle.pick_problem.specs.Problem.{Rising};
ghost use Rattle.search_run.specs.Found.{beats, coins_at, found_at, taken, waste_by};

use crate::step::Step;
use closing_log::Stage;
use fund_base::{Memory, Places};
use pick_problem::{Ending, Kind, waste};
use std::alloc::Global;
use std::marker::Model;

/// A result of a step: an admissible selection.
#[derive(Drop)]
pub struct Found {
    /// The row of the ladder.
    pub row: u8,
    /// The stage of that row.
    pub stage: Stage,
    /// Its places of the pool, rising.
    pub places: Places,
    /// The cost of its coins and the excess or what making and spending the change costs, in satoshi; without that of
    /// coins that each payment has.
    pub waste: i128,
    /// How many coins it has.
    pub coins: u32,
}

impl Model for Found {
    ghost use Rattle.search_run.specs.Found.{PlainFound};

    ghost Value = { PlainFound };

    ghost view = { λ f. record { row = f.row; stage = f.stage; places = f.places; waste = f.waste; coins = f.coins } };
}

/// How many coins stand at these places, which rise.
fn coins(step: &Step, places: &[u32]) -> u32
    requires { Rising (length step.now.problem.items) 0 places.now }
    ensures { result ≡ coins_at step.now places.now }
{
    let sizes = step.sizes();
    let mut sum = 0;
    for place in places {
        sum += u32::from(sizes[*place as usize]);
    }
    sum
}

/// The waste of these places: their cost, and what their value is above `lo`, or what making and spending the change
/// costs.
fn waste_at(step: &Step, places: &[u32]) -> i128
    requires { IsAdmissible step.now.problem places.now }
    ensures { result ≡ waste_by step.now.problem.kind step.now places.now }
{
    let problem = step.problem();
    let cost = problem.cost(places);
    match problem.kind() {
        Kind::Changeless => waste(
            cost,
            Ending::Excess(problem.value(places) - u128::from(problem.lo())),
        ),
        Kind::Lean => waste(cost, Ending::Change(step.ending())),
    }
}

impl Found {
    /// These places, which are admissible for its problem, as a result of a step. The error is out of memory.
    pub fn new(alloc: Global, step: &Step, places: &[u32]) -> Result<Found, Memory>
        requires { IsAdmissible step.now.problem places.now }
        ensures { IfOk result (λ f. f ≡ found_at step.now places.now) }
    {
        Ok(Found {
            row: step.row(),
            stage: step.stage(),
            places: Places::new(Vec::from_slice(alloc, places)?),
            waste: waste_at(step, places),
            coins: coins(step, places),
        })
    }

    /// A copy. The error is out of memory.
    pub fn copy(&self, alloc: Global) -> Result<Found, Memory>
        ensures { IfOk result (λ f. f ≡ self.now) }
    {
        Ok(Found {
            row: self.row,
            stage: self.stage,
            places: self.places.copy(alloc)?,
            waste: self.waste,
            coins: self.coins,
        })
    }

    /// Whether it has less waste than the other, or as much and more coins.
    pub fn beats(&self, other: &Found) -> bool
        ensures { result ≡ beats self.now other.now }
    {
        self.waste < other.waste || (self.waste == other.waste && self.coins > other.coins)
    }
}

/// The one of these results, in their order, that is taken: that of least waste, of these that of most coins, of these
/// the first. `None` where there are none.
pub fn choose(found: &[Found]) -> Option<&Found>
    ensures { MatchOption result (found.now ≡ []) (λ f. taken found.now ≡ Some f.now) }
{
    let mut best = found.first()?;
    for f in found {
        if f.beats(best) {
            best = f;
        }
    }
    Some(best)
}

//! What lists of places come to, each summed from nothing.

ghost use Rattle.std.specs.Prelude.{◌≡◌, ◌↔◌, ◌≤◌, ◌≤ℤ◌, IsTrue, length, pos, neg_ℤ};
ghost use Rattle.pick_problem.specs.Admissible.{IsAdmissible, NeedsEach};
ghost use Rattle.pick_problem.specs.Problem.{Rising, cost_of, value_of, weight_of};
ghost use Rattle.pick_problem.specs.Score.{score_of};

use crate::item::Kind;
use crate::problem::Problem;
use crate::score::Score;

impl Problem {
    /// Whether the places rise, and are below the number of items.
    pub fn are_places(&self, places: &[u32]) -> bool
        ensures { IsTrue result ↔ Rising (length self.now.items) 0 places.now }
    {
        let count = self.count();
        let mut least = 0;
        let mut rest = places;
        'rising: while let [place, after @ ..] = rest {
            if *place < least || *place >= count {
                return false;
            }
            least = *place + 1;
            rest = after;
        }
        true
    }

    /// The value of the items at these places, in satoshi. Places rise, and are below the number of items; so in the
    /// other calls that take places.
    #[tactic(auto, using(crate::proofs::SumLaws::place_below, crate::proofs::SumLaws::places_few, crate::proofs::SumLaws::value_more))]
    pub fn value(&self, places: &[u32]) -> u128
        requires { Rising (length self.now.items) 0 places.now }
        ensures value { result ≡ value_of self.now places.now }
        ensures most { result ≤ 2_100_000_000_000_000_000_000 }
    {
        let items = self.items();
        let mut sum = 0;
        for place in places {
            sum += u128::from(items[*place as usize].value);
        }
        sum
    }

    /// The weight of the items at these places, in weight units.
    #[tactic(auto, using(crate::proofs::SumLaws::place_below, crate::proofs::SumLaws::places_few, crate::proofs::SumLaws::weight_more))]
    pub fn weight(&self, places: &[u32]) -> u64
        requires { Rising (length self.now.items) 0 places.now }
        ensures weight { result ≡ weight_of self.now places.now }
        ensures most { result ≤ 400_000_000_000 }
    {
        let items = self.items();
        let mut sum = 0;
        for place in places {
            sum += items[*place as usize].weight;
        }
        sum
    }

    /// The cost of the items at these places, in satoshi.
    #[tactic(auto, using(crate::proofs::SumLaws::place_below, crate::proofs::SumLaws::places_few, crate::proofs::SumLaws::cost_more))]
    pub fn cost(&self, places: &[u32]) -> i128
        requires { Rising (length self.now.items) 0 places.now }
        ensures cost { result ≡ cost_of self.now places.now }
        ensures low { neg_ℤ (pos 100_000_000_000_000_000) ≤ℤ result }
        ensures high { result ≤ℤ pos 10_000_000_000_000_000_000_000 }
    {
        let items = self.items();
        let mut sum = 0;
        for place in places {
            sum += i128::from(items[*place as usize].cost);
        }
        sum
    }

    /// Whether without any one of its places the list is below `lo`.
    #[tactic(auto, using(crate::proofs::SumLaws::place_below))]
    fn needs_each(&self, places: &[u32]) -> bool
        requires { Rising (length self.now.items) 0 places.now }
        ensures { IsTrue result ↔ NeedsEach self.now places.now }
    {
        let items = self.items();
        let value = self.value(places);
        let lo = u128::from(self.lo());
        for place in places {
            if value >= lo + u128::from(items[*place as usize].value) {
                return false;
            }
        }
        true
    }

    /// Whether the places are a selection that the problem admits: there is one, their value is at least `lo`, their
    /// weight within the limit, and for [`Kind::Changeless`] their value is at most `hi` and below `lo` without any
    /// one of them.
    pub fn admissible(&self, places: &[u32]) -> bool
        requires { Rising (length self.now.items) 0 places.now }
        ensures { IsTrue result ↔ IsAdmissible self.now places.now }
    {
        let value = self.value(places);
        if places.is_empty()
            || value < u128::from(self.lo())
            || self.weight(places) > self.most_weight()
        {
            return false;
        }
        match self.kind() {
            Kind::Changeless => value <= u128::from(self.hi()) && self.needs_each(places),
            Kind::Lean => true,
        }
    }

    /// The score of the places. For [`Kind::Changeless`] the first number is the waste, their cost and what their
    /// value is above `lo`, in satoshi, and the second is 0; for [`Kind::Lean`] their weight in weight units and
    /// their value in satoshi.
    pub fn score(&self, places: &[u32]) -> Score
        requires { Rising (length self.now.items) 0 places.now }
        ensures { result ≡ score_of self.now places.now }
    {
        match self.kind() {
            Kind::Changeless => Score {
                first: self.cost(places) + self.value(places) as i128 - i128::from(self.lo()),
                second: 0,
            },
            Kind::Lean => Score {
                first: i128::from(self.weight(places)),
                second: self.value(places),
            },
        }
    }
}

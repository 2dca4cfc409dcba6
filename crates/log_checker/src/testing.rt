//! What is asked of a node before it may be closed. Each question is answered from the sums that the reading keeps;
//! none but the one for the answer itself goes through the chosen places. What only A asks is never inlined,
//! so that the loop over letters stays small.

ghost use Rattle.std.specs.Prelude.{◌≡◌, ◌≢◌, ◌↔◌, ◌<◌, ◌≤◌, ◌+◌, ◌-◌, ◌*◌, ◌||◌, pos, ◌+ℤ◌, IsSomeAnd, IsTrue, Some, bytes_eq, length, slice_get};
ghost use Rattle.log_checker.specs.Reads.{IsReading, is_answer};
ghost use Rattle.pick_problem.specs.Admissible.{IsAdmissible, NeedsEach};
ghost use Rattle.pick_problem.specs.Pool.{item_at};
ghost use Rattle.pick_problem.specs.Problem.{cost_of, value_of, weight_of};
ghost use Rattle.pick_problem.specs.Score.{score_of};
ghost use Rattle.pick_problem.specs.Steps.{Closes, IsAllowedAt, IsNoBetterThan, needed};
ghost use Rattle.pick_problem.specs.declared.token.Reason.TheVariants.{Heavier, Worse, Far, NoRoom};
ghost use Rattle.pick_problem.specs.declared.token.Token.TheVariants.{Pass};

use crate::claim::Claim;
use crate::reading::Reading;
use pick_problem::{Kind, Reason, Score};

/// Whether two lists of places are the same. They are compared from their ends, so that no log can make each letter A
/// cost a whole comparison. Two selections of one length that end in the same places differ before these. A reading comes
/// from one to the other only by leaving those places and choosing them anew. So n letters cost about n log n steps at
/// most.
fn are_same(one: &[u32], other: &[u32]) -> bool
    ensures { result ≡ bytes_eq one.now other.now }
{
    if one.len() != other.len() {
        return false;
    }
    for place in (0..one.len()).rev() {
        if one[place] != other[place] {
            return false;
        }
    }
    true
}

impl Reading {
    /// Whether the chosen places are the answer.
    #[inline(never)]
    pub fn is_answer(&self, claim: &Claim) -> bool
        ensures { result ≡ is_answer claim.now.answer self.now.places.items }
    {
        match claim.answer() {
            None => false,
            Some(best) => are_same(self.places.as_slice(), best.as_slice()),
        }
    }

    /// The score of the chosen places.
    pub fn score(&self, claim: &Claim) -> Score
        requires { IsReading claim.now.problem self.now }
        ensures { result ≡ score_of claim.now.problem self.now.places.items }
    {
        match claim.kind() {
            Kind::Changeless => Score {
                first: self.cost + self.value as i128 - i128::from(claim.lo()),
                second: 0,
            },
            Kind::Lean => Score {
                first: i128::from(self.weight),
                second: self.value,
            },
        }
    }

    /// Whether each chosen place is needed: the last one has the least value.
    fn needs_each(&self, claim: &Claim) -> bool
        requires { IsReading claim.now.problem self.now }
        ensures { IsTrue result ↔ NeedsEach claim.now.problem self.now.places.items }
    {
        match self.places.as_slice().last() {
            None => true,
            Some(place) => {
                let item = claim.item(*place);
                self.value < u128::from(claim.lo()) + u128::from(item.value)
            }
        }
    }

    /// Whether the chosen places are an admissible selection.
    #[tactic(auto, using(crate::proofs::TestLaws::admissible_changeless, crate::proofs::TestLaws::admissible_lean, crate::proofs::TestLaws::needs_of, crate::proofs::MoveLaws::rises))]
    #[inline(never)]
    pub fn is_admissible(&self, claim: &Claim) -> bool
        requires { IsReading claim.now.problem self.now }
        ensures { IsTrue result ↔ IsAdmissible claim.now.problem self.now.places.items }
    {
        if self.value < u128::from(claim.lo()) || self.weight > claim.most_weight() {
            return false;
        }
        match claim.kind() {
            Kind::Changeless => self.value <= u128::from(claim.hi()) && self.needs_each(claim),
            Kind::Lean => true,
        }
    }

    /// Whether the chosen places are no better than the answer, given whether that is met with them.
    #[inline(never)]
    pub fn is_no_better(&self, claim: &Claim, met: bool) -> bool
        requires reading { IsReading claim.now.problem self.now }
        requires met { met ≡ (self.now.met || is_answer claim.now.answer self.now.places.items) }
        ensures { IsTrue result ↔ IsSomeAnd claim.now.answer (λ best. IsNoBetterThan claim.now.problem self.now.met self.now.places.items best) }
    {
        match claim.score() {
            None => false,
            Some(score) => {
                let own = self.score(claim);
                score.is_below(&own) || (score.is_same(&own) && met)
            }
        }
    }

    /// Whether the last chosen place is this one.
    #[inline(always)]
    fn ends_with(&self, place: u32) -> bool
        ensures { IsTrue result ↔ (slice_get self.now.places.items (length self.now.places.items - 1) ≡ Some place) }
    {
        match self.places.as_slice().last() {
            None => false,
            Some(last) => *last == place,
        }
    }

    /// Whether T may stand at the node.
    #[inline(always)]
    pub fn is_behind_twin(&self, claim: &Claim) -> bool
        requires { IsReading claim.now.problem self.now }
        ensures { IsTrue result ↔ IsAllowedAt claim.now.problem claim.now.answer self.now.met self.now.places.items self.now.next Pass }
    {
        let t = self.next;
        if t == 0 || t >= claim.count() {
            return false;
        }
        !self.ends_with(t - 1) && claim.run_end(t - 1) > t
    }

    /// Whether one more item is needed, and makes it too heavy.
    #[inline(always)]
    fn has_no_room(&self, claim: &Claim) -> bool
        requires { IsReading claim.now.problem self.now }
        ensures { IsTrue result ↔ Closes claim.now.problem claim.now.answer self.now.met self.now.places.items self.now.next NoRoom }
    {
        if self.value >= u128::from(claim.lo()) {
            return false;
        }
        match claim.least_weight(self.next) {
            None => false,
            Some(least) => self.weight + least > claim.most_weight(),
        }
    }

    /// What it wastes at least: its cost, and what its value is above `lo`.
    #[inline(always)]
    fn waste(&self, claim: &Claim) -> i128
        requires { IsReading claim.now.problem self.now }
        ensures { result ≡ cost_of claim.now.problem self.now.places.items +ℤ pos (value_of claim.now.problem self.now.places.items - claim.now.problem.lo) }
    {
        let excess = self.value.saturating_sub(u128::from(claim.lo()));
        self.cost + excess as i128
    }

    /// Whether it wastes more than the answer, or as much with the answer met before.
    #[inline(always)]
    fn is_worse(&self, claim: &Claim) -> bool
        requires { IsReading claim.now.problem self.now }
        ensures { IsTrue result ↔ Closes claim.now.problem claim.now.answer self.now.met self.now.places.items self.now.next Worse }
    {
        if claim.kind() == Kind::Lean || !claim.plain_costs() {
            return false;
        }
        match claim.score() {
            None => false,
            Some(score) => {
                let waste = self.waste(claim);
                waste > score.first || (waste == score.first && self.met)
            }
        }
    }

    /// Whether it is heavier than the answer.
    #[inline(always)]
    fn is_heavier(&self, claim: &Claim) -> bool
        requires { IsReading claim.now.problem self.now }
        ensures { IsTrue result ↔ Closes claim.now.problem claim.now.answer self.now.met self.now.places.items self.now.next Heavier }
    {
        if claim.kind() == Kind::Changeless {
            return false;
        }
        match claim.score() {
            None => false,
            Some(score) => i128::from(self.weight) > score.first,
        }
    }

    /// What it weighs with as many items of the least weight as are needed at least.
    #[tactic(auto, using(crate::proofs::TestLaws::needed_is))]
    #[inline(always)]
    fn weight_needed(&self, claim: &Claim, least: u64) -> i128
        requires reading { IsReading claim.now.problem self.now }
        requires low { value_of claim.now.problem self.now.places.items < claim.now.problem.lo }
        requires below { self.now.next < length claim.now.problem.items }
        requires small { least ≤ 40_000_000 }
        ensures { result ≡ pos (weight_of claim.now.problem self.now.places.items + needed (claim.now.problem.lo - value_of claim.now.problem self.now.places.items) (item_at claim.now.problem.items self.now.next).value * least) }
    {
        let missing = (u128::from(claim.lo()) - self.value) as u64;
        let count = missing.div_ceil(claim.item(self.next).value);
        (u128::from(self.weight) + u128::from(count) * u128::from(least)) as i128
    }

    /// Whether it is heavier than the answer with as many of the lightest items as are needed at least.
    #[inline(always)]
    fn is_far(&self, claim: &Claim) -> bool
        requires { IsReading claim.now.problem self.now }
        ensures { IsTrue result ↔ Closes claim.now.problem claim.now.answer self.now.met self.now.places.items self.now.next Far }
    {
        let lo = u128::from(claim.lo());
        if claim.kind() == Kind::Changeless || self.value >= lo {
            return false;
        }
        let Some(least) = claim.least_weight(self.next) else {
            return false;
        };
        let Some(score) = claim.score() else {
            return false;
        };
        self.weight_needed(claim, least) > score.first
    }

    /// Whether the node may be closed for a reason; for a hit this doesn't say.
    #[inline(always)]
    pub fn closes(&self, claim: &Claim, reason: Reason) -> bool
        requires reading { IsReading claim.now.problem self.now }
        requires other { reason ≢ Reason.Hit }
        ensures { IsTrue result ↔ Closes claim.now.problem claim.now.answer self.now.met self.now.places.items self.now.next reason }
    {
        match reason {
            Reason::Short => { self.value + claim.later_value(self.next) < u128::from(claim.lo()) }
            Reason::Over => {
                claim.kind() == Kind::Changeless && self.value > u128::from(claim.hi())
            }
            Reason::Heavy => self.weight > claim.most_weight(),
            Reason::NoRoom => self.has_no_room(claim),
            Reason::Worse => self.is_worse(claim),
            Reason::Heavier => self.is_heavier(claim),
            Reason::Far => self.is_far(claim),
            Reason::Hit => false,
        }
    }
}

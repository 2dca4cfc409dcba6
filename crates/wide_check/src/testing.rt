//! What is asked of a node before its token is taken. Each question is answered from the sums that the reading keeps;
//! none but the one for the answer itself goes through the chosen places. What only B asks is never inlined, so that the
//! loop over letters stays small.

ghost use Rattle.std.specs.Prelude.{◌≡◌, ◌↔◌, ◌-◌, ◌||◌, IsSomeAnd, IsTrue, Some, bytes_eq, length, slice_get};
ghost use Rattle.wide_check.specs.Reads.{IsReading, is_answer};
ghost use Rattle.wide_check.specs.Wide.{IsWide, waste_of};
ghost use Rattle.wide_check.specs.WideSteps.{Closes, IsDue, IsNoBetterThan, StandsAt, Suits, least_waste};
ghost use Rattle.wide_check.specs.declared.token.WideReason.TheVariants.{Wasteful};
ghost use Rattle.wide_check.specs.declared.token.WideToken.TheVariants.{Close, Pass};

use crate::claim::Claim;
use crate::reading::Reading;
use crate::token::WideReason;

/// Whether two lists of places are the same. They are compared from their ends, so that no log can make each letter B
/// cost a whole comparison. Two selections of one length that end in the same places differ before these. A reading comes
/// from one to the other only by leaving those places and choosing them anew. So n letters cost about n log n steps at
/// most.
fn are_same(one: &[u32], other: &[u32]) -> bool
    ensures { result ≡ bytes_eq one.now other.now }
{
    if one.len() != other.len() {
        return false;
    }
    for place in (0..one.len()).rev() {
        if one[place] != other[place] {
            return false;
        }
    }
    true
}

impl Reading {
    /// Whether the chosen places are the answer.
    #[inline(never)]
    pub fn is_answer(&self, claim: &Claim) -> bool
        ensures { result ≡ is_answer claim.now.answer self.now.places.items }
    {
        match claim.answer() {
            None => false,
            Some(best) => are_same(self.places.as_slice(), best.as_slice()),
        }
    }

    /// Whether the chosen places are a selection.
    #[tactic(auto, using(crate::proofs::TestLaws::wide_of, crate::proofs::MoveLaws::rises))]
    #[inline(always)]
    fn is_wide(&self, claim: &Claim) -> bool
        requires { IsReading claim.now.problem self.now }
        ensures { IsTrue result ↔ IsWide claim.now.problem self.now.places.items }
    {
        if self.value < u128::from(claim.lo()) {
            return false;
        }
        if self.value > u128::from(claim.hi()) {
            return false;
        }
        self.weight <= claim.most_weight()
    }

    /// Whether B or V is due: the node was just entered by the first half of an I, and its chosen places are a
    /// selection.
    #[inline(always)]
    pub fn is_due(&self, claim: &Claim) -> bool
        requires { IsReading claim.now.problem self.now }
        ensures { IsTrue result ↔ IsDue claim.now.problem self.now.entered self.now.places.items }
    {
        self.entered && self.is_wide(claim)
    }

    /// What the chosen places waste, in satoshi.
    fn waste(&self, claim: &Claim) -> i128
        requires { IsReading claim.now.problem self.now }
        ensures { result ≡ waste_of claim.now.problem self.now.places.items }
    {
        self.cost + self.value as i128 - i128::from(claim.lo())
    }

    /// Whether the chosen places are no better than the answer, given whether that is met with them.
    #[inline(never)]
    pub fn is_no_better(&self, claim: &Claim, met: bool) -> bool
        requires reading { IsReading claim.now.problem self.now }
        requires met { met ≡ (self.now.met || is_answer claim.now.answer self.now.places.items) }
        ensures { IsTrue result ↔ IsSomeAnd claim.now.answer (λ best. IsNoBetterThan claim.now.problem self.now.met self.now.places.items best) }
    {
        match claim.waste() {
            None => false,
            Some(waste) => {
                let own = self.waste(claim);
                own > waste || (own == waste && met)
            }
        }
    }

    /// Whether the last chosen place is this one.
    #[inline(always)]
    fn ends_with(&self, place: u32) -> bool
        ensures { IsTrue result ↔ (slice_get self.now.places.items (length self.now.places.items - 1) ≡ Some place) }
    {
        match self.places.as_slice().last() {
            None => false,
            Some(last) => *last == place,
        }
    }

    /// Whether T may stand at the node, where nothing is due.
    #[inline(always)]
    pub fn is_behind_twin(&self, claim: &Claim) -> bool
        requires { IsReading claim.now.problem self.now }
        ensures { IsTrue result ↔ StandsAt claim.now.problem claim.now.answer self.now.met self.now.places.items self.now.next Pass }
    {
        let t = self.next;
        if t == 0 || t >= claim.count() {
            return false;
        }
        !self.ends_with(t - 1) && claim.run_end(t - 1) > t
    }

    /// What lists below the node waste at least, in satoshi: the cost of the chosen places with all that later ones save,
    /// and what their value is above `lo`.
    #[inline(always)]
    fn least_waste(&self, claim: &Claim) -> i128
        requires { IsReading claim.now.problem self.now }
        ensures { result ≡ least_waste claim.now.problem self.now.places.items self.now.next }
    {
        let excess = self.value.saturating_sub(u128::from(claim.lo()));
        self.cost + claim.savings(self.next) + excess as i128
    }

    /// Whether lists below the node waste more than the answer, or as much with the answer met before.
    #[inline(always)]
    fn is_wasteful(&self, claim: &Claim) -> bool
        requires { IsReading claim.now.problem self.now }
        ensures { IsTrue result ↔ Closes claim.now.problem claim.now.answer self.now.met self.now.places.items self.now.next Wasteful }
    {
        match claim.waste() {
            None => false,
            Some(waste) => {
                let least = self.least_waste(claim);
                least > waste || (least == waste && self.met)
            }
        }
    }

    /// Whether a close for a reason suits what is due: V does anywhere, any other where nothing is.
    #[inline(always)]
    pub fn suits(&self, claim: &Claim, reason: WideReason) -> bool
        requires { IsReading claim.now.problem self.now }
        ensures { IsTrue result ↔ Suits claim.now.problem self.now.entered self.now.places.items (Close reason) }
    {
        match reason {
            WideReason::Wasteful => true,
            WideReason::Short => !self.is_due(claim),
            WideReason::Over => !self.is_due(claim),
            WideReason::Heavy => !self.is_due(claim),
            WideReason::Ended => !self.is_due(claim),
        }
    }

    /// Whether the node may be closed for a reason, whatever is due there.
    #[inline(always)]
    pub fn closes(&self, claim: &Claim, reason: WideReason) -> bool
        requires { IsReading claim.now.problem self.now }
        ensures { IsTrue result ↔ Closes claim.now.problem claim.now.answer self.now.met self.now.places.items self.now.next reason }
    {
        match reason {
            WideReason::Short => self.value + claim.later_value(self.next) < u128::from(claim.lo()),
            WideReason::Over => self.value > u128::from(claim.hi()),
            WideReason::Heavy => self.weight > claim.most_weight(),
            WideReason::Wasteful => self.is_wasteful(claim),
            WideReason::Ended => self.next == claim.count(),
        }
    }
}

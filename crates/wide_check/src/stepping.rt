//! One token at a node: it makes its step where it is allowed, and else says what is wrong.

ghost use Rattle.std.specs.Prelude.{◌≡◌, false};
ghost use Rattle.wide_check.specs.Reads.{IsReading, Steps, fault_at, state_of};
ghost use Rattle.wide_check.specs.declared.token.WideToken.TheVariants.{Close, Enter, Mark, Pass};

use crate::claim::Claim;
use crate::fault::WideFault;
use crate::reading::Reading;
use crate::token::{WideReason, WideToken};

/// What is wrong with a letter. A step gives but the last two, of a token at an open node.
#[derive(Clone, Copy, PartialEq, Eq)]
pub enum Wrong {
    /// It is the letter of no token.
    Unknown,
    /// The tree was closed before it.
    Long,
    /// It isn't allowed there, and is any but B.
    False,
    /// It is a B that isn't allowed there.
    Better,
}

impl Wrong {
    /// The fault of a letter at a place.
    pub fn at(self, place: u64) -> WideFault
        ensures { result ≡ fault_at self place }
    {
        match self {
            Wrong::Unknown => WideFault::UnknownToken(place),
            Wrong::Long => WideFault::TooLong(place),
            Wrong::False => WideFault::ReasonFalse(place),
            Wrong::Better => WideFault::BetterMet(place),
        }
    }
}

impl Reading {
    /// I at the node.
    #[tactic(auto, using(crate::proofs::StandLaws::enter_allowed, crate::proofs::StandLaws::enter_last, crate::proofs::StandLaws::enter_due))]
    #[inline(always)]
    fn try_enter(&mut self, claim: &Claim) -> Result<(), Wrong>
        requires { IsReading claim.now.problem self.old }
        ensures step { Steps claim.now.problem claim.now.answer (state_of self.old) Enter (state_of self.new) result }
        ensures reading { IsReading claim.now.problem self.new }
    {
        if self.next >= claim.count() {
            return Err(Wrong::False);
        }
        if self.is_due(claim) {
            return Err(Wrong::False);
        }
        self.enter(claim);
        Ok(())
    }

    /// T at the node.
    #[tactic(auto, using(crate::proofs::StandLaws::pass_allowed, crate::proofs::StandLaws::pass_not, crate::proofs::StandLaws::pass_due))]
    #[inline(always)]
    fn try_pass(&mut self, claim: &Claim) -> Result<(), Wrong>
        requires { IsReading claim.now.problem self.old }
        ensures step { Steps claim.now.problem claim.now.answer (state_of self.old) Pass (state_of self.new) result }
        ensures reading { IsReading claim.now.problem self.new }
    {
        if !self.is_behind_twin(claim) {
            return Err(Wrong::False);
        }
        if self.is_due(claim) {
            return Err(Wrong::False);
        }
        self.pass(claim);
        Ok(())
    }

    /// B at the node. Only it goes through the chosen places, once, to see whether they are the answer.
    #[tactic(auto, using(crate::proofs::StandLaws::met_is, crate::proofs::StandLaws::mark_allowed, crate::proofs::StandLaws::mark_not_due, crate::proofs::StandLaws::mark_better))]
    #[inline(always)]
    fn try_mark(&mut self, claim: &Claim) -> Result<(), Wrong>
        requires { IsReading claim.now.problem self.old }
        ensures step { Steps claim.now.problem claim.now.answer (state_of self.old) Mark (state_of self.new) result }
        ensures reading { IsReading claim.now.problem self.new }
    {
        if !self.is_due(claim) {
            return Err(Wrong::Better);
        }
        let met = self.met || self.is_answer(claim);
        if !self.is_no_better(claim, met) {
            return Err(Wrong::Better);
        }
        self.met = met;
        self.entered = false;
        Ok(())
    }

    /// A letter that closes the node.
    #[tactic(auto, using(crate::proofs::StandLaws::close_allowed, crate::proofs::StandLaws::close_no_suit, crate::proofs::StandLaws::close_not))]
    #[inline(always)]
    fn try_close(&mut self, claim: &Claim, reason: WideReason) -> Result<(), Wrong>
        requires open { self.old.closed ≡ false }
        requires reading { IsReading claim.now.problem self.old }
        ensures step { Steps claim.now.problem claim.now.answer (state_of self.old) (Close reason) (state_of self.new) result }
        ensures reading { IsReading claim.now.problem self.new }
    {
        if !self.suits(claim, reason) {
            return Err(Wrong::False);
        }
        if !self.closes(claim, reason) {
            return Err(Wrong::False);
        }
        self.leave(claim);
        Ok(())
    }

    /// The token at the node, while the tree is open.
    #[inline(always)]
    pub fn step(&mut self, claim: &Claim, token: WideToken) -> Result<(), Wrong>
        requires open { self.old.closed ≡ false }
        requires reading { IsReading claim.now.problem self.old }
        ensures step { Steps claim.now.problem claim.now.answer (state_of self.old) token (state_of self.new) result }
        ensures reading { IsReading claim.now.problem self.new }
    {
        match token {
            WideToken::Enter => self.try_enter(claim),
            WideToken::Pass => self.try_pass(claim),
            WideToken::Mark => self.try_mark(claim),
            WideToken::Close(reason) => self.try_close(claim, reason),
        }
    }
}

//! One token at a node: it makes its step where it is allowed, and else says what is wrong.

ghost use Rattle.std.specs.Prelude.{◌≡◌, ◌≢◌, false};
ghost use Rattle.log_checker.specs.Reads.{IsReading, Steps, fault_at, state_of};
ghost use Rattle.pick_problem.specs.declared.token.Reason.TheVariants.{Hit};
ghost use Rattle.pick_problem.specs.declared.token.Token.TheVariants.{Close, Enter, Pass};

use crate::claim::Claim;
use crate::fault::LogFault;
use crate::reading::Reading;
use pick_problem::{Reason, Token};

/// What is wrong with a letter. A step gives but the last two, of a token at an open node.
#[derive(Clone, Copy, PartialEq, Eq)]
pub enum Wrong {
    /// It is the letter of no token.
    Unknown,
    /// The tree was closed before it.
    Long,
    /// It isn't allowed there: any but A, or an A below `lo`.
    False,
    /// It is A at an admissible selection that the answer doesn't beat.
    Better,
}

impl Wrong {
    /// The fault of a letter at a place.
    pub fn at(self, place: u64) -> LogFault
        ensures { result ≡ fault_at self place }
    {
        match self {
            Wrong::Unknown => LogFault::UnknownToken(place),
            Wrong::Long => LogFault::TooLong(place),
            Wrong::False => LogFault::ReasonFalse(place),
            Wrong::Better => LogFault::BetterMet(place),
        }
    }
}

impl Reading {
    /// I at the node.
    #[inline(always)]
    fn try_enter(&mut self, claim: &Claim) -> Result<(), Wrong>
        requires { IsReading claim.now.problem self.old }
        ensures step { Steps claim.now.problem claim.now.answer (state_of self.old) Enter (state_of self.new) result }
        ensures reading { IsReading claim.now.problem self.new }
    {
        if self.next >= claim.count() {
            return Err(Wrong::False);
        }
        self.enter(claim);
        Ok(())
    }

    /// T at the node.
    #[inline(always)]
    fn try_pass(&mut self, claim: &Claim) -> Result<(), Wrong>
        requires { IsReading claim.now.problem self.old }
        ensures step { Steps claim.now.problem claim.now.answer (state_of self.old) Pass (state_of self.new) result }
        ensures reading { IsReading claim.now.problem self.new }
    {
        if !self.is_behind_twin(claim) {
            return Err(Wrong::False);
        }
        self.pass(claim);
        Ok(())
    }

    /// A at the node. Only it goes through the chosen places, once, to see whether they are the answer.
    #[tactic(auto, using(crate::proofs::StepLaws::met_is))]
    #[inline(always)]
    fn try_hit(&mut self, claim: &Claim) -> Result<(), Wrong>
        requires open { self.old.closed ≡ false }
        requires reading { IsReading claim.now.problem self.old }
        ensures step { Steps claim.now.problem claim.now.answer (state_of self.old) (Close Hit) (state_of self.new) result }
        ensures reading { IsReading claim.now.problem self.new }
    {
        if self.value < u128::from(claim.lo()) {
            return Err(Wrong::False);
        }
        let met = self.met || self.is_answer(claim);
        if self.is_admissible(claim) && !self.is_no_better(claim, met) {
            return Err(Wrong::Better);
        }
        self.met = met;
        self.leave(claim);
        Ok(())
    }

    /// Any other letter that closes the node.
    #[tactic(auto, using(crate::proofs::StepLaws::met_stays, crate::proofs::StepLaws::false_reason))]
    #[inline(always)]
    fn try_close(&mut self, claim: &Claim, reason: Reason) -> Result<(), Wrong>
        requires open { self.old.closed ≡ false }
        requires other { reason ≢ Reason.Hit }
        requires reading { IsReading claim.now.problem self.old }
        ensures step { Steps claim.now.problem claim.now.answer (state_of self.old) (Close reason) (state_of self.new) result }
        ensures reading { IsReading claim.now.problem self.new }
    {
        if !self.closes(claim, reason) {
            return Err(Wrong::False);
        }
        self.leave(claim);
        Ok(())
    }

    /// The token at the node, while the tree is open.
    #[inline(always)]
    pub fn step(&mut self, claim: &Claim, token: Token) -> Result<(), Wrong>
        requires open { self.old.closed ≡ false }
        requires reading { IsReading claim.now.problem self.old }
        ensures step { Steps claim.now.problem claim.now.answer (state_of self.old) token (state_of self.new) result }
        ensures reading { IsReading claim.now.problem self.new }
    {
        match token {
            Token::Enter => self.try_enter(claim),
            Token::Pass => self.try_pass(claim),
            Token::Close(Reason::Hit) => self.try_hit(claim),
            Token::Close(reason) => self.try_close(claim, reason),
        }
    }
}

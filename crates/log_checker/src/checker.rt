//! The checker of a log.

ghost use Rattle.std.specs.Prelude.{◌≡◌, ◌↔◌, ◌⊎◌, [], ◌∷◌, true, false, Err, IfErr, IfOk, IfSome, IsOk, IsTrue, None, OnOk, Some, option_copied};
ghost use Rattle.log_checker.specs.Feeding.{EndsWell, IsFirstFault, IsMet, IsOfLetters, IsRefused, RefusesToken, Takes, begun, faulted, fed, stepped, stopped};
ghost use Rattle.log_checker.specs.Reads.{fault_at};
ghost use Rattle.pick_problem.specs.Admissible.{IsFit};
ghost use Rattle.pick_problem.specs.Best.{IsBest};
ghost use Rattle.pick_problem.specs.Letters.{IsTaken};
ghost use Rattle.pick_problem.specs.Steps.{IsAllowed};
ghost use Rattle.pick_problem.specs.Tokens.{token_of};

use crate::claim::Claim;
use crate::fault::LogFault;
use crate::reading::Reading;
use crate::stepping::Wrong;
use pick_problem::{Problem, Reason, Token};
use std::alloc::Global;
use std::marker::Model;

/// Reads a closing log in pieces, and says whether it proves that its answer is the best selection of its problem, or,
/// made without an answer, that no selection is admissible. Contracts see the problem, the answer, where the reading of
/// the tree stands, how many letters were fed, and the fault that was found.
#[derive(Drop)]
pub struct Checker {
    claim: Claim,
    reading: Reading,
    fed: u64,
    fault: Option<LogFault>,
}

impl Model for Checker {
    ghost use Rattle.log_checker.specs.Feeding.{IsChecker, PlainChecker};
    ghost use Rattle.log_checker.specs.Reads.{IsReading, state_of};

    ghost Value = { PlainChecker };

    ghost view = { λ c. record { problem = c.claim.problem; answer = c.claim.answer; state = state_of c.reading; fed = c.fed; fault = c.fault } };

    ghost invariant = { λ c. IsChecker (record { problem = c.claim.problem; answer = c.claim.answer; state = state_of c.reading; fed = c.fed; fault = c.fault }) × IsReading c.claim.problem c.reading };
}

impl Checker {
    /// A checker that is fed nothing yet, for a problem and the answer that its log is to prove. It takes all memory
    /// that it needs.
    pub fn new(
        alloc: Global,
        problem: &Problem,
        answer: Option<&[u32]>,
    ) -> Result<Checker, LogFault>
        ensures ok { IfOk result (λ c. c ≡ begun problem.now (option_copied answer.entry)) }
        // AnswerNotAdmissible comes exactly where there is an answer and it isn't an admissible selection of the
        // problem, whatever memory there is
        ensures unfit { result ≡ Err LogFault.AnswerNotAdmissible ↔ ¬ IsFit problem.now (option_copied answer.entry) }
        // the only other error is out of memory
        ensures only { IfErr result (λ f. (f ≡ LogFault.AnswerNotAdmissible) ⊎ (f ≡ LogFault.Memory)) }
    {
        let claim = Claim::new(alloc, problem, answer)?;
        let reading = Reading::begin(alloc, &claim)?;
        Ok(Checker {
            claim,
            reading,
            fed: 0,
            fault: None,
        })
    }

    /// One token.
    #[tactic(auto, using(crate::proofs::FeedLaws::step_keeps_checker, crate::proofs::FeedLaws::wrong_token, crate::proofs::FeedLaws::long_token))]
    #[inline(always)]
    fn take(&mut self, token: Token) -> Result<(), Wrong>
        requires { self.old.fault ≡ None }
        ensures ok { OnOk result (IsAllowed self.old.problem self.old.answer self.old.state token × (self.new ≡ stepped self.old token)) }
        ensures err { IfErr result (λ w. RefusesToken self.old token (fault_at w self.old.fed) × (self.new ≡ self.old)) }
    {
        if self.reading.closed {
            return Err(Wrong::Long);
        }
        match self.reading.step(&self.claim, token) {
            Ok(()) => Ok(()),
            Err(wrong) => Err(wrong),
        }
    }

    /// Keeps a fault.
    fn keep(&mut self, fault: LogFault)
        requires { IsOfLetters fault }
        ensures { self.new ≡ faulted self.old fault }
    {
        self.fault = Some(fault);
    }

    /// One token, by its letter.
    #[tactic(auto, using(crate::proofs::FeedLaws::letter_taken, crate::proofs::FeedLaws::one_letter))]
    #[inline(always)]
    fn follow(&mut self, letter: u8, token: Token) -> Result<(), Wrong>
        requires fine { self.old.fault ≡ None }
        requires letter { token_of letter ≡ Some token }
        ensures ok { OnOk result (IsTaken self.old.problem self.old.answer self.old.state letter × (self.new ≡ fed self.old (letter ∷ []))) }
        ensures err { IfErr result (λ w. IsRefused self.old.problem self.old.answer self.old.state self.old.fed letter (fault_at w self.old.fed) × (self.new ≡ self.old)) }
    {
        if let Err(wrong) = self.take(token) {
            return Err(wrong);
        }
        self.fed = self.fed.saturating_add(1);
        Ok(())
    }

    /// One letter. Each token has an arm of its own here, so it is known where its step is compiled; with `Token::of`
    /// each letter would be looked at three times.
    #[tactic(auto, using(crate::proofs::FeedLaws::unknown_letter))]
    #[inline(always)]
    fn read(&mut self, letter: u8) -> Result<(), Wrong>
        requires { self.old.fault ≡ None }
        ensures ok { OnOk result (IsTaken self.old.problem self.old.answer self.old.state letter × (self.new ≡ fed self.old (letter ∷ []))) }
        ensures err { IfErr result (λ w. IsRefused self.old.problem self.old.answer self.old.state self.old.fed letter (fault_at w self.old.fed) × (self.new ≡ self.old)) }
    {
        match letter {
            b'I' => self.follow(letter, Token::Enter),
            b'T' => self.follow(letter, Token::Pass),
            b'S' => self.follow(letter, Token::Close(Reason::Short)),
            b'O' => self.follow(letter, Token::Close(Reason::Over)),
            b'H' => self.follow(letter, Token::Close(Reason::Heavy)),
            b'M' => self.follow(letter, Token::Close(Reason::NoRoom)),
            b'W' => self.follow(letter, Token::Close(Reason::Worse)),
            b'L' => self.follow(letter, Token::Close(Reason::Heavier)),
            b'F' => self.follow(letter, Token::Close(Reason::Far)),
            b'A' => self.follow(letter, Token::Close(Reason::Hit)),
            _ => Err(Wrong::Unknown),
        }
    }

    /// Makes the steps of the letters in order, from where the ones before them led. It takes no memory.
    // Never inlined: in a caller that made the checker, each arm keeps copies of its own of what the loop loads.
    #[inline(never)]
    pub fn feed(&mut self, tokens: &[u8]) -> Result<(), LogFault>
        // a fault that was found is given again, and nothing is read
        ensures kept { IfSome self.old.fault (λ f. (result ≡ Err f) × (self.new ≡ self.old)) }
        // while none was found, the answer is Ok exactly where all steps are allowed
        ensures exactly { self.old.fault ≡ None → (IsOk result ↔ Takes self.old tokens.now) }
        ensures ok { self.old.fault ≡ None → OnOk result (self.new ≡ fed self.old tokens.now) }
        // else it is the fault of the first letter that isn't allowed, which is kept after the letters in front of it
        ensures fault { (f : LogFault) → self.old.fault ≡ None → (result ≡ Err f ↔ IsFirstFault self.old tokens.now f) }
        ensures stops { self.old.fault ≡ None →
            IfErr result (λ f. (x : IsFirstFault self.old tokens.now f) × (self.new ≡ stopped self.old x.front f)) }
    {
        if let Some(fault) = self.fault {
            return Err(fault);
        }
        for letter in tokens {
            if let Err(wrong) = self.read(*letter) {
                let fault = wrong.at(self.fed);
                self.keep(fault);
                return Err(fault);
            }
        }
        Ok(())
    }

    /// Whether there is no answer, or it was met.
    fn is_met(&self) -> bool
        ensures { IsTrue result ↔ IsMet self.now.answer self.now.state.met }
    {
        match self.claim.answer() {
            None => true,
            Some(_) => self.reading.met,
        }
    }

    /// Whether the log ends here: its tree is closed, and the answer was met. It takes no memory, and keeps no fault.
    pub fn end(&self) -> Result<(), LogFault>
        // a fault that was found is given again
        ensures kept { IfSome self.now.fault (λ f. result ≡ Err f) }
        // Ok comes exactly where none was found, the tree is closed, and the answer, if there is one, was met
        ensures ok { IsOk result ↔ EndsWell self.now }
        // Open and AnswerNotMet come exactly where none was found and the tree isn't closed, or the answer wasn't met
        ensures open { result ≡ Err LogFault.Open ↔ ((self.now.fault ≡ None) × (self.now.state.closed ≡ false)) }
        ensures unmet { result ≡ Err LogFault.AnswerNotMet ↔ ((self.now.fault ≡ None) × (self.now.state.closed ≡ true) × (¬ IsMet self.now.answer self.now.state.met)) }
        // an answer with which the log ends well is the best of its problem; without one no selection is admissible
        ensures best { OnOk result (IsBest self.now.problem self.now.answer) }
    {
        if let Some(fault) = self.fault {
            return Err(fault);
        }
        if !self.reading.closed {
            return Err(LogFault::Open);
        }
        if !self.is_met() {
            return Err(LogFault::AnswerNotMet);
        }
        Ok(())
    }
}

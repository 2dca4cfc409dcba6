//! The checker of a wide log.

ghost use Rattle.std.specs.Prelude.{◌≡◌, ◌↔◌, ◌⊎◌, [], ◌∷◌, true, false, Err, IfErr, IfOk, IfSome, IsOk, IsTrue, None, OnOk, Some, option_copied};
ghost use Rattle.wide_check.specs.Feeding.{EndsWell, IsFirstFault, IsMet, IsOfLetters, IsRefused, RefusesToken, Takes, begun, faulted, fed, stepped, stopped};
ghost use Rattle.wide_check.specs.Reads.{fault_at};
ghost use Rattle.pick_problem.specs.declared.item.Kind.TheVariants.{Changeless};
ghost use Rattle.wide_check.specs.Wide.{IsWideBest, IsWideFit};
ghost use Rattle.wide_check.specs.WideLetters.{IsTaken};
ghost use Rattle.wide_check.specs.WideSteps.{IsAllowed};
ghost use Rattle.wide_check.specs.WideTokens.{token_of};

use crate::claim::Claim;
use crate::fault::WideFault;
use crate::reading::Reading;
use crate::stepping::Wrong;
use crate::token::{WideReason, WideToken};
use pick_problem::Problem;
use std::alloc::Global;
use std::marker::Model;

/// Reads a wide log in pieces, and says whether it proves that its answer is the best selection of its problem, where
/// selections may hold unneeded items; or, made without an answer, that there is no selection. Contracts see the problem,
/// the answer, where the reading of the tree stands, how many letters were fed, and the fault that was found.
#[derive(Drop)]
pub struct WideChecker {
    claim: Claim,
    reading: Reading,
    fed: u64,
    fault: Option<WideFault>,
}

impl Model for WideChecker {
    ghost use Rattle.wide_check.specs.Feeding.{IsWideChecker, PlainWideChecker};
    ghost use Rattle.wide_check.specs.Reads.{IsReading, state_of};

    ghost Value = { PlainWideChecker };

    ghost view = { λ c. record { problem = c.claim.problem; answer = c.claim.answer; state = state_of c.reading; fed = c.fed; fault = c.fault } };

    ghost invariant = { λ c. IsWideChecker (record { problem = c.claim.problem; answer = c.claim.answer; state = state_of c.reading; fed = c.fed; fault = c.fault }) × IsReading c.claim.problem c.reading };
}

impl WideChecker {
    /// A checker that is fed nothing yet, for a problem without change and the answer that its log is to prove. It takes
    /// all memory that it needs.
    #[tactic(auto, using(crate::proofs::WideSoundLaws::root_so_far))]
    pub fn new(
        alloc: Global,
        problem: &Problem,
        answer: Option<&[u32]>,
    ) -> Result<WideChecker, WideFault>
        requires { problem.now.kind ≡ Changeless }
        ensures ok { IfOk result (λ c. c ≡ begun problem.now (option_copied answer.entry)) }
        // AnswerNotAdmissible comes exactly where there is an answer and it isn't a selection of the problem,
        // whatever memory there is
        ensures unfit { result ≡ Err WideFault.AnswerNotAdmissible ↔ ¬ IsWideFit problem.now (option_copied answer.entry) }
        // the only other error is out of memory
        ensures only { IfErr result (λ f. (f ≡ WideFault.AnswerNotAdmissible) ⊎ (f ≡ WideFault.Memory)) }
    {
        let claim = Claim::new(alloc, problem, answer)?;
        let reading = Reading::begin(alloc, &claim)?;
        Ok(WideChecker {
            claim,
            reading,
            fed: 0,
            fault: None,
        })
    }

    /// One token.
    #[tactic(auto, using(crate::proofs::FeedLaws::long_token))]
    #[inline(always)]
    fn take(&mut self, token: WideToken) -> Result<(), Wrong>
        requires { self.old.fault ≡ None }
        ensures ok { OnOk result (IsAllowed self.old.problem self.old.answer self.old.state token × (self.new ≡ stepped self.old token)) }
        ensures err { IfErr result (λ w. RefusesToken self.old token (fault_at w self.old.fed) × (self.new ≡ self.old)) }
    {
        if self.reading.closed {
            return Err(Wrong::Long);
        }
        self.reading.step(&self.claim, token)
    }

    /// Keeps a fault.
    fn keep(&mut self, fault: WideFault)
        requires { IsOfLetters fault }
        ensures { self.new ≡ faulted self.old fault }
    {
        self.fault = Some(fault);
    }

    /// One token, by its letter.
    #[tactic(auto, using(crate::proofs::FeedLaws::letter_taken, crate::proofs::FeedLaws::one_letter))]
    #[inline(always)]
    fn follow(&mut self, letter: u8, token: WideToken) -> Result<(), Wrong>
        requires fine { self.old.fault ≡ None }
        requires letter { token_of letter ≡ Some token }
        ensures ok { OnOk result (IsTaken self.old.problem self.old.answer self.old.state letter × (self.new ≡ fed self.old (letter ∷ []))) }
        ensures err { IfErr result (λ w. IsRefused self.old.problem self.old.answer self.old.state self.old.fed letter (fault_at w self.old.fed) × (self.new ≡ self.old)) }
    {
        if let Err(wrong) = self.take(token) {
            return Err(wrong);
        }
        self.fed = self.fed.saturating_add(1);
        Ok(())
    }

    /// One letter. Each token has an arm of its own here, so it is known where its step is compiled; with `WideToken::of`
    /// each letter would be looked at three times.
    #[tactic(auto, using(crate::proofs::FeedLaws::unknown_letter))]
    #[inline(always)]
    fn read(&mut self, letter: u8) -> Result<(), Wrong>
        requires { self.old.fault ≡ None }
        ensures ok { OnOk result (IsTaken self.old.problem self.old.answer self.old.state letter × (self.new ≡ fed self.old (letter ∷ []))) }
        ensures err { IfErr result (λ w. IsRefused self.old.problem self.old.answer self.old.state self.old.fed letter (fault_at w self.old.fed) × (self.new ≡ self.old)) }
    {
        match letter {
            b'I' => self.follow(letter, WideToken::Enter),
            b'T' => self.follow(letter, WideToken::Pass),
            b'S' => self.follow(letter, WideToken::Close(WideReason::Short)),
            b'O' => self.follow(letter, WideToken::Close(WideReason::Over)),
            b'H' => self.follow(letter, WideToken::Close(WideReason::Heavy)),
            b'V' => self.follow(letter, WideToken::Close(WideReason::Wasteful)),
            b'N' => self.follow(letter, WideToken::Close(WideReason::Ended)),
            b'B' => self.follow(letter, WideToken::Mark),
            _ => Err(Wrong::Unknown),
        }
    }

    /// Makes the steps of the letters in order, from where the ones before them led. It takes no memory.
    // Never inlined: in a caller that made the checker, each arm keeps copies of its own of what the loop loads.
    #[inline(never)]
    pub fn feed(&mut self, tokens: &[u8]) -> Result<(), WideFault>
        // a fault that was found is given again, and nothing is read
        ensures kept { IfSome self.old.fault (λ f. (result ≡ Err f) × (self.new ≡ self.old)) }
        // while none was found, the answer is Ok exactly where all steps are allowed
        ensures exactly { self.old.fault ≡ None → (IsOk result ↔ Takes self.old tokens.now) }
        ensures ok { self.old.fault ≡ None → OnOk result (self.new ≡ fed self.old tokens.now) }
        // else it is the fault of the first letter that isn't allowed, which is kept after the letters in front of it
        ensures fault { (f : WideFault) → self.old.fault ≡ None → (result ≡ Err f ↔ IsFirstFault self.old tokens.now f) }
        ensures stops { self.old.fault ≡ None →
            IfErr result (λ f. (x : IsFirstFault self.old tokens.now f) × (self.new ≡ stopped self.old x.front f)) }
    {
        if let Some(fault) = self.fault {
            return Err(fault);
        }
        for letter in tokens {
            if let Err(wrong) = self.read(*letter) {
                let fault = wrong.at(self.fed);
                self.keep(fault);
                return Err(fault);
            }
        }
        Ok(())
    }

    /// Whether there is no answer, or it was met.
    fn is_met(&self) -> bool
        ensures { IsTrue result ↔ IsMet self.now.answer self.now.state.met }
    {
        match self.claim.answer() {
            None => true,
            Some(_) => self.reading.met,
        }
    }

    /// Whether the log ends here: its tree is closed, and the answer was met. It takes no memory. Its error
    /// isn't kept: `feed` may go on.
    pub fn end(&self) -> Result<(), WideFault>
        // a fault that was found is given again
        ensures kept { IfSome self.now.fault (λ f. result ≡ Err f) }
        // Ok comes exactly where none was found, the tree is closed, and the answer, if there is one, was met
        ensures ok { IsOk result ↔ EndsWell self.now }
        // Open and AnswerNotMet come exactly where none was found and the tree isn't closed, or the answer wasn't met
        ensures open { result ≡ Err WideFault.Open ↔ ((self.now.fault ≡ None) × (self.now.state.closed ≡ false)) }
        ensures unmet { result ≡ Err WideFault.AnswerNotMet ↔ ((self.now.fault ≡ None) × (self.now.state.closed ≡ true) × (¬ IsMet self.now.answer self.now.state.met)) }
        // an answer with which the log ends well is the best of its problem; without one there is no selection
        ensures best { OnOk result (IsWideBest self.now.problem self.now.answer) }
    {
        if let Some(fault) = self.fault {
            return Err(fault);
        }
        if !self.reading.closed {
            return Err(WideFault::Open);
        }
        if !self.is_met() {
            return Err(WideFault::AnswerNotMet);
        }
        Ok(())
    }
}

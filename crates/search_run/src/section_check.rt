//! The checker over one section.

ghost use Rattle.std.specs.Prelude.{◌≡◌, ◌↔◌, Err, IfErr, IfOk, None, OnOk};
ghost use Rattle.log_checker.specs.Feeding.{EndsWell, Takes, fed};
ghost use Rattle.log_checker.specs.Sections.{LettersHave};
ghost use Rattle.log_checker.specs.declared.fault.LogFault.TheVariants as fault;
ghost use Rattle.pick_problem.specs.Letters.{IsAcceptedText};
ghost use Rattle.pick_problem.specs.Problem.{PlainProblem};
ghost use Rattle.search_run.specs.Judged.{HasOrMemory, IsBegun};

use closing_log::Section;
use log_checker::{Checker, LogFault};
use pick_problem::Problem;
use std::alloc::Global;

/// Feeds letters to a checker that was fed nothing, and ends it. It takes no memory.
#[tactic(auto, using(crate::proofs::CheckLaws::ends_in))]
fn judge(checker: &mut Checker, letters: &[u8]) -> Result<(), LogFault>
    requires { checker.old.fault ≡ None }
    ensures ok { OnOk result (Takes checker.old letters.now × EndsWell (fed checker.old letters.now)) }
    ensures fault { IfErr result (λ f. LettersHave checker.old letters.now f) }
{
    checker.feed(letters)?;
    checker.end()
}

/// A checker for the answer of a section, which is fed nothing yet. That the answer isn't admissible is told whatever
/// memory there is. No other call asks for memory for a checker.
fn begin(alloc: Global, problem: &Problem, section: &Section) -> Result<Checker, LogFault>
    ensures { IsBegun problem.now section.now.answer result }
{
    match &section.answer {
        None => Checker::new(alloc, problem, None),
        Some(places) => Checker::new(alloc, problem, Some(places.as_slice())),
    }
}

/// Whether the letters of a section are accepted, by what came of making its checker. It takes no memory: `Memory` comes
/// exactly where there was none for the checker.
fn check(made: Result<Checker, LogFault>, section: &Section) -> Result<(), LogFault>
    requires { IfOk made (λ c. c.fault ≡ None) }
    ensures memory { result ≡ Err fault.Memory ↔ made ≡ Err fault.Memory }
    ensures ok { (p : PlainProblem) → IsBegun p section.now.answer made →
        OnOk result (IsAcceptedText p section.now.answer section.now.letters) }
    ensures fault { (p : PlainProblem) → IsBegun p section.now.answer made →
        IfErr result (λ f. HasOrMemory p section.now.answer section.now.letters f) }
{
    let mut checker = made?;
    judge(&mut checker, section.tokens.as_slice())
}

/// That the letters of a section are accepted with its answer, for this problem. Otherwise their first fault, or out of
/// memory.
pub fn check_section(alloc: Global, problem: &Problem, section: &Section) -> Result<(), LogFault>
    ensures ok { OnOk result (IsAcceptedText problem.now section.now.answer section.now.letters) }
    ensures fault { IfErr result (λ f. HasOrMemory problem.now section.now.answer section.now.letters f) }
{
    let made = begin(alloc, problem, section);
    check(made, section)
}

//! Sections beside searches.

ghost use Rattle.std.specs.Prelude.{◌≡◌, ◌↔◌, ◌⊎◌, ◌≤◌, ◌+◌, [], List, length, option_copied, IfErr, IsTrue, OnOk};
ghost use Rattle.search_run.specs.Searched.{searches};
ghost use Rattle.search_run.specs.Step.{PlainStep};
ghost use Rattle.report_check.specs.DueSections.{AreAllButLast, AreFor, AreForFirst, IsFirstWrong, IsNamedAs, LeavesHere, PartsHere};
ghost use Rattle.report_check.specs.Fitting.{HasFitting, IsRestAfter, Passes};

use closing_log::Section;
use search_run::Step;

/// Whether a section has the row, the stage and the digest of a search.
fn is_named(step: &Step, section: &Section) -> bool
    ensures { IsTrue result ↔ IsNamedAs step.now section.now }
{
    section.row == step.row()
        && section.stage == step.stage()
        && section.digest == step.problem().digest()
}

/// What is left of the sections behind that of a search; `None` where the first one isn't that of the search.
fn behind<'a>(step: &Step, sections: &'a [Section]) -> Option<&'a [Section]>
    ensures { IsRestAfter step.now sections.now (option_copied result) }
{
    match sections {
        [] => None,
        [section, rest @ ..] => {
            if is_named(step, section) {
                Some(rest)
            } else {
                None
            }
        }
    }
}

/// What is left of the sections behind a step: a draw has none. `None` where the step is a search and the first section
/// isn't its own.
fn passed<'a>(step: &Step, sections: &'a [Section]) -> Option<&'a [Section]>
    ensures { Passes step.now sections.now (option_copied result) }
{
    if step.is_drawn() {
        return Some(sections);
    }
    behind(step, sections)
}

/// The sections that are left behind those of the first searches among these steps, one after another.
fn left_over<'a>(steps: &[Step], sections: &'a [Section]) -> &'a [Section]
    ensures { HasFitting steps.now sections.now result.now }
{
    let mut rest = sections;
    'fitting: for step in steps {
        let Some(next) = passed(step, rest) else {
            return rest;
        };
        rest = next;
    }
    rest
}

/// How many searches are among these steps.
fn count(steps: &[Step]) -> usize
    ensures { result ≡ length (searches steps.now) }
{
    steps.iter().filter(|step| !step.is_drawn()).count()
}

/// Whether no section is left, and there are so many of them.
fn are_done(rest: &[Section], sections: &[Section], most: usize) -> bool
    ensures { IsTrue result ↔ ((length rest.now ≡ 0) × (length sections.now ≡ most)) }
{
    rest.is_empty() && sections.len() == most
}

/// How many of the sections stand before the rest.
fn before(sections: &[Section], rest: &[Section]) -> u32
    requires some { length rest.now ≤ length sections.now }
    requires few { length sections.now ≤ length rest.now + 1_000 }
    ensures count { result + length rest.now ≡ length sections.now }
{
    (sections.len() - rest.len()) as u32
}

/// That there is one section for each search among these steps, in their order, and no other. Otherwise the index of the
/// first that isn't due there, or of the first that is due and missing.
pub(crate) fn are_all(steps: &[Step], sections: &[Section]) -> Result<(), u32>
    requires { length steps.now ≤ 1_000 }
    ensures right { OnOk result (AreFor (searches steps.now) sections.now) }
    ensures wrong { IfErr result (λ i. IsFirstWrong PartsHere (searches steps.now) sections.now i) }
{
    let most = count(steps);
    let rest = left_over(steps, sections);
    if are_done(rest, sections, most) {
        return Ok(());
    }
    let index = before(sections, rest);
    Err(index)
}

/// That there is one section for each of the first searches among these steps, but not for the last of them, in their
/// order, and no other. Otherwise the index of the first that isn't due there; without any search it is 0.
pub(crate) fn are_some(steps: &[Step], sections: &[Section]) -> Result<(), u32>
    requires { length steps.now ≤ 1_000 }
    ensures right { OnOk result ((due : List PlainStep) × AreAllButLast steps.now due × AreForFirst due sections.now) }
    ensures wrong { IfErr result (λ i. ((searches steps.now ≡ []) × (i ≡ 0)) ⊎ ((due : List PlainStep) × AreAllButLast steps.now due × IsFirstWrong LeavesHere due sections.now i)) }
{
    let most = count(steps);
    if most == 0 {
        return Err(0);
    }
    let rest = left_over(steps, sections);
    let index = before(sections, rest);
    if index as usize == most {
        return Err(index - 1);
    }
    if rest.is_empty() {
        return Ok(());
    }
    Err(index)
}

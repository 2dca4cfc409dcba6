//! Sections of a log.

ghost use Rattle.std.specs.Prelude.{◌≡◌, IfOk};
ghost use Rattle.pick_problem.specs.Digest.{digest_of};
ghost use Rattle.search_run.specs.Run.{all_letters, section_at};

use crate::step::Step;
use closing_log::{OpenSection, Section};
use fund_base::{Memory, Places};
use std::alloc::Global;
use walk_engine::Search;

/// The section of a search of a step that is done: its row and stage, the digest of its problem, all its letters, and
/// its best. The error is out of memory.
pub fn section(alloc: Global, step: &Step, walk: &Search) -> Result<Section, Memory>
    ensures { IfOk result (λ s. s ≡ section_at step.now walk.now.before walk.now.walk) }
{
    let answer = match walk.best() {
        Some(places) => Some(Places::new(Vec::from_slice(alloc, places)?)),
        None => None,
    };
    Ok(Section {
        row: step.row(),
        stage: step.stage(),
        digest: step.problem().digest(),
        tokens: Vec::from_slice(alloc, walk.tokens())?,
        answer,
    })
}

/// The section of a search of a step that goes on, with its letters so far. The error is out of memory.
pub fn open_section(alloc: Global, step: &Step, walk: &Search) -> Result<OpenSection, Memory>
    ensures { IfOk result (λ s. s ≡ record {
      row = step.now.row;
      stage = step.now.stage;
      digest = digest_of step.now.problem;
      letters = all_letters walk.now.before walk.now.walk;
    }) }
{
    Ok(OpenSection {
        row: step.row(),
        stage: step.stage(),
        digest: step.problem().digest(),
        tokens: Vec::from_slice(alloc, walk.tokens())?,
    })
}

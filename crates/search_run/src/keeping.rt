//! What is kept of a run.

ghost use Rattle.std.specs.Prelude.{◌≡◌, [], ◌∷◌, ℕ, List, IfOk, true};
ghost use Rattle.pick_problem.specs.Digest.{digest_of};
ghost use Rattle.search_run.specs.Held.{IsOf, IsPlaceOf, before_in, walk_of};
ghost use Rattle.search_run.specs.Run.{all_letters, drawn};
ghost use Rattle.search_run.specs.Step.{is_drawn};

use crate::sections::open_section;
use crate::step::Step;
use closing_log::{OpenSection, Section};
use fund_base::{Memory, Places};
use pick_problem::Position;
use random_draw::draw;
use std::alloc::Global;
use walk_engine::Search;

/// A copy of an answer. The error is out of memory.
pub(crate) fn copy_answer(alloc: Global, answer: &Option<Places>) -> Result<Option<Places>, Memory>
    ensures { IfOk result (λ a. a ≡ answer.now) }
{
    match answer {
        None => Ok(None),
        Some(places) => {
            let copy = places.copy(alloc)?;
            Ok(Some(copy))
        }
    }
}

/// A copy of a section. The error is out of memory.
pub(crate) fn copy_section(alloc: Global, section: &Section) -> Result<Section, Memory>
    ensures { IfOk result (λ s. s ≡ section.now) }
{
    let answer = copy_answer(alloc, &section.answer)?;
    Ok(Section {
        row: section.row,
        stage: section.stage,
        digest: section.digest,
        tokens: Vec::from_slice(alloc, section.tokens.as_slice())?,
        answer,
    })
}

/// Copies of sections. The error is out of memory.
pub(crate) fn copy_sections(alloc: Global, sections: &[Section]) -> Result<Vec<Section>, Memory>
    ensures { IfOk result (λ v. v.items ≡ sections.now) }
{
    let mut copied = Vec::new(alloc);
    for section in sections {
        copied.push(copy_section(alloc, section)?)?;
    }
    Ok(copied)
}

/// The section of a step at which a run stands, with its letters so far. The error is out of memory.
pub(crate) fn tail(alloc: Global, step: &Step, walk: &Option<Search>) -> Result<OpenSection, Memory>
    requires { IsOf (step.now ∷ []) walk.now }
    ensures { (seed : List ℕ) → IfOk result (λ s. s ≡ record {
      row = step.now.row;
      stage = step.now.stage;
      digest = digest_of step.now.problem;
      letters = all_letters (before_in walk.now) (walk_of seed step.now walk.now);
    }) }
{
    if step.is_drawn() {
        return Ok(OpenSection {
            row: step.row(),
            stage: step.stage(),
            digest: step.problem().digest(),
            tokens: Vec::new(alloc),
        });
    }
    match walk {
        None => {
            let begun = Search::new(alloc, step.problem())?;
            open_section(alloc, step, &begun)
        }
        Some(walk) => open_section(alloc, step, walk),
    }
}

/// Where a draw stands: it is done with what it finds. The error is out of memory.
fn drawn_place(alloc: Global, seed: [u8; 32], step: &Step) -> Result<Position, Memory>
    requires { is_drawn step.now.stage ≡ true }
    ensures { IfOk result (λ q. IsPlaceOf q (drawn step.now.problem seed)) }
{
    let best = draw(alloc, step.problem(), seed)?;
    Ok(Position {
        chosen: Places::new(Vec::new(alloc)),
        next: step.problem().items().len() as u32,
        best,
        tries: 0,
        done: true,
    })
}

/// Where the walk of a step stands. The error is out of memory.
pub(crate) fn place(
    alloc: Global,
    seed: [u8; 32],
    step: &Step,
    walk: &Option<Search>,
) -> Result<Position, Memory>
    requires { IsOf (step.now ∷ []) walk.now }
    ensures { IfOk result (λ q. IsPlaceOf q (walk_of seed step.now walk.now)) }
{
    if step.is_drawn() {
        return drawn_place(alloc, seed, step);
    }
    match walk {
        None => {
            let begun = Search::new(alloc, step.problem())?;
            begun.position(alloc)
        }
        Some(walk) => walk.position(alloc),
    }
}

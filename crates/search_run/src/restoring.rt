//! Going on from what is kept.

ghost use Rattle.std.specs.Prelude.{◌≡◌, ◌↔◌, ◌≤◌, List, Err, IfErr, IfOk, IsTrue, drop, length, option_to_list};
ghost use Rattle.pick_problem.specs.Admissible.{IsFit};
ghost use Rattle.pick_problem.specs.Walk.{IsPosition};
ghost use Rattle.search_run.specs.Resumed.{HasDrawn, HasFollowed, IsNoWalk, IsNotFollowed, IsReplayed, IsRestored, IsUnfit, IsWalkKept};
ghost use Rattle.search_run.specs.Found.{PlainFound, found_of};
ghost use Rattle.search_run.specs.Judged.{IsRefusedFor, saved_in};
ghost use Rattle.search_run.specs.Kept.{Along, IsDueAt, IsOpenAt, Names, NamesFirst, PlainSaved, first_search, kept_walk};
ghost use Rattle.search_run.specs.Walks.{kept_position};
ghost use Rattle.search_run.specs.declared.fault.RestoreRefused.TheVariants as refused;

use crate::fault::RestoreRefused;
use crate::found::Found;
use crate::history::{History, next};
use crate::keeping::{copy_answer, copy_section};
use crate::next_search::{NextSearch, answered, first};
use crate::outcome::drawn_result;
use crate::step::Step;
use closing_log::{LogText, OpenSection, Section, Stage, tries_in};
use fund_base::{Memory, Places};
use pick_problem::{Position, Problem, RestoreFault};
use search_keep::Saved;
use std::alloc::Global;
use walk_engine::Search;

/// Whether row, stage and digest are those of a step.
fn names(step: &Step, row: u8, stage: Stage, digest: &[u8; 32]) -> bool
    ensures { IsTrue result ↔ Names step.now row stage digest.now }
{
    row == step.row() && stage == step.stage() && *digest == step.problem().digest()
}

/// Whether row, stage and digest are those of the step at a place; never where none is left.
fn names_at(steps: &[Step], at: usize, row: u8, stage: Stage, digest: &[u8; 32]) -> bool
    ensures { IsTrue result ↔ NamesFirst (drop at steps.now) row stage digest.now }
{
    match steps.get(at) {
        None => false,
        Some(step) => names(step, row, stage, digest),
    }
}

/// The search to which a run comes after these sections, each of which is that of the search to which it comes there.
#[tactic(auto, using(crate::proofs::FollowLaws::along_begins, crate::proofs::FollowLaws::followed, crate::proofs::FollowLaws::due_below, crate::proofs::FollowLaws::named_at, crate::proofs::AlongLaws::first_not))]
fn follow(
    alloc: Global,
    seed: [u8; 32],
    steps: &[Step],
    closed: &[Section],
) -> Result<NextSearch, RestoreRefused>
    ensures ok { IfOk result (λ c. HasFollowed seed steps.now closed.now c) }
    ensures refused { IfErr result (λ e. IsNotFollowed seed steps.now closed.now e) }
{
    let mut now = first(alloc, seed, steps)?;
    'along: for (i, section) in closed.iter().enumerate() {
        if !names_at(steps, now.at, section.row, section.stage, &section.digest) {
            return Err(RestoreRefused::Section(i as u64));
        }
        now = answered(alloc, seed, steps, now, section.answer.is_some())?;
    }
    Ok(now)
}

/// Whether an open section is that of the search to which a run comes, which the saved row and stage name too.
fn is_open_right(steps: &[Step], at: usize, saved: &Saved, tail: &OpenSection) -> bool
    ensures { (found : List PlainFound) → (IsTrue result ↔ IsOpenAt (record { left = drop at steps.now; found = found }) (saved_in saved.now) tail.now) }
{
    names_at(steps, at, tail.row, tail.stage, &tail.digest)
        && tail.row == saved.row
        && tail.stage == saved.stage
}

/// What is saved, as the open position of a search after these letters. The error is out of memory.
fn open_position(alloc: Global, saved: &Saved, letters: &[u8]) -> Result<Position, Memory>
    ensures { IfOk result (λ q. q ≡ kept_position (saved_in saved.now) letters.now) }
{
    let chosen = saved.chosen.copy(alloc)?;
    let best = copy_answer(alloc, &saved.best)?;
    Ok(Position {
        chosen,
        next: saved.next,
        best,
        tries: tries_in(letters),
        done: false,
    })
}

/// The walk of a step at an open position, after these letters.
fn walk_at(
    alloc: Global,
    step: &Step,
    place: &Position,
    letters: &[u8],
) -> Result<Search, RestoreRefused>
    ensures walk { (k : PlainSaved) → place.now ≡ kept_position k letters.now →
        IfOk result (λ w. IsWalkKept step.now.problem k letters.now w) }
    ensures refused { (k : PlainSaved) → place.now ≡ kept_position k letters.now →
        IfErr result (λ e. IsNoWalk step.now.problem k e) }
    // Where no walk may stand, that is told whatever memory there is.
    ensures ill { (k : PlainSaved) → place.now ≡ kept_position k letters.now →
        ¬ IsPosition step.now.problem (kept_walk k) → result ≡ Err refused.IllFormed }
{
    match Search::restore(alloc, step.problem(), place, letters) {
        Ok(walk) => Ok(walk),
        Err(RestoreFault::IllFormed) => Err(RestoreRefused::IllFormed),
        Err(RestoreFault::Memory) => Err(RestoreRefused::Memory),
    }
}

/// Whether an answer is none or admissible.
fn is_fit(problem: &Problem, answer: &Option<Places>) -> bool
    ensures { IsTrue result ↔ IsFit problem.now answer.now }
{
    match answer {
        None => true,
        Some(places) => {
            problem.are_places(places.as_slice()) && problem.admissible(places.as_slice())
        }
    }
}

/// An admissible answer as a result of a step.
fn answer_result(
    alloc: Global,
    step: &Step,
    answer: &Option<Places>,
) -> Result<Option<Found>, Memory>
    requires { IsFit step.now.problem answer.now }
    ensures { IfOk result (λ f. option_to_list f ≡ found_of step.now answer.now) }
{
    match answer {
        None => Ok(None),
        Some(places) => {
            let found = Found::new(alloc, step, places.as_slice())?;
            Ok(Some(found))
        }
    }
}

/// Passes the draws from here on, with what they find. The answer is the place of the next search.
#[tactic(auto, using(crate::proofs::ReplayLaws::draws_begin, crate::proofs::ReplayLaws::draws_at_search, crate::proofs::ReplayLaws::draws_at_end))]
fn draws(
    alloc: Global,
    seed: [u8; 32],
    steps: &[Step],
    from: usize,
    trail: &mut History,
) -> Result<usize, Memory>
    requires { from ≤ length steps.now }
    ensures { IfOk result (λ at. HasDrawn seed steps.now from at trail.old trail.new) }
{
    let mut at = from;
    'drawing: while at < steps.len() {
        let step = &steps[at];
        if !step.is_drawn() {
            return Ok(at);
        }
        let found = drawn_result(alloc, seed, step)?;
        trail.put(found, None)?;
        at = next(steps, at, trail.found.as_slice());
    }
    Ok(at)
}

/// What a run has that has made the searches of these sections with their answers. The refusal is the first
/// answer that isn't admissible.
#[tactic(auto, using(crate::proofs::ReplayLaws::replay_begins, crate::proofs::ReplayLaws::replay_ends))]
fn replay(
    alloc: Global,
    seed: [u8; 32],
    steps: &[Step],
    closed: &[Section],
    tries: u64,
) -> Result<History, RestoreRefused>
    requires { Along IsDueAt seed (first_search seed steps.now) closed.now }
    ensures ok { IfOk result (λ t. IsReplayed seed steps.now closed.now tries t) }
    ensures refused { IfErr result (λ e. IsUnfit seed steps.now closed.now e) }
{
    let mut trail = History {
        found: Vec::new(alloc),
        closed: Vec::new(alloc),
        tries,
    };
    let mut at = draws(alloc, seed, steps, 0, &mut trail)?;
    'along: for (i, section) in closed.iter().enumerate() {
        let step = &steps[at];
        if !is_fit(step.problem(), &section.answer) {
            return Err(RestoreRefused::Answer(i as u64));
        }
        let found = answer_result(alloc, step, &section.answer)?;
        let section = copy_section(alloc, section)?;
        trail.put(found, Some(section))?;
        let after = next(steps, at, trail.found.as_slice());
        at = draws(alloc, seed, steps, after, &mut trail)?;
    }
    Ok(trail)
}

/// What a run that is restored has: the place of its step, the walk of that, and what it has done.
#[derive(Drop)]
pub(crate) struct Restored {
    pub(crate) at: usize,
    pub(crate) walk: Search,
    pub(crate) past: History,
}

/// What a run over these steps has that goes on from what is kept.
pub(crate) fn resume(
    alloc: Global,
    seed: [u8; 32],
    steps: &[Step],
    saved: &Saved,
    log: &LogText,
) -> Result<Restored, RestoreRefused>
    ensures ok { IfOk result (λ r. IsRestored seed steps.now (saved_in saved.now) log.now r) }
    ensures refused { IfErr result (λ e. IsRefusedFor seed steps.now (saved_in saved.now) log.now e) }
{
    let open = follow(alloc, seed, steps, log.closed.as_slice())?;
    let Some(tail) = &log.tail else {
        return Err(RestoreRefused::Section(log.closed.len() as u64));
    };
    if !is_open_right(steps, open.at, saved, tail) {
        return Err(RestoreRefused::Section(log.closed.len() as u64));
    }
    let letters = tail.tokens.as_slice();
    let place = open_position(alloc, saved, letters)?;
    let walk = walk_at(alloc, &steps[open.at], &place, letters)?;
    let past = replay(alloc, seed, steps, log.closed.as_slice(), saved.tries)?;
    Ok(Restored {
        at: open.at,
        walk,
        past,
    })
}

//! The search of a row.

ghost use Rattle.std.specs.Prelude.{◌≡◌, IfOk};
ghost use Rattle.fee_sharing.specs.Searching.{HasTried, section_of};

use closing_log::{Section, Stage};
use coin_grinder::Grinder;
use fund_base::{Memory, Places};
use output_groups::Row;
use pick_problem::{Problem, Progress};
use std::alloc::Global;

/// Letters are reserved for at most so many tries at a time.
const MOST_RESERVED: u64 = 65_536;

/// Makes so many tries of a search, or fewer if it is done before. The error is out of memory.
#[tactic(auto, using(crate::proofs::SearchLaws::piece))]
fn try_piece(search: &mut Grinder, tries: u64) -> Result<Progress, Memory>
    ensures { IfOk result (HasTried search.old search.new tries) }
{
    search.reserve(tries)?;
    Ok(search.advance(tries))
}

/// Makes so many tries of a search, or fewer if it is done before. Letters are reserved for some of them at a time. The error
/// is out of memory.
#[tactic(auto, using(crate::proofs::SearchLaws::along_none))]
pub fn try_all(search: &mut Grinder, tries: u64) -> Result<Progress, Memory>
    ensures { IfOk result (HasTried search.old search.new tries) }
{
    let mut left = tries;
    'on: while left > MOST_RESERVED {
        match try_piece(search, MOST_RESERVED)? {
            Progress::Done => return Ok(Progress::Done),
            Progress::Open => left -= MOST_RESERVED,
        }
    }
    try_piece(search, left)
}

/// The section of a row's search: its row and stage, the digest of its problem, all its letters, and its best. The error is
/// out of memory.
pub fn section(
    alloc: Global,
    row: &Row,
    problem: &Problem,
    search: &Grinder,
) -> Result<Section, Memory>
    ensures { IfOk result (λ s. s ≡ section_of row.now problem.now search.now) }
{
    let answer = match search.best() {
        Some(places) => Some(Places::new(Vec::from_slice(alloc, places)?)),
        None => None,
    };
    Ok(Section {
        row: row.number,
        stage: Stage::LeanSmall,
        digest: problem.digest(),
        tokens: Vec::from_slice(alloc, search.tokens())?,
        answer,
    })
}

//! The wide walk of one row.

ghost use Rattle.std.specs.Prelude.{◌≡◌, ◌≤◌, IfOk, None, Some, option_map, if◌then◌else◌};
ghost use Rattle.pick_problem.specs.declared.item.Kind.TheVariants.{Changeless};
ghost use Rattle.wide_search.specs.Search.{after, letters};
ghost use Rattle.wide_search.specs.WideWalk.{walk};
ghost use Rattle.wide_plan.specs.Walked.{walked_of};

use fund_base::{Memory, Places};
use pick_problem::{Problem, Progress};
use std::alloc::Global;
use std::marker::Model;
use wide_search::Wide;

/// For how many tries letters are reserved at a time.
const MOST_RESERVED: u64 = 65_536;

/// Where a walk stands.
#[derive(Drop)]
pub struct Walked {
    /// The tries that were made.
    pub made: u64,
    /// The places of the best that was met so far, or none.
    pub best: Option<Places>,
    /// The letters of the closing tree, where the walk is done.
    pub tree: Option<Vec<u8>>,
}

impl Model for Walked {
    ghost use Rattle.std.specs.Prelude.{option_map};
    ghost use Rattle.wide_plan.specs.Walked.{PlainWalked};

    ghost Value = { PlainWalked };

    ghost view = { λ w. record { made = w.made; best = w.best; tree = option_map (λ v. v.items) w.tree } };
}

/// Makes so many tries, or fewer if the walk is done before. The answer is whether it is done.
fn make(walk: &mut Wide, tries: u64) -> bool
    requires { tries ≤ walk.old.spare }
    ensures walk { walk.new ≡ after walk.old tries }
    ensures done { result ≡ walk.new.walk.done }
{
    match walk.advance(tries) {
        Progress::Open => false,
        Progress::Done => true,
    }
}

/// Makes at most so many tries of a walk. Letters are reserved for at most 65,536 tries at a time. The answer is whether it is
/// done; the error is out of memory.
fn make_all(walk: &mut Wide, tries: u64) -> Result<bool, Memory>
    ensures problem { walk.new.problem ≡ walk.old.problem }
    ensures walk { IfOk result (λ _. walk.new.walk ≡ (after walk.old tries).walk) }
    ensures done { IfOk result (λ done. done ≡ walk.new.walk.done) }
{
    let mut done = make(walk, 0);
    let mut left = tries;
    'on: while !done && left > 0 {
        let piece = left.min(MOST_RESERVED);
        walk.reserve(piece)?;
        done = make(walk, piece);
        left -= piece;
    }
    Ok(done)
}

/// The best that a walk has met, or none. The error is out of memory.
fn best(alloc: Global, walk: &Wide) -> Result<Option<Places>, Memory>
    ensures { IfOk result (λ b. b ≡ walk.now.walk.best) }
{
    match walk.best() {
        Some(places) => {
            let items = Vec::from_slice(alloc, places)?;
            Ok(Some(Places::new(items)))
        }
        None => Ok(None),
    }
}

/// The letters of the closing tree of a walk, where it is done. The error is out of memory.
fn tree(alloc: Global, walk: &Wide, done: bool) -> Result<Option<Vec<u8>>, Memory>
    ensures { IfOk result (λ t. option_map (λ v. v.items) t ≡ (if done then Some (letters walk.now) else None)) }
{
    if !done {
        return Ok(None);
    }
    let tokens = Vec::from_slice(alloc, walk.tokens())?;
    Ok(Some(tokens))
}

/// The walk of a problem without change after at most so many tries. The error is out of memory.
pub fn walk_row(alloc: Global, problem: &Problem, tries: u64) -> Result<Walked, Memory>
    requires { problem.now.kind ≡ Changeless }
    ensures { IfOk result (λ w. w ≡ walked_of (walk problem.now tries)) }
{
    let mut walk = Wide::new(alloc, problem)?;
    let done = make_all(&mut walk, tries)?;
    let best = best(alloc, &walk)?;
    let tree = tree(alloc, &walk, done)?;
    Ok(Walked {
        made: walk.tries(),
        best,
        tree,
    })
}

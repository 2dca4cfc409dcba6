//! The run of a command with a request beside the files.

ghost use Rattle.std.specs.Prelude.{Bool, ◌≡◌, IfOk};
ghost use Rattle.fund_top.specs.Words.{Command, command_of, where_stands};
ghost use Rattle.held_run.specs.Held.{KeepsFiles};
ghost use Rattle.held_run.specs.Run.{IsRunOf, WritesHeld};

use crate::held::RequestShelf;
use command_end::Status;
use fund_base::Memory;
use fund_outside::SureKeeper;
use fund_shelf::{Shelf, SureSink};
use fund_top::run;
use std::alloc::Global;

/// What a run came to: its status, what it printed, and its log.
#[derive(Drop)]
pub struct Run {
    /// Its status.
    pub status: Status,
    /// The bytes that it printed.
    pub said: Vec<u8>,
    /// The bytes of its log; none where it wrote none.
    pub log: Vec<u8>,
}

/// A run of this status, which printed these bytes and left this log. It refuses only when out of memory.
fn run_of(alloc: Global, status: Status, said: &[u8], log: &[u8]) -> Result<Run, Memory>
    ensures status { IfOk result (λ r. r.status ≡ status) }
    ensures said { IfOk result (λ r. r.said.items ≡ said.now) }
    ensures log { IfOk result (λ r. r.log.items ≡ log.now) }
{
    let said = Vec::from_slice(alloc, said)?;
    let log = Vec::from_slice(alloc, log)?;
    Ok(Run { status, said, log })
}

/// The run of the command that the words are, over the files with this request beside them, by its name
/// [`request_name`](crate::request_name); and these files, which are as before. The command writes no file but its log, which is held
/// by the name [`log_name`](crate::log_name). It refuses only when out of memory.
pub fn run_held<H: Shelf + Drop>(
    alloc: Global,
    words: &Vec<String>,
    request: Vec<u8>,
    files: H,
) -> (Result<Run, Memory>, H)
    ensures run { (stands : Bool) (c : Command) → command_of words.now.items ≡ where_stands stands c → WritesHeld H.tells c → IfOk result.0 (λ r. IsRunOf H.tells stands c request.items (H.view files) (H.view result.1) r.status r.said.items r.log.items) }
    ensures files { (stands : Bool) (c : Command) → command_of words.now.items ≡ where_stands stands c → WritesHeld H.tells c → KeepsFiles H.tells (H.view files) (H.view result.1) }
{
    let mut shelf = RequestShelf::new(alloc, files, request);
    let mut out = SureSink::new(alloc);
    let mut keeper = SureKeeper::new(alloc);
    let status = run(alloc, words, &mut shelf, &mut out, &mut keeper);
    let ended = run_of(alloc, status, out.written(), shelf.log());
    (ended, shelf.into_files())
}

//! The command on files and jobs in memory that never fail.

ghost use Rattle.fund_shelf.specs.SureShelf.{view_of as shelf_view};
ghost use Rattle.fund_shelf.specs.SureSink.{view_of as sink_view};
ghost use Rattle.fund_outside.specs.SureKeeper.{view_of as keeper_view};
ghost use Rattle.fund_top.specs.InMemory.{RunsInMemory};
ghost use Rattle.fund_top.specs.Outside.{in_memory};
ghost use Rattle.fund_top.specs.Words.{command_of};

use crate::top::run;
use command_end::Status;
use fund_outside::SureKeeper;
use fund_shelf::{SureShelf, SureSink};
use std::alloc::Global;

/// [`run`] on files, a sink and a keeper in memory that never fail: the status is that of what the files and the job come to,
/// and the report, the listing or the summary is printed whole, being out of memory aside.
pub fn run_in_memory(
    alloc: Global,
    words: &Vec<String>,
    shelf: &mut SureShelf,
    out: &mut SureSink,
    keeper: &mut SureKeeper,
) -> Status
    ensures { RunsInMemory (in_memory (shelf_view shelf.old) (shelf_view shelf.new) (sink_view out.old) (sink_view out.new) (keeper_view keeper.old) (keeper_view keeper.new)) (command_of words.now.items) result }
{
    run(alloc, words, shelf, out, keeper)
}

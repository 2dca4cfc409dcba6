//! The fault line of what stops the reading of a wallet and its blocks.

ghost use Rattle.std.specs.Prelude.{◌≡◌};
ghost use Rattle.fund_shelf.specs.Causes.{CountsNeverFall};
ghost use Rattle.command_end.specs.Lines.{GotLine, fault_line};
ghost use Rattle.command_end.specs.Names.{plain_sources};
ghost use Rattle.command_end.specs.ChainAnswer.{IsStopped, name_of, stop_status, stop_words};

use crate::names::Sources;
use crate::output::out_of_memory;
use crate::refusals::{refuse_file, refuse_read};
use crate::status::Status;
use fund_files::{File, Stop};
use fund_shelf::Sink;

/// The name of a file that is read. A request isn't.
fn name_of<'a>(sources: &Sources<'a>, file: File) -> &'a str
    ensures { result.now ≡ name_of (plain_sources sources.now) file }
{
    match file {
        File::Wallet => sources.wallet,
        File::Blocks => sources.blocks,
        File::Request => "",
    }
}

/// Puts the line of a stop of the wallet file or the block file, and answers its status, without memory.
pub fn refuse_chain<O: Sink>(sources: &Sources, stop: Stop, out: &mut O) -> Status
    ensures is { result ≡ stop_status stop }
    ensures line { O.tells → GotLine (fault_line (stop_words (plain_sources sources.now) stop)) (O.view out.old) (O.view out.new) }
    ensures answered { IsStopped O.tells (plain_sources sources.now) stop (O.view out.old) (O.view out.new) result }
    ensures read { (file : File) → stop ≡ Stop.Read file → result ≡ Status.ReadFault }
    ensures counts { CountsNeverFall (O.view out.old) (O.view out.new) }
{
    match stop {
        Stop::Read(file) => refuse_read(name_of(sources, file), out),
        Stop::Refused(refusal) => refuse_file(&refusal, out),
        Stop::Memory => out_of_memory(out),
    }
}

//! The command.

ghost use Rattle.std.specs.Prelude.{◌≡◌, ◌≤◌};
ghost use Rattle.fund_shelf.specs.Causes.{CountsNeverFall};
ghost use Rattle.command_end.specs.Lines.{GotLine, fault_line};
ghost use Rattle.command_end.specs.Printed.{TellsWhole, TookAll};
ghost use Rattle.command_work.specs.Statuses.{Ends};
ghost use Rattle.command_work.specs.Stops.{IsStopped, ReadsNone, stop_status, stop_words};

use crate::running::run_load;
use command_end::{Status, out_of_memory, put_report};
use command_inputs::{Stop, refuse};
use fund_shelf::Sink;
use std::alloc::Global;

/// Puts the line of a stop. No file is read and no job is kept, so neither can fail.
fn answer<O: Sink>(stop: Stop, out: &mut O) -> Status
    requires { ReadsNone stop }
    ensures is { result ≡ stop_status stop }
    ensures line { O.tells → GotLine (fault_line (stop_words stop)) (O.view out.old) (O.view out.new) }
    ensures answered { IsStopped O.tells stop (O.view out.old) (O.view out.new) result }
    ensures counts { CountsNeverFall (O.view out.old) (O.view out.new) }
{
    match stop {
        Stop::Read(_) => unreachable!(),
        Stop::Refused(refusal) => refuse(&refusal, out),
        Stop::Keep => unreachable!(),
        Stop::Memory => out_of_memory(out),
    }
}

/// Makes the wallet and the request of a number and of a count of coins, 1 to 10,000, funds the payment with the request's
/// 100,000 tries, and prints the summary of the run: the number and the count, the report's lines but for those of coins
/// and of the PSBT, and the SHA-256 of the whole report. It reads no file and writes none, and prints no log.
///
/// Two transactions of a workload have different texts. Should two have one txid all the same, as only a collision of
/// SHA-256 could make it, the workload is refused as a wallet file that holds them is. Nothing else is refused.
///
/// The clauses on content hold where the sink tells its.
pub fn work<O: Sink>(alloc: Global, number: u64, count: u32, out: &mut O) -> Status
    requires some { 1 ≤ count }
    requires most { count ≤ 10_000 }
    // By the status: what the run on the workload came to, and what the sink has got.
    ensures ends { Ends O.tells number count (O.view out.old) (O.view out.new) result }
    // An output that failed is never told as success.
    ensures all_put { TellsWhole result → TookAll (O.view out.old) (O.view out.new) }
    ensures counts { CountsNeverFall (O.view out.old) (O.view out.new) }
{
    match run_load(alloc, number, count) {
        Ok(ended) => put_report(&ended.summary, ended.status, out),
        Err(stop) => answer(stop, out),
    }
}

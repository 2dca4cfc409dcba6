//! The commands, from their words to their status.

ghost use Rattle.std.specs.Prelude.{◌≡◌, ◌≢◌, Some};
ghost use Rattle.command_end.specs.Printed.{TellsWhole, TookAll};
ghost use Rattle.command_inputs.specs.Jobs.{KeepsJobs};
ghost use Rattle.command_inputs.specs.Results.{IsBeforeTheLog};
ghost use Rattle.fund_top.specs.Asked.{AsksFor};
ghost use Rattle.fund_top.specs.Command.{plain};
ghost use Rattle.fund_top.specs.Outside.{outside};
ghost use Rattle.fund_top.specs.Run.{EndsByStatus, GoesOn, LeavesOthers, ReadsInOrder, RefusesFirst, TellsDue, TellsFailures, TellsUsage};
ghost use Rattle.fund_top.specs.Statuses.{Ends, KeepsOthers, WhereWorking, job_of};
ghost use Rattle.fund_top.specs.Words.{IsInRange, command_of};

use crate::words::{Command, parse};
use command_check::check;
use command_coins::coins;
use command_desk::desk;
use command_end::{Status, put_line};
use command_fund::fund;
use command_resume::resume;
use command_work::work;
use fund_outside::Keeper;
use fund_shelf::{Shelf, Sink};
use std::alloc::Global;

/// The line of words that are no command.
const USAGE_LINE: &[u8] = b"fault usage\n";

/// Does the command.
fn act<H: Shelf, O: Sink, K: Keeper>(
    alloc: Global,
    command: &Command,
    shelf: &mut H,
    out: &mut O,
    keeper: &mut K,
) -> Status
    requires { IsInRange (plain command.now) }
    ensures ends { Ends H.tells O.tells K.tells (plain command.now) (H.view shelf.old) (H.view shelf.new) (O.view out.old) (O.view out.new) (K.view keeper.old) (K.view keeper.new) result }
    ensures others { H.tells → KeepsOthers (plain command.now) (H.view shelf.old).files (H.view shelf.new).files }
    ensures kept { H.tells → IsBeforeTheLog result → (H.view shelf.new).files ≡ (H.view shelf.old).files }
    ensures apart { WhereWorking (Some (plain command.now)) (λ number count. (H.view shelf.new) ≡ (H.view shelf.old)) }
    ensures jobs { K.tells → KeepsJobs (job_of (plain command.now)) result (K.view keeper.old) (K.view keeper.new) }
    ensures asked { H.tells → AsksFor (plain command.now) (H.view shelf.old) (H.view shelf.new) }
    ensures unfailed { result ≢ Status.KeepFault → (K.view keeper.new).faults ≡ (K.view keeper.old).faults }
    ensures all_read { result ≢ Status.ReadFault → (H.view shelf.new).reads ≡ (H.view shelf.old).reads }
    ensures all_written { result ≢ Status.WriteFault → (H.view shelf.new).writes ≡ (H.view shelf.old).writes }
    ensures all_put { TellsWhole result → TookAll (O.view out.old) (O.view out.new) }
{
    match command {
        Command::Coins(sources) => coins(alloc, sources, shelf, out),
        Command::Fund(sources, payment, job) => {
            fund(alloc, sources, payment, *job, shelf, out, keeper)
        }
        Command::Resume(sources, payment, job) => {
            resume(alloc, sources, payment, job, shelf, out, keeper)
        }
        Command::Check(sources, payment, report) => {
            check(alloc, sources, payment, report, shelf, out)
        }
        Command::Work(number, count) => work(alloc, *number, *count, out),
        Command::Desk(sources, script) => desk(alloc, sources, script, shelf, out),
        Command::Further(command) => further_commands::act(alloc, command, shelf, out),
    }
}

/// Does what the words say, and ends with a status. What is refused gets its fault line. The clauses on content hold where
/// the shelf, the sink and the keeper tell theirs.
///
/// - `coins WALLET BLOCKS` reads the two files and prints to `out` the listing of the wallet: the tip of its chain, its pending
///   payments and their states, and the coins that may be spent.
/// - `fund WALLET BLOCKS REQUEST LOG` reads three files, funds the payment of the request with its tries, writes the log, and
///   then prints the report. Where the run is unfinished, no log is written: the tries are used up, a search is open, and
///   nothing is taken. With a `JOB` behind these words an unfinished run is kept as that job, before its report is printed,
///   whatever was kept under its name before; the job's digest is that of the bytes that were read.
/// - `resume WALLET BLOCKS REQUEST LOG JOB` goes on with a kept job, with the request's tries, and ends as `fund` does. Where
///   it is unfinished again, the bytes of its log that are new are kept as one part more.
/// - `check WALLET BLOCKS REQUEST REPORT LOG` reads the files of a payment, a report and the log of it, and prints that the
///   report is accepted, and its first line.
/// - `work NUMBER COUNT` makes a wallet of COUNT coins and a request from the number, funds a payment from them, and prints
///   the summary of that run.
/// - `desk WALLET BLOCKS SCRIPT` reads three files, and does the lines of the script at the desk of the wallet: the reply to each
///   is printed before the file is read that the next line names.
/// - `wide WALLET BLOCKS REQUEST LOG` reads three files, and funds the payment of the request without change at the least waste
///   of all choices of a row, whether or not each coin is needed; or at the least that was met, where the tries are used up and
///   the request takes that. It writes the log, and then prints the report.
/// - `share WALLET BLOCKS REQUEST LOG` reads three files, and funds the payment of the request so that its recipients bear the
///   fee in equal shares. Its coins are the lightest choice of row 1, or else of row 2, that is worth the amounts. It writes the
///   log, and then prints the report.
/// - `sweep WALLET BLOCKS REQUEST` reads three files, and pays all coins of the last row that are worth more than their input's
///   fee and their price to the one recipient of the request. It prints the report, and writes no file.
/// - `settle WALLET REQUEST REPORT TX` reads four files, and prints of the signed transaction what it is and pays, where it is
///   the payment of the report and pays the request's rate by what it truly weighs. No signature is checked.
///
/// Whatever the files and the keeper hold, a payment of `fund` or `resume` spends only coins that may be spent or that the payment
/// which it replaces spends, and pays each recipient exactly and at least the fee. Where its request names a payment, it replaces that one by the rules of
/// BIP 125 ('Implementation Details', 1 to 5), and spends what that one spends. One that is marked exhausted is the best of
/// all that are admissible in its row and stage, and its log is accepted. No selection means that no search of the request
/// has an admissible choice, no draw finds one, and the listed coins alone don't pay. Unfinished comes only where the tries
/// are used up, and going on with a job that unfinished runs of the same files left gives the answer of a run without a stop.
/// Of `wide` exhausted and no selection say the same of all choices without change. Of `share` a payment and no selection say
/// it of the lightest choices of rows 1 and 2.
pub fn run<H: Shelf, O: Sink, K: Keeper>(
    alloc: Global,
    words: &Vec<String>,
    shelf: &mut H,
    out: &mut O,
    keeper: &mut K,
) -> Status
    // Words that are no command are told as that, and only these.
    ensures usage { TellsUsage (outside H.tells O.tells K.tells (H.view shelf.old) (H.view shelf.new) (O.view out.old) (O.view out.new) (K.view keeper.old) (K.view keeper.new)) (command_of words.now.items) result }

    // Each end has its own field, by its status. `done`: a funded payment spends coins that may be spent, all listed ones among them.
    // It pays each recipient exactly and in order, and at least the fee of its declared weight.
    ensures ends { EndsByStatus (outside H.tells O.tells K.tells (H.view shelf.old) (H.view shelf.new) (O.view out.old) (O.view out.new) (K.view keeper.old) (K.view keeper.new)) (command_of words.now.items) result }

    // A failed read, write of the log or keeper is told as that. An output that failed or found no memory is never told as success.
    ensures honest { TellsFailures (outside H.tells O.tells K.tells (H.view shelf.old) (H.view shelf.new) (O.view out.old) (O.view out.new) (K.view keeper.old) (K.view keeper.new)) result }

    // What stays: the files but the log, and the jobs but the one that is named.
    ensures stays { LeavesOthers (outside H.tells O.tells K.tells (H.view shelf.old) (H.view shelf.new) (O.view out.old) (O.view out.new) (K.view keeper.old) (K.view keeper.new)) (command_of words.now.items) result }

    // What is read: the files that the words name, and those that a desk's script names; in their order, each at its place.
    ensures reads { ReadsInOrder (outside H.tells O.tells K.tells (H.view shelf.old) (H.view shelf.new) (O.view out.old) (O.view out.new) (K.view keeper.old) (K.view keeper.new)) (command_of words.now.items) }

    // Going on with a job, as unfinished runs of the same files left it, gives the answer of a run without a stop.
    ensures uninterrupted { GoesOn (outside H.tells O.tells K.tells (H.view shelf.old) (H.view shelf.new) (O.view out.old) (O.view out.new) (K.view keeper.old) (K.view keeper.new)) (command_of words.now.items) result }

    // What the files, the job, or a report or transaction that is judged call for is refused, or memory wanted, where no read failed,
    // even if the sink fails.
    ensures refused { RefusesFirst (outside H.tells O.tells K.tells (H.view shelf.old) (H.view shelf.new) (O.view out.old) (O.view out.new) (K.view keeper.old) (K.view keeper.new)) (command_of words.now.items) result }

    // Where nothing fails, the status is the one that is due, or out of memory.
    ensures complete { TellsDue (outside H.tells O.tells K.tells (H.view shelf.old) (H.view shelf.new) (O.view out.old) (O.view out.new) (K.view keeper.old) (K.view keeper.new)) (command_of words.now.items) result }
{
    match parse(words.as_slice()) {
        None => {
            put_line(USAGE_LINE, out);
            Status::Usage
        }
        Some(command) => act(alloc, &command, shelf, out, keeper),
    }
}

//! What a command prints and writes.

ghost use Rattle.std.specs.Prelude.{◌≡◌, ◌≢◌, ◌⊎◌, ◌++◌, codes};
ghost use Rattle.fund_shelf.specs.Causes.{CountsNeverFall, NeverFall, SameElsewhere};
ghost use Rattle.command_end.specs.AnswerLines.{IsAnswered};
ghost use Rattle.command_end.specs.Lines.{GotLine, fault_line};
ghost use Rattle.command_end.specs.Parts.{parts_text};
ghost use Rattle.command_end.specs.Printed.{IsEnd, IsPut, IsUnwritten, IsWithoutMemory, TookAll};

use crate::parts::{Part, named};
use crate::putting::put_words;
use crate::status::Status;
use fund_shelf::{Fault, Shelf, Sink, put_all};

/// The line of being out of memory.
const MEMORY_LINE: &[u8] = b"fault memory\n";

/// The line of a keeper of jobs that failed.
const KEEP_LINE: &[u8] = b"fault keep\n";

/// Puts a line. Where the sink fails it has got a part.
pub fn put_line<O: Sink>(line: &[u8], out: &mut O)
    ensures line { O.tells → GotLine line.now (O.view out.old) (O.view out.new) }
    ensures counts { CountsNeverFall (O.view out.old) (O.view out.new) }
{
    let _ = put_all(out, line);
}

/// Puts the line of being out of memory.
pub fn out_of_memory<O: Sink>(out: &mut O) -> Status
    ensures is { result ≡ Status.Memory }
    ensures line { O.tells → GotLine (fault_line (codes "memory")) (O.view out.old) (O.view out.new) }
    ensures counts { CountsNeverFall (O.view out.old) (O.view out.new) }
{
    put_line(MEMORY_LINE, out);
    Status::Memory
}

/// Puts the line of a keeper of jobs that failed.
pub fn refuse_keep<O: Sink>(out: &mut O) -> Status
    ensures is { result ≡ Status.KeepFault }
    ensures line { O.tells → GotLine (fault_line (codes "keep")) (O.view out.old) (O.view out.new) }
    ensures counts { CountsNeverFall (O.view out.old) (O.view out.new) }
{
    put_line(KEEP_LINE, out);
    Status::KeepFault
}

/// Puts the fault line of these words, and answers the status. It takes no memory, so that what is known isn't told as want of
/// memory.
pub fn put_fault<O: Sink>(words: &[Part], status: Status, out: &mut O) -> Status
    ensures is { result ≡ status }
    ensures line { O.tells → GotLine (fault_line (parts_text words.now)) (O.view out.old) (O.view out.new) }
    ensures answered { IsAnswered O.tells (parts_text words.now) status (O.view out.old) (O.view out.new) result }
    ensures counts { CountsNeverFall (O.view out.old) (O.view out.new) }
{
    let _ = put_words(words, out);
    status
}

/// Puts the line of a log that wasn't written.
fn refuse_write<O: Sink>(log: &str, out: &mut O) -> Status
    ensures is { result ≡ Status.WriteFault }
    ensures line { O.tells → GotLine (fault_line (codes "write " ++ log.now)) (O.view out.old) (O.view out.new) }
    ensures counts { CountsNeverFall (O.view out.old) (O.view out.new) }
{
    put_fault(&named("write ", log), Status::WriteFault, out)
}

/// Puts the report or the listing, and answers the status, or that of a sink that failed or found no memory. A put that
/// failed is told, even if what was left has been put since.
pub fn put_report<O: Sink>(report: &[u8], status: Status, out: &mut O) -> Status
    ensures ends { IsPut O.tells report.now status (O.view out.old) (O.view out.new) result }
    ensures all_put { result ≢ Status.WriteFault → result ≢ Status.Memory → TookAll (O.view out.old) (O.view out.new) }
    ensures counts { CountsNeverFall (O.view out.old) (O.view out.new) }
{
    match put_all(out, report) {
        Ok(()) => status,
        Err(Fault::Failed) => Status::WriteFault,
        Err(Fault::Memory) => Status::Memory,
    }
}

/// Makes `text` the log, which is the file `log`, and then puts the report.
pub fn finish<H: Shelf, O: Sink>(
    log: &str,
    text: &[u8],
    report: &[u8],
    status: Status,
    shelf: &mut H,
    out: &mut O,
) -> Status
    // The status that was given, or that of a log or a report that failed.
    ensures kinds { (result ≡ status) ⊎ ((result ≡ Status.WriteFault) ⊎ (result ≡ Status.Memory)) }

    // The log is written and the report is put whole.
    ensures log { H.tells → result ≡ status → IsEnd status → (H.view shelf.new).files log.now ≡ text.now }
    ensures report { O.tells → result ≡ status → IsEnd status → (O.view out.new).written ≡ (O.view out.old).written ++ report.now }

    // What fails, and what is there then.
    ensures write_fault { result ≡ Status.WriteFault → IsEnd status → IsUnwritten H.tells O.tells log.now text.now report.now (H.view shelf.old) (H.view shelf.new) (O.view out.old) (O.view out.new) }
    ensures memory { result ≡ Status.Memory → IsEnd status → IsWithoutMemory H.tells O.tells log.now text.now report.now (H.view shelf.old) (H.view shelf.new) (O.view out.old) (O.view out.new) }

    // A write that failed is told as that, and as nothing else; and an output that failed is never told as success.
    ensures all_written { result ≢ Status.WriteFault → (H.view shelf.new).writes ≡ (H.view shelf.old).writes }
    ensures all_put { result ≢ Status.WriteFault → result ≢ Status.Memory → TookAll (O.view out.old) (O.view out.new) }

    // What stays.
    ensures others { H.tells → SameElsewhere log.now (H.view shelf.old).files (H.view shelf.new).files }
    ensures reads { (H.view shelf.new).reads ≡ (H.view shelf.old).reads }
    ensures asked { (H.view shelf.new).asked ≡ (H.view shelf.old).asked }
    ensures writes { NeverFall (H.view shelf.old).writes (H.view shelf.new).writes }
    ensures counts { CountsNeverFall (O.view out.old) (O.view out.new) }
{
    match shelf.write_file(log, text) {
        Ok(()) => put_report(report, status, out),
        Err(Fault::Failed) => refuse_write(log, out),
        Err(Fault::Memory) => out_of_memory(out),
    }
}

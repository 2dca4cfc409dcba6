//! The fault line of a payment that isn't told to be settled.

ghost use Rattle.std.specs.Prelude.{◌≡◌, ◌++◌, codes};
ghost use Rattle.fund_shelf.specs.Causes.{CountsNeverFall};
ghost use Rattle.command_end.specs.AnswerLines.{IsAnswered};
ghost use Rattle.command_end.specs.Lines.{GotLine, fault_line};
ghost use Rattle.command_end.specs.Parts.{parts_text};
ghost use Rattle.command_end.specs.Words.{tx_fault_words};
ghost use Rattle.command_settle.specs.Names.{name_of, plain_names};
ghost use Rattle.command_settle.specs.Outcome.{status_of_cause};
ghost use Rattle.command_settle.specs.Stops.{IsStopped, cause_of, stop_status};
ghost use Rattle.command_settle.specs.Words.{refusal_words};

use crate::names::SettleNames;
use crate::stop::{Refusal, SettleFile, Stop};
use crate::words::unsettled_parts;
use command_end::{
    Part, Status, out_of_memory, put_fault, refuse_file, refuse_read, tx_fault_part,
};
use fund_shelf::Sink;
use tx_codec::TxFault;

/// The name of a file.
fn name_of<'a>(names: &SettleNames<'a>, file: SettleFile) -> &'a str
    ensures { result.now ≡ name_of (plain_names names.now) file }
{
    match file {
        SettleFile::Wallet => names.wallet,
        SettleFile::Request => names.request,
        SettleFile::Report => names.report,
        SettleFile::Tx => names.tx,
    }
}

/// What the line of bytes that are no transaction says behind the word `fault`.
fn tx_parts<'a>(fault: TxFault) -> [Part<'a>; 2]
    ensures { parts_text result ≡ codes "input tx " ++ tx_fault_words fault }
{
    [Part::Text("input tx "), tx_fault_part(fault)]
}

/// Puts the line of a refusal, and answers its status. It takes no memory.
fn refuse<O: Sink>(refusal: &Refusal, out: &mut O) -> Status
    ensures is { result ≡ status_of_cause (cause_of refusal.now) }
    ensures answered { IsAnswered O.tells (refusal_words refusal.now) (status_of_cause (cause_of refusal.now)) (O.view out.old) (O.view out.new) result }
    ensures counts { CountsNeverFall (O.view out.old) (O.view out.new) }
{
    match refusal {
        Refusal::File(refusal) => refuse_file(refusal, out),
        Refusal::LongReport => put_fault(&[Part::Text("limit report")], Status::Limit, out),
        Refusal::LongTx => put_fault(&[Part::Text("limit tx")], Status::Limit, out),
        Refusal::NotHex => put_fault(&[Part::Text("input tx Hex")], Status::Input, out),
        Refusal::NotTx(fault) => put_fault(&tx_parts(*fault), Status::Input, out),
        Refusal::Unsettled(fault) => put_fault(&unsettled_parts(*fault), Status::Settle, out),
    }
}

/// Puts the line of a stop, and answers its status, without memory.
pub fn answer<O: Sink>(names: &SettleNames, stop: Stop, out: &mut O) -> Status
    ensures is { result ≡ stop_status stop }
    ensures answered { IsStopped O.tells (plain_names names.now) stop (O.view out.old) (O.view out.new) result }
    ensures read { (file : SettleFile) → stop ≡ Stop.Read file → result ≡ Status.ReadFault }
    ensures counts { CountsNeverFall (O.view out.old) (O.view out.new) }
{
    match stop {
        Stop::Read(file) => refuse_read(name_of(names, file), out),
        Stop::Refused(refusal) => refuse(&refusal, out),
        Stop::Memory => out_of_memory(out),
    }
}

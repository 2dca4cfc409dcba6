//! The command that looks whether a signed transaction is the payment that was to be signed.

use crate::json::{print, settlement_value};
use crate::plain::{files_told, is_given, names_in, refuse, show, tell};
use command_end::{Part, Status, psbt_fault_parts, put_fault};
use command_pay::fee_line;
use command_settle::{SettleNames, Stop as SettleStop, answer};
use fund_base::Memory;
use fund_shelf::{Shelf, SureSink};
use psbt_codec::PsbtFault;
use settle_table::{Settlement, Stop, settlement_of, table_text, unfinished_text, unsigned_text};
use signed_psbt::SignedFault;
use std::alloc::Global;
use std::io;

/// What is said of words that don't name the files.
const USAGE: &str =
    "settle takes the name of the signed transaction, and behind a flag each those of the payment's files: --wallet FILE --request FILE --report FILE TX.";

/// Whether a word is a flag behind which a name stands.
fn names_file(word: &str) -> bool {
    word == "--wallet" || word == "--request" || word == "--report"
}

/// Whether a word is a flag.
pub fn is_flag(word: &str) -> bool {
    match word.as_bytes() {
        [first, second, ..] => *first == b'-' && *second == b'-',
        _ => false,
    }
}

/// The word behind a flag; none where the flag isn't given, or no name stands behind it.
pub fn name_behind<'a>(words: &'a [String], flag: &str) -> Option<&'a str> {
    for i in 0..words.len() {
        if words[i].as_str() == flag {
            return match words.get(i.wrapping_add(1)) {
                Some(name) if !is_flag(name.as_str()) => Some(name.as_str()),
                _ => None,
            };
        }
    }
    None
}

/// The first word that is no flag and stands behind none.
fn name_alone<'a>(words: &'a [String]) -> Option<&'a str> {
    let mut named = false;
    for word in words {
        if !named && !is_flag(word.as_str()) {
            return Some(word.as_str());
        }
        named = names_file(word.as_str());
    }
    None
}

/// The names of the files; none where the words don't give each of them once and nothing else.
fn settle_names<'a>(words: &'a [String]) -> Option<SettleNames<'a>> {
    if words.len() != 7 {
        return None;
    }
    Some(SettleNames {
        wallet: name_behind(words, "--wallet")?,
        request: name_behind(words, "--request")?,
        report: name_behind(words, "--report")?,
        tx: name_alone(words)?,
    })
}

/// The table of a settled payment.
fn table_of(alloc: Global, settlement: &Settlement) -> Result<String, Memory> {
    let settled = &settlement.settled;
    let fee = fee_line(alloc, settled.fee, settled.vsize)?;
    table_text(alloc, settlement, fee.as_str())
}

/// Says that there is too little memory.
fn show_memory(rt: &HostRuntime, json: bool) -> io::Result<u8> {
    show(rt, json, Status::Memory, b"fault memory\n")
}

/// Shows a settled payment.
fn show_settlement(rt: &HostRuntime, json: bool, settlement: &Settlement) -> io::Result<u8> {
    if json {
        return match settlement_value(rt.alloc(), settlement) {
            Ok(value) => {
                print(rt, &value)?;
                Ok(Status::Done.code())
            }
            Err(Memory) => show_memory(rt, true),
        };
    }
    match table_of(rt.alloc(), settlement) {
        Ok(text) => {
            rt.print(text.as_str())?;
            Ok(Status::Done.code())
        }
        Err(Memory) => show_memory(rt, false),
    }
}

/// What is shown of a signed transaction.
#[derive(Drop)]
enum Seen {
    /// It settles the payment.
    Settled(Settlement),
    /// It doesn't, or a file wasn't read or is refused: the line, and the status.
    Line(Status, Vec<u8>),
    /// An input of its PSBT isn't final: a sentence.
    Sentence(String),
}

/// Why the file of the transaction is no PSBT.
fn seen_psbt_fault(alloc: Global, fault: PsbtFault) -> Result<Seen, Memory> {
    let mut out = SureSink::new(alloc);
    let [first, second] = psbt_fault_parts(fault);
    let parts = [Part::Text("input psbt "), first, second];
    let status = put_fault(&parts, Status::Input, &mut out);
    Ok(Seen::Line(status, Vec::from_slice(alloc, out.written())?))
}

/// Why the command stops.
fn seen_stop(alloc: Global, names: &SettleNames, stop: SettleStop) -> Result<Seen, Memory> {
    let mut out = SureSink::new(alloc);
    let status = answer(names, stop, &mut out);
    Ok(Seen::Line(status, Vec::from_slice(alloc, out.written())?))
}

/// Why a payment isn't shown to be settled.
fn seen_unsettled(alloc: Global, names: &SettleNames, stop: Stop) -> Result<Seen, Memory> {
    match stop {
        Stop::Settle(stop) => seen_stop(alloc, names, stop),
        Stop::Psbt(SignedFault::Psbt(fault)) => seen_psbt_fault(alloc, fault),
        Stop::Psbt(SignedFault::Unsigned(index)) => {
            Ok(Seen::Sentence(unsigned_text(alloc, index)?))
        }
        Stop::Psbt(SignedFault::Witness(index)) => {
            Ok(Seen::Sentence(unfinished_text(alloc, index)?))
        }
    }
}

/// The settlement of the files of these names; or why there is none.
fn settlement_over<H: Shelf>(
    alloc: Global,
    names: &SettleNames,
    shelf: &mut H,
) -> Result<Settlement, Stop> {
    settlement_of(alloc, names, shelf)
}

/// What is shown of the files of these names.
fn seen_in<H: Shelf>(alloc: Global, names: &SettleNames, shelf: &mut H) -> Result<Seen, Memory> {
    match settlement_over(alloc, names, shelf) {
        Ok(settlement) => Ok(Seen::Settled(settlement)),
        Err(stop) => seen_unsettled(alloc, names, stop),
    }
}

/// Does `settle` with the words behind it.
pub fn settle(rt: &HostRuntime, words: &[String]) -> io::Result<u8> {
    let json = is_given(words, "--json");
    let given = names_in(rt, words)?;
    let Some(names) = settle_names(given.as_slice()) else {
        return refuse(rt, words, USAGE);
    };
    let mut shelf = files_told(rt, words);
    match seen_in(rt.alloc(), &names, &mut shelf) {
        Ok(Seen::Settled(settlement)) => show_settlement(rt, json, &settlement),
        Ok(Seen::Line(status, line)) => show(rt, json, status, &line),
        Ok(Seen::Sentence(said)) => tell(rt, json, Status::Settle, "", Some(said.as_str())),
        Err(Memory) => show_memory(rt, json),
    }
}

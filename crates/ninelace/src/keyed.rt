//! The command that pays and tells of keys in the PSBT, as people see it.

use crate::listed::Listed;
use crate::pay::{
    There, refuse_fault, refuse_file, refuse_words, show_ending, show_payment, there_in,
};
use crate::plain::{files_told, is_given, show};
use command_end::Status;
use command_pay::NewFileShelf;
use fund_shelf::{FileShelf, Shelf, Sink, SureSink};
use keyed_pay::{KeyedEnding, pay_keyed};
use keys_files::{read_keys_file, refuse_keys, refuse_unkeyed};
use keys_text::Keys;
use pay_words::{Asked, Flag, WordFault};
use payment_files::NewFile;
use psbt_keys::KeyFault;
use std::alloc::Global;
use std::io;

/// The keys of the file of this name; or the status of its refusal, of which the line is put.
fn keys_or_said<H: Shelf, O: Sink>(
    alloc: Global,
    name: &str,
    shelf: &mut H,
    out: &mut O,
) -> Result<Keys, Status> {
    match read_keys_file(alloc, name, shelf) {
        Ok(keys) => Ok(keys),
        Err(stop) => Err(refuse_keys(name, &stop, out)),
    }
}

/// Says what keeps keys from the PSBT of a payment.
fn refuse_fault_of_keys(rt: &HostRuntime, json: bool, fault: KeyFault) -> io::Result<u8> {
    let mut out = SureSink::new(rt.alloc());
    let status = refuse_unkeyed(fault, &mut out);
    show(rt, json, status, out.written())
}

/// Shows how a payment with keys ended.
fn show_keyed(
    rt: &HostRuntime,
    asked: &Asked,
    listed: Option<&Listed>,
    there: There,
    ending: KeyedEnding,
) -> io::Result<u8> {
    match ending {
        KeyedEnding::Keyed(report, _, psbt) => show_payment(rt, asked, &report, &psbt),
        KeyedEnding::Unkeyed(fault) => refuse_fault_of_keys(rt, asked.json, fault),
        KeyedEnding::Unwritten => refuse_file(rt, asked, NewFile::Psbt, there),
        KeyedEnding::Memory => show(rt, asked.json, Status::Memory, b"fault memory\n"),
        KeyedEnding::Unpaid(ending) => show_ending(rt, asked, listed, there, &ending),
    }
}

/// Pays what the words ask for over these files, which are given up, with new files at another shelf.
fn pay_over<H: Shelf + Drop, N: Shelf>(
    alloc: Global,
    words: &[String],
    drawn: [u8; 32],
    keys: &Keys,
    files: H,
    new_files: &mut N,
) -> Result<(Asked, KeyedEnding), WordFault> {
    let (ended, _) = pay_keyed(alloc, words, drawn, keys, files, new_files);
    match ended {
        Ok((asked, psbt, ending)) => {
            let mut asked = asked;
            asked.names.psbt = psbt;
            Ok((asked, ending))
        }
        Err(fault) => Err(fault),
    }
}

/// Pays what the words ask for, with these keys in the PSBT.
fn pay_with(
    rt: &HostRuntime,
    words: &[String],
    listed: Option<&Listed>,
    drawn: [u8; 32],
    keys: &Keys,
) -> io::Result<u8> {
    let there = there_in(rt, words)?;
    let files = files_told(rt, words);
    let mut new_files = NewFileShelf::new(rt);
    match pay_over(rt.alloc(), words, drawn, keys, files, &mut new_files) {
        Ok((asked, ending)) => show_keyed(rt, &asked, listed, there, ending),
        Err(fault) => refuse_fault(rt, words, listed, &fault),
    }
}

/// Does what the words ask for, with the keys of the file of this name in the PSBT. A file that isn't taken makes no payment.
pub fn pay_with_keys(
    rt: &HostRuntime,
    words: &[String],
    listed: Option<&Listed>,
    drawn: [u8; 32],
    name: &str,
) -> io::Result<u8> {
    if name.is_empty() {
        return refuse_words(rt, words, &WordFault::EmptyName(Flag::Keys));
    }
    let mut shelf = FileShelf::new(rt);
    let mut out = SureSink::new(rt.alloc());
    match keys_or_said(rt.alloc(), name, &mut shelf, &mut out) {
        Ok(keys) => pay_with(rt, words, listed, drawn, &keys),
        Err(status) => show(rt, is_given(words, "--json"), status, out.written()),
    }
}

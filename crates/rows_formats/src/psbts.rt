//! PSBTs read and written, as bytes and as text.
//!
//! - `read BYTES`, `armored TEXT`: the unsigned transaction and what its inputs spend, or why the PSBT wasn't read
//! - `again VERSION BYTES`: what is written in a version of a PSBT that was read
//! - `spelled TEXT`: the version of a PSBT in base64, and what is written in it
//! - `make VERSION VALUE SCRIPT ..`: the PSBT of a version, in base64, of a transaction that is made as a row `tx make` says, behind
//!   value and script of the output that it spends
//! - `armor BYTES`, `unarmor TEXT`: bytes as base64, and base64 as bytes

use crate::shown::put_shown;
use crate::transactions;
use command_end::psbt_fault_parts;
use fund_base::Memory;
use psbt_codec::{
    Psbt, PsbtFault, Spent, from_text, read_psbt, read_text, to_text, write_psbt, write_text,
};
use row_columns::{Answer, bytes_in, column, short_in};
use std::alloc::Global;
use tx_codec::{txid, write_tx};

pub(crate) fn put_fault(out: &mut Answer, fault: &PsbtFault) {
    crate::shown::put_fault(out, "fault ", &psbt_fault_parts(*fault));
}

/// Puts what is known of a spent output: the txid of the whole transaction, and its value and script. `-` stands for what
/// isn't known.
fn put_spent(out: &mut Answer, spent: &Spent) {
    match &spent.whole {
        Some(tx) => put_shown(out, " ", txid(tx).bytes()),
        None => out.word(" -"),
    }
    match &spent.paid {
        Some(paid) => {
            out.number(",", paid.value.get());
            out.digits(":", paid.script.bytes());
        }
        None => out.word(",-"),
    }
}

/// Puts the unsigned transaction and what its inputs spend.
fn put_psbt(out: &mut Answer, psbt: &Psbt) {
    out.written("ok ", write_tx(out.alloc, &psbt.tx));
    out.word(" inputs");
    for spent in &psbt.spent {
        put_spent(out, spent);
    }
}

fn read(out: &mut Answer, bytes: &[u8]) {
    match read_psbt(out.alloc, bytes) {
        Ok(psbt) => put_psbt(out, &psbt),
        Err(fault) => put_fault(out, &fault),
    }
}

fn armored(out: &mut Answer, text: &str) {
    match from_text(out.alloc, text.as_bytes()) {
        Ok(bytes) => read(out, &bytes),
        Err(fault) => put_fault(out, &fault),
    }
}

fn again(out: &mut Answer, version: u32, bytes: &[u8]) {
    match read_psbt(out.alloc, bytes) {
        Ok(psbt) => out.written("", write_psbt(out.alloc, &psbt, version)),
        Err(fault) => put_fault(out, &fault),
    }
}

fn spelled(out: &mut Answer, text: &str) {
    match read_text(out.alloc, text.as_bytes()) {
        Ok(read) => {
            out.number("version ", u64::from(read.version));
            out.words("\n", write_text(out.alloc, &read.psbt, read.version));
        }
        Err(fault) => put_fault(out, &fault),
    }
}

fn unarmor(out: &mut Answer, text: &str) {
    match from_text(out.alloc, text.as_bytes()) {
        Ok(bytes) => out.digits("", &bytes),
        Err(fault) => put_fault(out, &fault),
    }
}

/// The PSBT of the columns.
fn made(alloc: Global, columns: &[&str]) -> Result<Psbt, Memory> {
    let paid = transactions::output(alloc, column(columns, 1), column(columns, 2))?;
    let mut spent = Vec::new(alloc);
    spent.push(Spent {
        whole: None,
        paid: Some(paid),
    })?;
    let tx = transactions::made(alloc, columns.get(3..).unwrap_or(&[]))?;
    Ok(Psbt { tx, spent })
}

fn make(out: &mut Answer, columns: &[&str]) {
    let version = short_in(column(columns, 0));
    match made(out.alloc, columns) {
        Ok(psbt) => out.words("", write_text(out.alloc, &psbt, version)),
        Err(Memory) => out.lack(),
    }
}

fn armor(out: &mut Answer, bytes: &[u8]) {
    match to_text(out.alloc, bytes) {
        Ok(text) => out.put(&text),
        Err(Memory) => out.lack(),
    }
}

/// Writes the PSBT of the second column in the version of the first.
fn write(out: &mut Answer, columns: &[&str]) {
    let bytes = bytes_in(out.alloc, column(columns, 1));
    again(out, short_in(column(columns, 0)), &bytes);
}

pub(crate) fn row(out: &mut Answer, verb: &str, columns: &[&str]) {
    let text = column(columns, 0);
    let bytes = bytes_in(out.alloc, text);
    match verb {
        "read" => read(out, &bytes),
        "armored" => armored(out, text),
        "again" => write(out, columns),
        "spelled" => spelled(out, text),
        "make" => make(out, columns),
        "armor" => armor(out, &bytes),
        "unarmor" => unarmor(out, text),
        _ => out.word("no such verb"),
    }
}

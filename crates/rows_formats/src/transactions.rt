//! Transactions read and written.
//!
//! - `read BYTES`: the txid, the weight and the form of a whole transaction, and whether it is written as it was read
//! - `three BYTES`: three transactions, one after the other, each with the place after it
//! - `legacy BYTES`: a whole transaction in the legacy form
//! - `make VERSION TXID INDEX SCRIPT SEQUENCE VALUE SCRIPT LOCKTIME WITNESS..`: the transaction of one input and one output that
//!   is made so, and the texts of its copy. Without a witness it has the legacy form.

use crate::shown::{put_fault, put_shown};
use command_end::tx_fault_part;
use fund_base::{Cursor, MAX_MONEY, Memory, Sat};
use row_columns::{Answer, bytes_in, column, number_within, point_in, script_in, short_in};
use std::alloc::Global;
use tx_codec::{
    Tx, TxFault, TxIn, TxOut, Witness, read_tx, read_whole_legacy_tx, read_whole_tx, signals, txid,
    weight, write_bare_tx, write_tx, write_tx_out,
};

/// Puts the txid, the weight and the form of a transaction.
fn put_tx(out: &mut Answer, tx: &Tx) {
    put_shown(out, "ok txid ", txid(tx).bytes());
    out.number(" weight ", weight(tx));
    out.flag(" segwit ", tx.segwit);
}

/// Puts what was read, or why it wasn't.
fn put_read(out: &mut Answer, read: &Result<Tx, TxFault>) {
    match read {
        Ok(tx) => put_tx(out, tx),
        Err(fault) => put_fault(out, "fault ", &[tx_fault_part(*fault)]),
    }
}

/// Puts whether a transaction is written as these bytes.
fn put_again(out: &mut Answer, tx: &Tx, bytes: &[u8]) {
    match write_tx(out.alloc, tx) {
        Ok(again) if again.as_slice() == bytes => out.word(" written again"),
        Ok(_) => out.word(" written otherwise"),
        Err(Memory) => out.lack(),
    }
}

fn whole(out: &mut Answer, bytes: &[u8]) {
    let read = read_whole_tx(out.alloc, bytes);
    put_read(out, &read);
    if let Ok(tx) = &read {
        put_again(out, tx, bytes);
    }
}

/// Puts the transaction at a cursor, and the place after it.
fn put_next(out: &mut Answer, cursor: &mut Cursor) {
    let read = read_tx(out.alloc, cursor);
    put_read(out, &read);
    out.number(" place ", cursor.place());
}

fn three(out: &mut Answer, bytes: &[u8]) {
    let mut cursor = Cursor::new(bytes);
    put_next(out, &mut cursor);
    out.word("; ");
    put_next(out, &mut cursor);
    out.word("; ");
    put_next(out, &mut cursor);
}

/// The items of the columns from the ninth on.
fn witness(alloc: Global, columns: &[&str]) -> Result<Witness, Memory> {
    let mut items = Vec::new(alloc);
    for number in 8..columns.len() {
        items.push(bytes_in(alloc, column(columns, number)))?;
    }
    Ok(Witness::new(items))
}

/// The output of a value and a script. An amount above all money is refused as if there weren't enough memory.
pub(crate) fn output(alloc: Global, value: &str, script: &str) -> Result<TxOut, Memory> {
    let Some(value) = Sat::new(number_within(value, MAX_MONEY)) else {
        return Err(Memory);
    };
    Ok(TxOut {
        value,
        script: script_in(alloc, script),
    })
}

/// The one input of the columns.
fn inputs(alloc: Global, columns: &[&str]) -> Result<Vec<TxIn>, Memory> {
    let witness = witness(alloc, columns)?;
    let mut inputs = Vec::new(alloc);
    inputs.push(TxIn {
        prev: point_in(column(columns, 1), column(columns, 2)),
        script: script_in(alloc, column(columns, 3)),
        sequence: short_in(column(columns, 4)),
        witness,
    })?;
    Ok(inputs)
}

/// The one output of the columns.
fn outputs(alloc: Global, columns: &[&str]) -> Result<Vec<TxOut>, Memory> {
    let output = output(alloc, column(columns, 5), column(columns, 6))?;
    let mut outputs = Vec::new(alloc);
    outputs.push(output)?;
    Ok(outputs)
}

/// The transaction of the columns.
pub(crate) fn made(alloc: Global, columns: &[&str]) -> Result<Tx, Memory> {
    let outputs = outputs(alloc, columns)?;
    let inputs = inputs(alloc, columns)?;
    Ok(Tx {
        version: short_in(column(columns, 0)),
        inputs,
        outputs,
        locktime: short_in(column(columns, 7)),
        segwit: columns.len() > 8,
    })
}

/// Puts the texts of a transaction: with its witnesses, without them, and of its outputs.
fn put_texts(out: &mut Answer, tx: &Tx) {
    out.written(" whole ", write_tx(out.alloc, tx));
    out.written(" bare ", write_bare_tx(out.alloc, tx));
    for output in &tx.outputs {
        out.written(" output ", write_tx_out(out.alloc, output));
    }
}

/// Puts a transaction that was made, and the texts of its copy.
fn put_made(out: &mut Answer, tx: &Tx) {
    put_tx(out, tx);
    out.flag(" signals ", signals(tx));
    match tx.copy(out.alloc) {
        Ok(copy) => put_texts(out, &copy),
        Err(Memory) => out.lack(),
    }
}

pub(crate) fn row(out: &mut Answer, verb: &str, columns: &[&str]) {
    let bytes = bytes_in(out.alloc, column(columns, 0));
    match verb {
        "read" => whole(out, &bytes),
        "three" => three(out, &bytes),
        "legacy" => put_read(out, &read_whole_legacy_tx(out.alloc, &bytes)),
        "make" => match made(out.alloc, columns) {
            Ok(tx) => put_made(out, &tx),
            Err(Memory) => out.lack(),
        },
        _ => out.word("no such verb"),
    }
}

//! Bytes read from left to right, numbers read and written, amounts, and the order of outpoints.
//!
//! - `cursor BYTES STEP..`: what the steps give, one after the other
//! - `decimal MOST TEXT`: the number of at most so much that a text spells, its bytes in hex
//! - `money N`: the amount of so many satoshi
//! - `spell N`: the number as CompactSize, and how many bytes were counted; `prefix BYTES`: bytes behind their length
//! - `order TXID INDEX TXID INDEX`: whether two outpoints are the same, and their order

use fund_base::{
    Cursor, CutFault, Length, Sat, compare_outpoints, read_decimal, write_compact, write_prefixed,
};
use row_columns::{Answer, bytes_in, column, number_within, point_in};
use std::cmp::Ordering;

/// Puts a number that was read, or the fault.
fn put_number(out: &mut Answer, read: Result<u64, CutFault>) {
    match read {
        Ok(number) => out.number("", number),
        Err(CutFault::Truncated(place)) => out.number("Truncated ", place),
        Err(CutFault::LongCompact(place)) => out.number("LongCompact ", place),
    }
}

/// Puts a number of 32 bits that was read, or the fault.
fn put_short(out: &mut Answer, read: Result<u32, CutFault>) {
    match read {
        Ok(number) => out.number("", number as u64),
        Err(fault) => put_number(out, Err(fault)),
    }
}

/// Puts bytes that were taken, or the fault.
fn put_taken(out: &mut Answer, taken: Result<&[u8], CutFault>) {
    match taken {
        Ok(bytes) => out.digits("", bytes),
        Err(fault) => put_number(out, Err(fault)),
    }
}

/// Puts what one step gives. `fork` reads a CompactSize by a second cursor.
fn put_step(out: &mut Answer, cursor: &mut Cursor, step: &str) {
    match step {
        "u32" => put_short(out, cursor.u32_le()),
        "u64" => put_number(out, cursor.u64_le()),
        "compact" => put_number(out, cursor.compact()),
        "fork" => put_number(out, cursor.fork().compact()),
        "place" => out.number("", cursor.place()),
        "left" => out.number("", cursor.rest().len() as u64),
        "take-1" => put_taken(out, cursor.take(1)),
        _ => put_taken(out, cursor.take(3)),
    }
}

fn steps(out: &mut Answer, columns: &[&str]) {
    let bytes = bytes_in(out.alloc, column(columns, 0));
    let mut cursor = Cursor::new(&bytes);
    for number in 1..columns.len() {
        out.word(if number > 1 { ", " } else { "" });
        put_step(out, &mut cursor, column(columns, number));
    }
}

/// Puts a number, or `none`.
fn put_found(out: &mut Answer, number: Option<u64>) {
    match number {
        Some(number) => out.number("", number),
        None => out.word("none"),
    }
}

/// The amount of so many satoshi.
fn amount(satoshi: u64) -> Option<u64> {
    Some(Sat::new(satoshi)?.get())
}

fn spell(out: &mut Answer, number: u64) {
    let mut bytes = Vec::new(out.alloc);
    if write_compact(&mut bytes, number).is_err() {
        out.lack();
    }
    let mut length = Length::new();
    let _ = write_compact(&mut length, number);
    out.digits("", &bytes);
    out.number(" counted ", length.get());
}

fn prefix(out: &mut Answer, text: &[u8]) {
    let mut bytes = Vec::new(out.alloc);
    if write_prefixed(&mut bytes, text).is_err() {
        out.lack();
    }
    let mut length = Length::new();
    let _ = write_prefixed(&mut length, text);
    out.digits("", &bytes);
    out.number(" counted ", length.get());
}

fn order(out: &mut Answer, columns: &[&str]) {
    let first = point_in(column(columns, 0), column(columns, 1));
    let second = point_in(column(columns, 2), column(columns, 3));
    let (are_same, order) = compare_outpoints(&first, &second);
    out.flag("", are_same);
    out.word(match order {
        Ordering::Less => " Less",
        Ordering::Equal => " Equal",
        Ordering::Greater => " Greater",
    });
}

pub(crate) fn row(out: &mut Answer, verb: &str, columns: &[&str]) {
    let number = number_within(column(columns, 0), u64::MAX);
    match verb {
        "cursor" => steps(out, columns),
        "decimal" => put_found(
            out,
            read_decimal(&bytes_in(out.alloc, column(columns, 1)), number),
        ),
        "money" => put_found(out, amount(number)),
        "spell" => spell(out, number),
        "prefix" => prefix(out, &bytes_in(out.alloc, column(columns, 0))),
        "order" => order(out, columns),
        _ => out.word("no such verb"),
    }
}

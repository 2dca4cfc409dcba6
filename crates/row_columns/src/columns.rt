//! What single columns stand for. Numbers are decimal.

ghost use Rattle.std.specs.Prelude.{◌≤◌, IfSome};

use crate::problems::places_in;
use fund_base::{Memory, OutPoint, Places, Script, Txid, read_decimal};
use hex::FromHex;
use std::alloc::Global;

/// The column of this number; empty where there is none.
pub fn column<'a>(columns: &[&'a str], number: usize) -> &'a str {
    if number < columns.len() {
        columns[number]
    } else {
        ""
    }
}

/// The number of at most so much that a text is. It has what a caller of this crate needs of the reader of numbers, and no more.
pub(crate) fn whole_in(text: &[u8], most: u64) -> Option<u64>
    ensures { IfSome result (λ n. n ≤ most) }
{
    read_decimal(text, most)
}

/// The number that a column is; another where it is none of 64 bits.
pub fn number_in(column: &str, other: u64) -> u64 {
    match whole_in(column.as_bytes(), u64::MAX) {
        Some(number) => number,
        None => other,
    }
}

/// The number of at most so much that a column is; 0 where it is none.
pub fn number_within(column: &str, most: u64) -> u64
    ensures { result ≤ most }
{
    match whole_in(column.as_bytes(), most) {
        Some(number) => number,
        None => 0,
    }
}

/// The number of 32 bits that a column is; 0 where it is none.
pub fn short_in(column: &str) -> u32 {
    number_within(column, 4_294_967_295) as u32
}

/// The numbers of a column, with blanks between them. What is no number is the greatest of 64 bits.
pub fn numbers_in(alloc: Global, column: &str) -> Result<Vec<u64>, Memory> {
    let mut numbers = Vec::new(alloc);
    for word in column.split(' ') {
        numbers.push(number_in(word, u64::MAX))?;
    }
    Ok(numbers)
}

/// The columns behind the first.
pub fn words_behind(alloc: Global, columns: &[&str]) -> Result<Vec<String>, Memory> {
    let mut words = Vec::new(alloc);
    for number in 1..columns.len() {
        words.push(String::from_str(alloc, column(columns, number))?)?;
    }
    Ok(words)
}

/// The bytes of a column in hex; none where it isn't in hex.
pub fn bytes_in(alloc: Global, column: &str) -> Vec<u8> {
    match hex::decode(alloc, column) {
        Ok(bytes) => bytes,
        Err(_) => Vec::new(alloc),
    }
}

/// The 32 bytes of a column in hex.
pub fn digest_in(column: &str) -> Option<[u8; 32]> {
    <[u8; 32]>::from_hex(column).ok()
}

/// The places of a column, or `none`.
pub fn best_in(alloc: Global, column: &str) -> Result<Option<Places>, Memory> {
    if column == "none" {
        return Ok(None);
    }
    Ok(Some(Places::new(places_in(alloc, column)?)))
}

/// The script of a column in hex.
pub fn script_in(alloc: Global, column: &str) -> Script {
    Script::new(bytes_in(alloc, column))
}

/// The hash of a column in hex, as stored; zeros where it isn't 32 bytes.
pub fn hash_in(column: &str) -> [u8; 32] {
    digest_in(column).unwrap_or([0; 32])
}

/// The outpoint of a txid as stored and an index.
pub fn point_in(txid: &str, index: &str) -> OutPoint {
    OutPoint {
        txid: Txid(hash_in(txid)),
        index: short_in(index),
    }
}

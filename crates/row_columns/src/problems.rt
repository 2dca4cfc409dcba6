//! Problems with their items, and places. Numbers are decimal; the items of a problem are words `VALUE/WEIGHT/COST`, in
//! satoshi, weight units and satoshi.

use crate::columns::{column, number_within, whole_in};
use fund_base::{Memory, Places};
use pick_problem::{Item, Kind, Problem, are_items};
use std::alloc::Global;
use std::rc::Rc;

/// The number of at most 63 bits that a text is.
fn plain_in(text: &[u8]) -> Option<i64> {
    let number = whole_in(text, 9_223_372_036_854_775_807)?;
    Some(number as i64)
}

/// The number that a word is, with a `-` before its digits where it is below 0.
fn signed_in(word: &str) -> Option<i64> {
    match word.split_once('-') {
        Some((_, digits)) => Some(plain_in(digits.as_bytes())?.wrapping_neg()),
        None => plain_in(word.as_bytes()),
    }
}

/// The item of a word `VALUE/WEIGHT/COST`.
fn item(word: &str) -> Option<Item> {
    let (value, rest) = word.split_once('/')?;
    let (weight, cost) = rest.split_once('/')?;
    Some(Item {
        value: whole_in(value.as_bytes(), u64::MAX)?,
        weight: whole_in(weight.as_bytes(), u64::MAX)?,
        cost: signed_in(cost)?,
    })
}

/// The items of a column, with blanks between them; `-` is none.
fn items_in(alloc: Global, column: &str) -> Result<Option<Vec<Item>>, Memory> {
    let mut items = Vec::new(alloc);
    if column == "-" {
        return Ok(Some(items));
    }
    for word in column.split(' ') {
        let Some(item) = item(word) else {
            return Ok(None);
        };
        items.push(item)?;
    }
    Ok(Some(items))
}

/// The problem of these items and numbers. `None` where there can't be one.
fn problem_of(
    alloc: Global,
    items: Vec<Item>,
    kind: &str,
    lo: u64,
    hi: u64,
    most_weight: u64,
) -> Result<Option<Problem>, Memory> {
    if !are_items(&items) || lo < 1 {
        return Ok(None);
    }
    let items = Rc::new(alloc, items)?;
    Ok(match kind {
        "changeless" if lo <= hi => {
            Some(Problem::new(items, lo, hi, most_weight, Kind::Changeless))
        }
        "lean" if lo == hi => Some(Problem::new(items, lo, hi, most_weight, Kind::Lean)),
        _ => None,
    })
}

/// The problem of five columns: `changeless` or `lean`, the least and the greatest value, the limit of weight, the
/// items with blanks between them (`-` for none). A word that is no number is read as 0. `None` where there can't be one.
pub fn problem_in(alloc: Global, columns: &[&str]) -> Result<Option<Problem>, Memory> {
    let Some(items) = items_in(alloc, column(columns, 4))? else {
        return Ok(None);
    };
    let lo = number_within(column(columns, 1), u64::MAX);
    let hi = number_within(column(columns, 2), u64::MAX);
    let most_weight = number_within(column(columns, 3), u64::MAX);
    problem_of(alloc, items, column(columns, 0), lo, hi, most_weight)
}

/// The place that a word is; the greatest `u32` where it is none.
fn place_in(word: &str) -> u32 {
    match whole_in(word.as_bytes(), 4_294_967_295) {
        Some(place) => place as u32,
        None => u32::MAX,
    }
}

/// The places of a column, with blanks between them; `-` is none. A word that is no place is read as the greatest
/// `u32`.
pub fn places_in(alloc: Global, column: &str) -> Result<Vec<u32>, Memory> {
    let mut places = Vec::new(alloc);
    if column == "-" {
        return Ok(places);
    }
    for word in column.split(' ') {
        places.push(place_in(word))?;
    }
    Ok(places)
}

/// Places that may be there, as a slice.
pub fn places_of(places: &Option<Places>) -> Option<&[u32]> {
    match places {
        Some(places) => Some(places.as_slice()),
        None => None,
    }
}

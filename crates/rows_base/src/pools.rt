//! Coins and what payments choose of them: `ladder ZERO_CONF INCLUDE_UNSAFE`, the numbers of the rows; and else behind a verb the
//! coins, and what the verb needs.
//!
//! - `pool ROW RATE GROUP`: the item of each group of the row's pool, how many coins it has, and the first coin's txid
//! - `kept ROW RATE GROUP`: how many groups there are
//! - `meets`: which rows take the first coin by itself
//! - `plan REQUEST`: the change, the figures and the unsigned transaction of the payment, or why there is none

ghost use Rattle.coin_candidates.specs.Candidates.{AreCandidates};

use crate::coins::candidates_in;
use crate::plans::plan;
use coin_candidates::Candidate;
use fund_base::Memory;
use output_groups::{PoolFault, RowPool, ladder, meets, pool};
use pick_problem::Item;
use row_columns::{Answer, column, number_in};

/// Puts the numbers of the rows of a ladder.
fn put_ladder(out: &mut Answer, zero_conf: &str, unsafe_too: &str) {
    out.word("rows");
    for row in ladder(zero_conf == "true", unsafe_too == "true") {
        out.number(" ", u64::from(row.number));
    }
}

/// Puts the item of a group, how many coins it has, and the first one's txid.
fn put_group(out: &mut Answer, item: &Item, coins: &[Candidate]) {
    out.number("", item.value);
    out.number("/", item.weight);
    out.signed("/", i128::from(item.cost));
    out.number(" ", coins.len() as u64);
    let txid = match coins.first() {
        Some(candidate) => candidate.coin.txid.bytes()[0],
        None => 0,
    };
    out.number("*", u64::from(txid));
    out.word("; ");
}

/// Puts each group of a pool, and how many there are.
fn put_groups(out: &mut Answer, pool: &RowPool) {
    for number in 0..pool.items.len() {
        if let Some(group) = pool.groups.get(number) {
            put_group(out, &pool.items[number], group.as_slice());
        }
    }
    out.number("", pool.items.len() as u64);
    out.number(" items, ", pool.groups.len() as u64);
    out.word(" groups");
}

/// Puts a pool, or the number of its groups alone.
fn put_formed(out: &mut Answer, pool: &RowPool, counts: bool) {
    if counts {
        out.number("", pool.groups.len() as u64);
    } else {
        put_groups(out, pool);
    }
}

/// Puts the pool of these coins, or the number of its groups alone, at a rate which is the long-term rate too.
fn put_pool(out: &mut Answer, coins: &[Candidate], columns: &[&str], counts: bool)
    requires { AreCandidates coins.now }
{
    let row = number_in(column(columns, 1), 0) as usize;
    let rate = number_in(column(columns, 2), u64::MAX);
    let rows = ladder(true, true);
    if row < 1 || row > rows.len() || rate > 100_000_000 {
        return out.word("no such row");
    }
    let group = column(columns, 3) == "true";
    match pool(out.alloc, coins, &rows[row - 1], rate, rate, group) {
        Ok(found) => put_formed(out, &found, counts),
        Err(PoolFault::TooMany(groups)) => out.number("TooMany ", groups),
        Err(PoolFault::Memory) => out.lack(),
    }
}

/// Puts the numbers of the rows that take the first coin by itself.
fn put_meets(out: &mut Answer, coins: &[Candidate]) {
    out.word("rows");
    let Some(coin) = coins.first() else {
        return;
    };
    for row in ladder(true, true) {
        if meets(row, coin) {
            out.number(" ", u64::from(row.number));
        }
    }
}

/// Puts what a verb of pools asks of these coins.
fn at_coins(out: &mut Answer, verb: &str, coins: &[Candidate], columns: &[&str])
    requires { AreCandidates coins.now }
{
    match verb {
        "pool" => put_pool(out, coins, columns, false),
        "kept" => put_pool(out, coins, columns, true),
        _ => put_meets(out, coins),
    }
}

/// Puts what a row of coins comes to. The error is out of memory.
fn put_coins(out: &mut Answer, verb: &str, columns: &[&str]) -> Result<(), Memory> {
    let Some(coins) = candidates_in(out.alloc, column(columns, 0))? else {
        out.word("no coins");
        return Ok(());
    };
    if verb == "plan" {
        return plan(out, column(columns, 1), coins);
    }
    at_coins(out, verb, &coins, columns);
    Ok(())
}

/// Puts what a row comes to. The error is out of memory.
pub(crate) fn row(out: &mut Answer, verb: &str, columns: &[&str]) -> Result<(), Memory> {
    if verb == "ladder" {
        put_ladder(out, column(columns, 0), column(columns, 1));
        return Ok(());
    }
    put_coins(out, verb, columns)
}

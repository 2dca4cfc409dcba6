//! Coins as rows spell them: `COUNT*TXID/VALUE/WEIGHT/SCRIPT/DEPTH/mine/safe/ANCESTORS/DESCENDANTS/PRICE` each, with blanks
//! between them, where TXID is one byte of 32 and SCRIPT the second of two. PRICE may be left out for 0. A coin is the
//! output of its place in the list.

ghost use Rattle.std.specs.Prelude.{◌≤◌, IfOk, IfSome, length};
ghost use Rattle.coin_candidates.specs.Candidates.{AreCandidates};

use coin_candidates::Candidate;
use fund_base::{MAX_MONEY, Memory, OutPoint, Script, Txid};
use row_columns::{column, number_in, number_within, short_in};
use std::alloc::Global;

/// What tells coins apart in the rows.
#[derive(Clone, Copy)]
struct Coin {
    txid: u8,
    value: u64,
    weight: u64,
    script: u8,
    depth: u32,
    mine: bool,
    safe: bool,
    ancestors: u32,
    descendants: u32,
    price: u64,
}

/// The coin of these words. A word that is no number is read as 0.
fn coin_of(words: &[&str]) -> Coin {
    Coin {
        txid: number_within(column(words, 0), 255) as u8,
        value: number_in(column(words, 1), 0),
        weight: number_in(column(words, 2), 0),
        script: number_within(column(words, 3), 255) as u8,
        depth: short_in(column(words, 4)),
        mine: column(words, 5) == "mine",
        safe: column(words, 6) == "safe",
        ancestors: short_in(column(words, 7)),
        descendants: short_in(column(words, 8)),
        price: number_in(column(words, 9), 0),
    }
}

/// Puts as many coins as the word says after the others, and tells whether it is one that says so.
fn put_coins(alloc: Global, coins: &mut Vec<Coin>, word: &str) -> Result<bool, Memory> {
    let Some((count, word)) = word.split_once('*') else {
        return Ok(false);
    };
    let words: Vec<&str> = word.split('/').collect(alloc)?;
    let coin = coin_of(&words);
    for _ in 0..short_in(count) {
        coins.push(coin)?;
    }
    Ok(true)
}

/// The coins of a column; `-` is none. `None` where it isn't spelled so.
fn coins_in(alloc: Global, column: &str) -> Result<Option<Vec<Coin>>, Memory> {
    let mut coins = Vec::new(alloc);
    for word in column.split(' ') {
        if word != "-" && !put_coins(alloc, &mut coins, word)? {
            return Ok(None);
        }
    }
    Ok(Some(coins))
}

/// The coins as candidates. What no candidate can be is the nearest that one can.
fn listed(alloc: Global, coins: &[Coin]) -> Result<Vec<Candidate>, Memory>
    requires { length coins.now ≤ 100_000 }
    ensures { IfOk result (λ v. AreCandidates v.items) }
{
    let mut list = Vec::new(alloc);
    for (place, coin) in coins.iter().enumerate() {
        list.push(Candidate {
            coin: OutPoint {
                txid: Txid([coin.txid; 32]),
                index: place as u32,
            },
            value: coin.value.min(MAX_MONEY),
            weight: coin.weight.max(165).min(400_000),
            script: Script::new(Vec::from_slice(alloc, &[0x6a, coin.script])?),
            depth: coin.depth,
            mine: coin.mine,
            safe: coin.safe,
            ancestors: coin.ancestors,
            descendants: coin.descendants,
            price: coin.price.min(MAX_MONEY),
        })?;
    }
    Ok(list)
}

/// The candidates of a column. `None` where it isn't spelled so, or has more than 100,000.
pub(crate) fn candidates_in(alloc: Global, column: &str) -> Result<Option<Vec<Candidate>>, Memory>
    ensures { IfOk result (λ o. IfSome o (λ v. AreCandidates v.items)) }
{
    let Some(coins) = coins_in(alloc, column)? else {
        return Ok(None);
    };
    if coins.len() > 100_000 {
        return Ok(None);
    }
    let list = listed(alloc, &coins)?;
    Ok(Some(list))
}

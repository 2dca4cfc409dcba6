//! Copies of plain types: `plain copies`.

use crate::candidates::put_candidates;
use coin_candidates::Candidate;
use fund_base::{MAX_MONEY, Memory, OutPoint, Places, Script, Txid};
use row_columns::Answer;
use std::alloc::Global;

/// A candidate of this index, of which each other field has another value.
fn candidate(alloc: Global, index: u32) -> Result<Candidate, Memory> {
    Ok(Candidate {
        coin: OutPoint {
            txid: Txid([7; 32]),
            index,
        },
        value: 101_100,
        weight: 272,
        script: Script::new(Vec::from_slice(alloc, b"\x6a\x01")?),
        depth: 11,
        mine: true,
        safe: false,
        ancestors: 2,
        descendants: 5,
        price: 0,
    })
}

/// Puts a line for each coin, and then one for the weight and the script of each.
fn put_coins(out: &mut Answer, coins: &[Candidate]) {
    put_candidates(out, "\ncoin ", coins, false);
    for coin in coins {
        out.number("\nweight ", coin.weight);
        out.digits(" script ", coin.script.bytes());
    }
}

/// Puts a copy of a candidate, copies of a list of two others and of places, and the greatest amount.
fn copies(out: &mut Answer) -> Result<(), Memory> {
    let alloc = out.alloc;
    out.word("copies");
    put_coins(out, &[candidate(alloc, 3)?.copy(alloc)?]);
    let others = [candidate(alloc, 4)?, candidate(alloc, 5)?];
    put_coins(out, &Candidate::copy_all(alloc, &others)?);
    let places = Places::new(Vec::from_slice(alloc, &[0, 2, 5])?);
    out.word("\nplaces");
    for place in places.copy(alloc)?.as_slice() {
        out.number(" ", *place as u64);
    }
    out.number("\ngreatest amount ", MAX_MONEY);
    Ok(())
}

/// Puts copies, and the greatest amount.
pub(crate) fn row(out: &mut Answer) {
    let ended = copies(out);
    out.end(ended);
}

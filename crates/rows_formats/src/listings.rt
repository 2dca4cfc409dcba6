//! Listings of payments and coins.

use crate::words::FIRST;
use coin_candidates::Candidate;
use command_coins::listing;
use fund_base::{Memory, OutPoint, Script, Txid};
use payment_states::{Payment, State};
use std::alloc::Global;

/// The txid that is shown as 62 zeros and this byte's two digits.
fn ending(byte: u8) -> Txid {
    let mut bytes = [0; 32];
    bytes[0] = byte;
    Txid(bytes)
}

/// A payment whose txid is shown as 62 zeros and this byte's two digits.
fn payment(byte: u8, state: State) -> Payment {
    let txid = ending(byte);
    Payment { txid, state }
}

/// A coin of the wallet that is pending, and that a stranger can take back.
fn pending_coin(alloc: Global, byte: u8, index: u32, value: u64) -> Result<Candidate, Memory> {
    let txid = ending(byte);
    Ok(Candidate {
        coin: OutPoint { txid, index },
        value,
        weight: 272,
        script: Script::new(Vec::from_slice(alloc, b"\x51")?),
        depth: 0,
        mine: true,
        safe: false,
        ancestors: 1,
        descendants: 1,
        price: 0,
    })
}

/// The third payment replaces the first, on which the second rests. Its own outputs are coins of depth 0, which the wallet alone paid for
/// and which aren't safe, because it replaces a payment.
pub(crate) fn replaced(alloc: Global) -> Result<String, Memory> {
    let payments = [
        payment(0xa1, State::Replaced(ending(0xe3))),
        payment(0xc2, State::Replaced(ending(0xe3))),
        payment(0xe3, State::Pending),
    ];
    let coins = [
        pending_coin(alloc, 0xe3, 0, 60_000)?,
        pending_coin(alloc, 0xe3, 2, 39_000)?,
    ];
    listing(alloc, 100, &[0; 32], &payments, &coins)
}

/// A listing without payments and coins, and one with the words that the listing of replaced payments lacks.
pub(crate) fn others(alloc: Global) -> Result<String, Memory> {
    let mut text = listing(alloc, 0, &FIRST, &[], &[])?;
    let payments = [
        payment(0xa1, State::Confirmed(840_000)),
        payment(0xc2, State::Conflicted(ending(0xe3))),
        payment(0xe3, State::Abandoned),
    ];
    let mut old = pending_coin(alloc, 0xa1, 4_294_967_295, 2_100_000_000_000_000)?;
    (old.depth, old.mine, old.safe) = (11, false, true);
    (old.ancestors, old.descendants) = (0, 0);
    let mut foreign = pending_coin(alloc, 0xc2, 1, 546)?;
    (foreign.mine, foreign.ancestors, foreign.descendants) = (false, 2, 3);
    let full = listing(alloc, 0, &FIRST, &payments, &[old, foreign])?;
    text.push_str(full.as_str())?;
    Ok(text)
}

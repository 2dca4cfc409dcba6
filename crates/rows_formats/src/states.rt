//! What has become of a wallet's payments, and what it may spend. Of each txid the first four digits are put, but for coins that
//! are put by themselves.

ghost use Rattle.std.specs.Prelude.{◌<◌, ◌≤◌};
ghost use Rattle.fund_files.specs.Chain.{IsChain};

use crate::candidates::{put_candidates, put_txid};
use fee_rates::MAX_RATE;
use fund_base::{Memory, Txid};
use fund_files::{Chain, chain_of_wallet};
use payment_states::{State, States, known_candidates, known_states};
use row_columns::Answer;
use wallet_text::Wallet;

/// Puts a state, and what it names.
fn put_state(out: &mut Answer, state: State) {
    match state {
        State::Confirmed(height) => out.number("Confirmed ", height as u64),
        State::Conflicted(by) => put_txid(out, "Conflicted ", &by, true),
        State::Abandoned => out.word("Abandoned"),
        State::Replaced(by) => put_txid(out, "Replaced ", &by, true),
        State::Pending => out.word("Pending"),
    }
}

/// Puts the states in order; after one that is found otherwise by its txid stands a question mark. The last is that of a
/// txid which no payment has: `-` where there is none.
fn put_payments(out: &mut Answer, states: &States) {
    for payment in states.payments() {
        put_state(out, payment.state);
        let is_found = states.state(&payment.txid) == Some(payment.state);
        out.word(if is_found { ", " } else { "?, " });
    }
    let foreign = states.state(&Txid([9; 32]));
    out.word(if foreign.is_none() { "-" } else { "?" });
}

/// Puts the states of the payments of a wallet and what it may spend at a tip and a rate, by its book; or the latter alone, each
/// coin on a line. The error is out of memory.
fn put_held(
    out: &mut Answer,
    held: &Chain,
    tip: u32,
    rate: u64,
    is_alone: bool,
) -> Result<(), Memory>
    requires held { IsChain held.now }
    requires tip { tip < 4294967295 }
    requires rate { rate ≤ MAX_RATE }
{
    let book = held.book.known();
    let states = known_states(out.alloc, &book, &held.wallet)?;
    let coins = known_candidates(out.alloc, &book, &held.wallet, &states, tip, rate)?;
    if is_alone {
        out.number("coins ", coins.len() as u64);
        put_candidates(out, "\n", &coins, false);
    } else {
        put_payments(out, &states);
        put_candidates(out, "; ", &coins, true);
    }
    Ok(())
}

/// Puts the states of a wallet's payments and what it may spend, or the latter alone.
pub(crate) fn put_states(out: &mut Answer, wallet: Wallet, tip: u32, rate: u64, is_alone: bool) {
    if tip == u32::MAX || rate > MAX_RATE {
        return out.word("no tip or no rate");
    }
    match chain_of_wallet(out.alloc, wallet) {
        Ok(held) => {
            let ended = put_held(out, &held, tip, rate, is_alone);
            out.end(ended);
        }
        Err(_) => out.word("no book"),
    }
}

//! The listing as one text.

ghost use Rattle.std.specs.Prelude.{◌≡◌, ◌++◌, IfOk, OnOk, map, string_bytes};
ghost use Rattle.command_end.specs.LinesText.{lines_text};
ghost use Rattle.command_coins.specs.Listing.{coin_line, listing_of, payment_line};

use crate::lines::{coin_line, payment_line, tip_line};
use coin_candidates::Candidate;
use fund_base::Memory;
use payment_states::Payment;
use std::alloc::Global;

/// Puts the lines of the payments after the text.
fn put_payments(alloc: Global, text: &mut String, payments: &[Payment]) -> Result<(), Memory>
    ensures { OnOk result (string_bytes text.new ≡ string_bytes text.old ++ lines_text (map payment_line payments.now)) }
{
    for payment in payments {
        let line = payment_line(alloc, payment)?;
        text.push_str(line.as_str())?;
    }
    Ok(())
}

/// Puts the lines of the coins after the text.
fn put_coins(alloc: Global, text: &mut String, candidates: &[Candidate]) -> Result<(), Memory>
    ensures { OnOk result (string_bytes text.new ≡ string_bytes text.old ++ lines_text (map coin_line candidates.now)) }
{
    for candidate in candidates {
        let line = coin_line(alloc, candidate)?;
        text.push_str(line.as_str())?;
    }
    Ok(())
}

/// The listing: a line `tip` with the chain's height and the hash of its last block; a line `payment` for each
/// payment in order, with its txid and its state; a line `coin` for each candidate in order, with its txid and
/// index, its value in satoshi, its depth in blocks, `mine` or `foreign`, `safe` or `unsafe`, and its counts of
/// ancestors and of descendants. Hashes are in hex with their bytes reversed, and one line feed ends each line.
/// It refuses only when out of memory.
#[tactic(auto, unfolding(crate::specs::Listing::listing_of))]
pub fn listing(
    alloc: Global,
    tip: u32,
    hash: &[u8; 32],
    payments: &[Payment],
    candidates: &[Candidate],
) -> Result<String, Memory>
    ensures { IfOk result (λ text. string_bytes text ≡ listing_of tip hash.now payments.now candidates.now) }
{
    let mut text = tip_line(alloc, tip, hash)?;
    put_payments(alloc, &mut text, payments)?;
    put_coins(alloc, &mut text, candidates)?;
    Ok(text)
}

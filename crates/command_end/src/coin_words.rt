//! How hashes and coins are shown.

ghost use Rattle.std.specs.Prelude.{◌≡◌, IfOk, string_bytes};
ghost use Rattle.command_end.specs.Coin.{coin_text, shown_hash};

use fund_base::{Memory, OutPoint};
use std::alloc::Global;

/// A hash in lower-case hex with its bytes reversed, as Bitcoin Core shows txids and block hashes: 64 digits.
/// It refuses only when out of memory.
pub fn shown_hash(alloc: Global, hash: &[u8; 32]) -> Result<String, Memory>
    ensures { IfOk result (λ text. string_bytes text ≡ shown_hash hash.now) }
{
    let mut bytes = *hash;
    bytes.reverse();
    Ok(hex::encode(alloc, bytes.as_slice())?)
}

/// A coin as its txid, a colon and its index in decimal. It refuses only when out of memory.
#[tactic(auto, unfolding(crate::specs::Coin::coin_text))]
pub fn coin_text(alloc: Global, coin: &OutPoint) -> Result<String, Memory>
    ensures { IfOk result (λ text. string_bytes text ≡ coin_text coin.now) }
{
    let txid = shown_hash(alloc, coin.txid.bytes())?;
    Ok(format!(in alloc; "{}:{}", txid, coin.index)?)
}

//! What is known of a coin.

ghost use Rattle.std.specs.Prelude.{◌≡◌, ◌<◌, IfOk};
ghost use Rattle.std.specs.Option.{option_copied};
ghost use Rattle.coin_book.specs.Coins.{parent_of};
ghost use Rattle.payment_states.specs.ByPlace.{candidate_by, standing_by};

use crate::own_coins::{Standing, amount_at, flag_at, is_from_mine, number_at};
use coin_book::{Coin, Known};
use coin_candidates::Candidate;
use fund_base::Memory;
use std::alloc::Global;
use tx_codec::Tx;

/// How a coin stands whose transaction has this height, or waits at this place of the pending list.
pub fn standing(
    tip: u32,
    safe: &[bool],
    ancestors: &[u32],
    descendants: &[u32],
    prices: &[u64],
    height: Option<u32>,
    place: Option<usize>,
) -> Standing
    requires { tip < 4294967295 }
    ensures { result ≡ standing_by tip safe.now ancestors.now descendants.now prices.now height place }
{
    match height {
        Some(height) => Standing {
            depth: (tip + 1).saturating_sub(height),
            safe: true,
            ancestors: 0,
            descendants: 0,
            price: 0,
        },
        None => Standing {
            depth: 0,
            safe: flag_at(safe, place),
            ancestors: number_at(ancestors, place),
            descendants: number_at(descendants, place),
            price: amount_at(prices, place),
        },
    }
}

/// The coin, with how it stands, by its transaction. The error is out of memory.
pub fn described(
    alloc: Global,
    book: &Known<'_>,
    coin: &Coin,
    parent: Option<&Tx>,
    standing: Standing,
) -> Result<Candidate, Memory>
    requires { option_copied parent ≡ parent_of book.now coin.now.coin }
    ensures { IfOk result (λ c. c ≡ candidate_by book.now coin.now standing) }
{
    let script = coin.script.copy(alloc)?;
    let mine = is_from_mine(book, parent);
    Ok(Candidate {
        coin: coin.coin,
        value: coin.value,
        weight: coin.weight,
        script,
        depth: standing.depth,
        mine,
        safe: standing.safe,
        ancestors: standing.ancestors,
        descendants: standing.descendants,
        price: standing.price,
    })
}

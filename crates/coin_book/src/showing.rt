//! What the entries of a book show.

ghost use Rattle.std.specs.Prelude.{◌≡◌, IfSome, Some, map, option_map, slice_get};
ghost use Rattle.std.specs.Map.{keys_of, lookup};
ghost use Rattle.std.specs.Option.{option_copied};
ghost use Rattle.fund_base.specs.Outpoints.{same_outpoint};
ghost use Rattle.fund_base.specs.declared.outpoint.OutPoint.{OutPoint};
ghost use Rattle.coin_book.specs.Faults.{points};
ghost use Rattle.coin_book.specs.Invariant.{made_at};
ghost use Rattle.coin_book.specs.declared.held.Held.{Held};

use crate::coin::Coin;
use crate::held::Held;
use fund_base::OutPoint;
use indexmap::IndexMap;
use tx_codec::Tx;

/// The coin of this number among the entries, from 0.
pub fn coin_in(coins: &IndexMap<OutPoint, Held>, i: usize) -> Option<&Coin>
    ensures { option_copied result ≡ slice_get (map (λ (e : OutPoint × Held). e.1.coin) coins.now.entries) i }
{
    let (_, held) = coins.get_index(i)?;
    Some(&held.coin)
}

/// The coin of this number among the entries, from 0, with its transaction.
pub fn made_in(coins: &IndexMap<OutPoint, Held>, i: usize) -> Option<(&Coin, &Tx)>
    requires { keys_of coins.now.entries ≡ points (map made_at coins.now.entries) }
    ensures coin { option_map (λ m. m.0.now) result ≡ slice_get (map (λ (e : OutPoint × Held). e.1.coin) coins.now.entries) i }
    ensures maker { IfSome result (λ m. option_map (λ (h : Held). h.maker.value) (lookup (same_outpoint m.0.now.coin) coins.now.entries) ≡ Some m.1.now) }
{
    let (_, held) = coins.get_index(i)?;
    Some((&held.coin, held.maker.as_ref()))
}

/// The coin at this outpoint among the entries. Where there are none it isn't looked for.
pub fn held_in<'a>(coins: &'a IndexMap<OutPoint, Held>, coin: &OutPoint) -> Option<&'a Coin>
    ensures { option_copied result ≡ option_map (λ (h : Held). h.coin) (lookup (same_outpoint coin.now) coins.now.entries) }
{
    if coins.is_empty() {
        return None;
    }
    let found = coins.get(coin)?;
    Some(&found.coin)
}

/// The transaction of the coin at this outpoint. Where there are no coins it isn't looked for.
pub fn maker_in<'a>(coins: &'a IndexMap<OutPoint, Held>, coin: &OutPoint) -> Option<&'a Tx>
    ensures { option_copied result ≡ option_map (λ (h : Held). h.maker.value) (lookup (same_outpoint coin.now) coins.now.entries) }
{
    if coins.is_empty() {
        return None;
    }
    let held = coins.get(coin)?;
    Some(held.maker.as_ref())
}

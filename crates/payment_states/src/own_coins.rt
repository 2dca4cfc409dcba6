//! How coins stand: how deep they are, and what their transactions rest on.

ghost use Rattle.std.specs.Prelude.{◌≡◌, ◌<◌, false};
ghost use Rattle.payment_states.specs.Candidates.{is_coin, is_mine};
ghost use Rattle.payment_states.specs.ByPlace.{flag_at, number_at};
ghost use Rattle.coin_book.specs.Coins.{coins_of};
ghost use Rattle.std.specs.List.{list_all};
ghost use Rattle.std.specs.Option.{option_copied, option_map_or};
ghost use Rattle.tx_codec.specs.declared.tx.TxIn.{TxIn};

use coin_book::Known;
use tx_codec::{Tx, TxIn};

/// How deep a coin is, and how safe.
#[derive(Clone, Copy)]
pub struct Standing {
    /// How many blocks deep it is; 0 where it waits for one.
    pub depth: u32,
    /// Whether it is safe to spend.
    pub safe: bool,
    /// The Pending ancestors of its transaction, itself included; 0 where it is confirmed.
    pub ancestors: u32,
    /// The Pending descendants of its transaction, itself included; 0 where it is confirmed.
    pub descendants: u32,
    /// What raises its transaction and the Pending ancestors of it to a rate, in satoshi; 0 where it is confirmed.
    pub price: u64,
}

/// The flag at a place, if there is one.
pub fn flag_at(flags: &[bool], place: Option<usize>) -> bool
    ensures { result ≡ flag_at flags.now place }
{
    match place {
        Some(place) => {
            if place < flags.len() {
                flags[place]
            } else {
                false
            }
        }
        None => false,
    }
}

/// The number at a place, if there is one.
pub fn number_at(numbers: &[u32], place: Option<usize>) -> u32
    ensures { result ≡ number_at numbers.now place }
{
    match place {
        Some(place) => {
            if place < numbers.len() {
                numbers[place]
            } else {
                0
            }
        }
        None => 0,
    }
}

/// The amount at a place, if there is one.
pub fn amount_at(amounts: &[u64], place: Option<usize>) -> u64
    ensures { result ≡ number_at amounts.now place }
{
    match place {
        Some(place) => {
            if place < amounts.len() {
                amounts[place]
            } else {
                0
            }
        }
        None => 0,
    }
}

/// Whether every input spends a coin of the book.
pub fn is_mine(book: &Known<'_>, inputs: &[TxIn]) -> bool
    ensures { result ≡ list_all (λ (i : TxIn). is_coin (coins_of book.now) i.prev) inputs.now }
{
    for input in inputs {
        if book.parent(&input.prev).is_none() {
            return false;
        }
    }
    true
}

/// Whether every input of a coin's transaction spends a coin of the book. False where there is no transaction.
pub fn is_from_mine(book: &Known<'_>, parent: Option<&Tx>) -> bool
    ensures { result ≡ option_map_or (is_mine (coins_of book.now)) (option_copied parent.entry) false }
{
    match parent {
        Some(tx) => is_mine(book, &tx.inputs),
        None => false,
    }
}

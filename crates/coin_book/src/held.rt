//! What a book holds of a coin.

use crate::coin::Coin;
use std::rc::Rc;
use tx_codec::Tx;

/// A coin, and its transaction, which all coins of that transaction share.
#[derive(Drop)]
pub struct Held {
    /// The coin.
    pub coin: Coin,
    /// Its transaction.
    pub maker: Rc<Tx>,
}

//! Transactions that make new money.

ghost use Rattle.std.specs.Prelude.{◌≡◌};
ghost use Rattle.coin_book.specs.Coinbase.{is_coinbase_of};

use tx_codec::Tx;

/// Whether the transaction is a coinbase: it has one input, whose previous txid is 32 zero bytes and whose index is
/// FFFFFFFF (Bitcoin Core, `IsCoinBase`).
#[tactic(auto, unfolding(crate::specs::Coinbase::is_coinbase_of))]
pub fn is_coinbase(tx: &Tx) -> bool
    ensures { result ≡ is_coinbase_of tx.now }
{
    match tx.inputs.as_slice() {
        [input] => input.prev.txid.bytes() == &[0; 32] && input.prev.index == u32::MAX,
        _ => false,
    }
}

//! Names of transactions and of their outputs.

ghost use Rattle.std.specs.Prelude.{◌≡◌, List, ℕ, length};

use std::marker::Model;

/// The double SHA-256 of a transaction without its witnesses, its bytes in the order in which a
/// transaction's text holds them. It is shown with its bytes reversed.
#[derive(Clone, Copy, PartialEq, Eq, PartialOrd, Ord, Hash)]
pub struct Txid(pub [u8; 32]);

impl Model for Txid {
    ghost Value = { List ℕ };

    ghost view = { λ t. t.0 };

    ghost invariant = { λ t. length t.0 ≡ 32 };

    ghost inverse = { λ bytes. record { 0 = bytes } };
}

impl Txid {
    /// The 32 bytes, as stored.
    pub fn bytes(&self) -> &[u8; 32]
        ensures value { result.now ≡ self.now }
        ensures len { length self.now ≡ 32 }
    {
        &self.0
    }
}

/// An output of a transaction: the transaction's txid, and the output's place in it, from 0.
/// Outpoints are ordered by the bytes of the txid as stored, then by index.
#[derive(Clone, Copy, PartialEq, Eq, PartialOrd, Ord, Hash)]
pub struct OutPoint {
    /// The txid of the transaction.
    pub txid: Txid,
    /// The output's place among its outputs, from 0.
    pub index: u32,
}

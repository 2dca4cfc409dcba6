//! What a partially signed transaction is made of.

use std::marker::Model;
use tx_codec::{Tx, TxOut};

/// An unsigned transaction, and what a signer needs to know of the outputs that it spends.
///
/// It is a PSBT where the transaction has a text, its inputs have empty scripts and no witnesses,
/// `spent` has an entry for each input, and each `whole` has a text, the txid that its input spends and an
/// output of the index that its input spends.
#[derive(Drop)]
pub struct Psbt {
    /// The unsigned transaction.
    pub tx: Tx,
    /// What is known of the output that each input spends, in the order of the inputs.
    pub spent: Vec<Spent>,
}

/// A PSBT, and the version in which it was written: 0 or 2.
#[derive(Drop)]
pub struct Versioned {
    /// The version.
    pub version: u32,
    /// The PSBT.
    pub psbt: Psbt,
}

/// What is known of the output that an input spends.
#[derive(Drop)]
pub struct Spent {
    /// The whole transaction that has the output.
    pub whole: Option<Tx>,
    /// The output itself.
    pub paid: Option<TxOut>,
}

impl Model for Psbt {
    ghost use Rattle.psbt_codec.specs.PartialTransaction.{PartialTransaction};

    ghost Value = { PartialTransaction };

    ghost view = { λ p. record { tx = p.tx; spent = p.spent.items } };
}

//! What a replacement is made from.

use coin_candidates::Candidate;
use fund_base::Txid;
use std::marker::Model;

/// What a replacement is made from.
#[derive(Drop)]
pub struct BumpTerms {
    /// The inputs of the payment that is replaced, as coins, each once, in the order of its inputs, with their prices at the
    /// request's rate. Each replacement spends them.
    pub presets: Vec<Candidate>,
    /// What may be added: confirmed coins, in order of creation, that could be spent if what is replaced had never been
    /// written down. None is a preset or an output of what is replaced.
    pub candidates: Vec<Candidate>,
    /// What the replacement pays beside the fee of its rate, in satoshi: the fees of all that it replaces, the fee of 1,000
    /// satoshi per 1,000 virtual bytes for a payment from the presets alone without change, and 1 more, less the fee of its
    /// rate for the same size; at least 0.
    pub burden: u64,
    /// The payment and its Pending descendants, in list order.
    pub replaced: Vec<Txid>,
    /// The payment's own fee, in satoshi.
    pub old_fee: u64,
    /// Its virtual size as it stands in the wallet, in virtual bytes.
    pub old_vsize: u64,
}

impl Model for BumpTerms {
    ghost use Rattle.fee_bump.specs.Bump.{PlainTerms};

    ghost Value = { PlainTerms };

    ghost view = { λ t. record { presets = t.presets.items; candidates = t.candidates.items; burden = t.burden; replaced = t.replaced.items; old_fee = t.old_fee; old_vsize = t.old_vsize } };
}

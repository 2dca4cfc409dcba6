//! Coins that may be spent.

ghost use Rattle.std.specs.Prelude.{◌≡◌, IfOk};

use fund_base::{Memory, OutPoint, Script};
use std::alloc::Global;

/// A coin that may be spent, and what the rules of choice need to know of it.
#[derive(Drop)]
pub struct Candidate {
    /// The output that it is.
    pub coin: OutPoint,
    /// Its value, in satoshi.
    pub value: u64,
    /// The weight that an input which spends it is declared to have, in weight units.
    pub weight: u64,
    /// The script that it pays.
    pub script: Script,
    /// How many blocks deep its transaction is, 1 for one in the last block and 0 for a pending one.
    pub depth: u32,
    /// Whether every input of its transaction spends a coin of the wallet.
    pub mine: bool,
    /// Whether it is confirmed, or its pending transaction can't be taken back by a stranger.
    pub safe: bool,
    /// How many distinct pending transactions it rests on, its own included; 0 if confirmed.
    pub ancestors: u32,
    /// How many distinct pending transactions rest on it, its own included; 0 if confirmed.
    pub descendants: u32,
    /// What raises the pending transactions that it rests on to a fee rate, in satoshi; 0 if confirmed.
    pub price: u64,
}

impl Candidate {
    /// A copy. It equals the candidate.
    pub fn copy(&self, alloc: Global) -> Result<Candidate, Memory>
        ensures { IfOk result (λ c. c ≡ self.now) }
    {
        let script = self.script.copy(alloc)?;
        Ok(Candidate {
            coin: self.coin,
            value: self.value,
            weight: self.weight,
            script,
            depth: self.depth,
            mine: self.mine,
            safe: self.safe,
            ancestors: self.ancestors,
            descendants: self.descendants,
            price: self.price,
        })
    }

    /// A copy of each, in order.
    pub fn copy_all(alloc: Global, candidates: &[Candidate]) -> Result<Vec<Candidate>, Memory>
        ensures { IfOk result (λ v. v.items ≡ candidates.now) }
    {
        let mut copies = Vec::new(alloc);
        for candidate in candidates {
            let copy = candidate.copy(alloc)?;
            copies.push(copy)?;
        }
        Ok(copies)
    }
}

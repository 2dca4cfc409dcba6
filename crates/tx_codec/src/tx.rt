//! What a transaction is made of.

ghost use Rattle.std.specs.Prelude.{◌≡◌, IfOk};
ghost use Rattle.tx_codec.specs.Stack.{lists};

use fund_base::{Memory, OutPoint, Sat, Script};
use std::alloc::Global;
use std::marker::Model;

/// The witness of an input: a stack of byte strings, the first at the bottom (BIP 141).
#[derive(Drop)]
pub struct Witness {
    items: Vec<Vec<u8>>,
}

impl Model for Witness {
    ghost use Rattle.std.specs.Prelude.{List, ℕ};
    ghost use Rattle.tx_codec.specs.Stack.{lists};

    ghost Value = { List (List ℕ) };

    ghost view = { λ w. lists w.items.items };
}

impl Witness {
    /// The stack of these byte strings, the first at the bottom.
    pub fn new(items: Vec<Vec<u8>>) -> Witness
        ensures { result ≡ lists items.items }
    {
        Witness { items }
    }

    /// The byte strings, the first at the bottom.
    pub fn as_slice(&self) -> &[Vec<u8>]
        ensures { lists result.now ≡ self.now }
    {
        self.items.as_slice()
    }

    /// A copy. It equals the witness.
    pub fn copy(&self, alloc: Global) -> Result<Witness, Memory>
        ensures { IfOk result (λ w. w ≡ self.now) }
    {
        let mut items = Vec::with_capacity(alloc, self.items.len())?;
        for item in self.items.as_slice() {
            items.push(Vec::from_slice(alloc, item.as_slice())?)?;
        }
        Ok(Witness { items })
    }
}

/// An input of a transaction.
#[derive(Drop)]
pub struct TxIn {
    /// The output that it spends.
    pub prev: OutPoint,
    /// What it answers to that output's script; empty in a segregated spend.
    pub script: Script,
    /// Its sequence number. Below FFFFFFFE it signals that the transaction may be replaced (BIP 125).
    pub sequence: u32,
    /// Its witness, empty in the legacy form.
    pub witness: Witness,
}

impl TxIn {
    /// A copy. It equals the input.
    pub fn copy(&self, alloc: Global) -> Result<TxIn, Memory>
        ensures { IfOk result (λ i. i ≡ self.now) }
    {
        let script = self.script.copy(alloc)?;
        let witness = self.witness.copy(alloc)?;
        Ok(TxIn {
            prev: self.prev,
            script,
            sequence: self.sequence,
            witness,
        })
    }
}

/// An output of a transaction.
#[derive(Drop)]
pub struct TxOut {
    /// What it pays, in satoshi.
    pub value: Sat,
    /// What it pays to.
    pub script: Script,
}

impl TxOut {
    /// A copy. It equals the output.
    pub fn copy(&self, alloc: Global) -> Result<TxOut, Memory>
        ensures { IfOk result (λ o. o ≡ self.now) }
    {
        let script = self.script.copy(alloc)?;
        Ok(TxOut {
            value: self.value,
            script,
        })
    }
}

/// A transaction.
#[derive(Drop)]
pub struct Tx {
    /// The version (BIP 68 gives a meaning to sequences from version 2 on).
    pub version: u32,
    /// Its inputs, in order.
    pub inputs: Vec<TxIn>,
    /// Its outputs, in order.
    pub outputs: Vec<TxOut>,
    /// The lock time: a height below 500,000,000, else seconds since 1970. 0 locks nothing.
    pub locktime: u32,
    /// Whether its text has the segregated form, with marker, flag and witnesses (BIP 144).
    pub segwit: bool,
}

impl Model for Tx {
    ghost use Rattle.tx_codec.specs.Transaction.{Transaction};

    ghost Value = { Transaction };

    ghost view = { λ t. record { version = t.version; inputs = t.inputs.items; outputs = t.outputs.items; locktime = t.locktime; segwit = t.segwit } };
}

impl Tx {
    /// A copy. It equals the transaction.
    pub fn copy(&self, alloc: Global) -> Result<Tx, Memory>
        ensures { IfOk result (λ t. t ≡ self.now) }
    {
        let inputs = copy_inputs(alloc, &self.inputs)?;
        let outputs = copy_outputs(alloc, &self.outputs)?;
        Ok(Tx {
            version: self.version,
            inputs,
            outputs,
            locktime: self.locktime,
            segwit: self.segwit,
        })
    }
}

fn copy_inputs(alloc: Global, inputs: &[TxIn]) -> Result<Vec<TxIn>, Memory>
    ensures { IfOk result (λ v. v.items ≡ inputs.now) }
{
    let mut copies = Vec::with_capacity(alloc, inputs.len())?;
    for input in inputs {
        copies.push(input.copy(alloc)?)?;
    }
    Ok(copies)
}

fn copy_outputs(alloc: Global, outputs: &[TxOut]) -> Result<Vec<TxOut>, Memory>
    ensures { IfOk result (λ v. v.items ≡ outputs.now) }
{
    let mut copies = Vec::with_capacity(alloc, outputs.len())?;
    for output in outputs {
        copies.push(output.copy(alloc)?)?;
    }
    Ok(copies)
}

//! A settled payment as a table.

ghost use Rattle.std.specs.Prelude.{◌≡◌, ◌++◌, IfOk, OnOk, string_bytes};
ghost use Rattle.std.specs.List.{flat_map};
ghost use Rattle.settle_table.specs.Table.{spare_line, table_text, txid_line, weighs_line};

use crate::inputs::WeighedInput;
use crate::settling::Settlement;
use command_end::{coin_text, shown_hash};
use fund_base::{Memory, Txid};
use std::alloc::Global;

/// The line of the txid.
#[tactic(auto, unfolding(crate::specs::Table::txid_line))]
fn txid_line(alloc: Global, txid: &Txid) -> Result<String, Memory>
    ensures { IfOk result (λ text. string_bytes text ≡ txid_line txid.now) }
{
    let shown = shown_hash(alloc, txid.bytes())?;
    Ok(format!(in alloc; "txid    {}\n", shown)?)
}

/// The line of an input.
#[tactic(auto, unfolding(crate::specs::Table::weighs_line))]
fn weighs_line(alloc: Global, input: &WeighedInput) -> Result<String, Memory>
    ensures { IfOk result (λ text. string_bytes text ≡ weighs_line input.now) }
{
    let coin = coin_text(alloc, &input.coin)?;
    Ok(format!(in alloc;
        "weighs  {} of {} WU declared  {}\n",
        input.weight, input.declared, coin
    )?)
}

/// The line of what the inputs weigh less than was declared.
#[tactic(auto, unfolding(crate::specs::Table::spare_line))]
fn spare_line(alloc: Global, spare: u64) -> Result<String, Memory>
    ensures { IfOk result (λ text. string_bytes text ≡ spare_line spare) }
{
    Ok(format!(in alloc; "spare   {} WU\n", spare)?)
}

/// Puts the lines of the inputs after the text.
fn put_inputs(alloc: Global, text: &mut String, inputs: &[WeighedInput]) -> Result<(), Memory>
    ensures { OnOk result (string_bytes text.new ≡ string_bytes text.old ++ flat_map weighs_line inputs.now) }
{
    for input in inputs {
        let line = weighs_line(alloc, input)?;
        text.push_str(line.as_str())?;
    }
    Ok(())
}

/// A settled payment as a table: a line `txid`; a line `weighs` for each input in order, with what it weighs, what it was
/// declared to weigh, both in weight units (WU, BIP 141), and the output that it spends; the line of the fee, which is given;
/// and a line `spare` with what the inputs together weigh less than was declared. It refuses only when out of memory.
#[tactic(auto, unfolding(crate::specs::Table::table_text))]
pub fn table_text(alloc: Global, settlement: &Settlement, fee_line: &str) -> Result<String, Memory>
    ensures { IfOk result (λ text. string_bytes text ≡ table_text settlement.now.settled settlement.now.inputs.items fee_line.now) }
{
    let mut text = txid_line(alloc, &settlement.settled.txid)?;
    put_inputs(alloc, &mut text, &settlement.inputs)?;
    let spare = spare_line(alloc, settlement.settled.spare)?;
    text.push_str(fee_line)?;
    text.push_str(spare.as_str())?;
    Ok(text)
}

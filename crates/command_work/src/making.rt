//! The transactions that make the coins of a workload.

ghost use Rattle.std.specs.Prelude.{◌≡◌, ◌≤◌, IfOk};
ghost use Rattle.command_work.specs.Coins.{total_of};
ghost use Rattle.command_work.specs.Load.{earlier_of, input_of, maker_of, output_of, prev_of};

use crate::coin::{Coin, next_coin, words_of};
use fund_base::{Memory, OutPoint, Script, Txid};
use std::alloc::Global;
use tx_codec::{Tx, TxIn, TxOut, Witness};
use wallet_text::Earlier;

/// The height at which they stand.
const HEIGHT: u32 = 100;

/// The txid that the transaction of the coin of this number spends from.
#[tactic(auto, unfolding(crate::specs::Load::prev_of))]
fn prev_of(index: u32) -> Txid
    ensures { result ≡ prev_of index }
{
    let mut bytes = [1; 32];
    bytes[..4].copy_from_slice(&index.to_le_bytes());
    Txid(bytes)
}

/// Its input.
fn input_of(alloc: Global, index: u32) -> TxIn
    ensures { result ≡ input_of index }
{
    TxIn {
        prev: OutPoint {
            txid: prev_of(index),
            index: 0,
        },
        script: Script::new(Vec::new(alloc)),
        sequence: 0xFFFF_FFFF,
        witness: Witness::new(Vec::new(alloc)),
    }
}

/// The output that is a coin.
fn output_of(alloc: Global, coin: &Coin) -> Result<TxOut, Memory>
    ensures { IfOk result (λ output. output ≡ output_of coin.now) }
{
    let script = coin.kind.script(alloc)?;
    Ok(TxOut {
        value: coin.value,
        script,
    })
}

/// The transaction that makes the coin of this number.
#[tactic(auto, unfolding(crate::specs::Load::maker_of))]
fn maker_of(alloc: Global, index: u32, coin: &Coin) -> Result<Tx, Memory>
    ensures { IfOk result (λ tx. tx ≡ maker_of index coin.now) }
{
    let mut inputs = Vec::with_capacity(alloc, 1)?;
    inputs.push(input_of(alloc, index))?;
    let mut outputs = Vec::with_capacity(alloc, 1)?;
    outputs.push(output_of(alloc, coin)?)?;
    Ok(Tx {
        version: 2,
        inputs,
        outputs,
        locktime: 0,
        segwit: false,
    })
}

/// The transactions of so many coins of a number, at most 10,000, and what the coins are worth together, in satoshi.
pub(crate) fn earlier_of(
    alloc: Global,
    number: u64,
    count: u32,
) -> Result<(Vec<Earlier>, u64), Memory>
    requires { count ≤ 10_000 }
    ensures earlier { IfOk result (λ made. made.0.items ≡ earlier_of number count) }
    ensures total { IfOk result (λ made. made.1 ≡ total_of number count) }
{
    let mut words = words_of(number);
    let mut earlier = Vec::with_capacity(alloc, count as usize)?;
    let mut total = 0;
    for index in 0..count {
        let coin = next_coin(&mut words);
        let tx = maker_of(alloc, index, &coin)?;
        let entry = Earlier::new(alloc, tx, HEIGHT)?;
        earlier.push(entry)?;
        total += coin.worth();
    }
    Ok((earlier, total))
}

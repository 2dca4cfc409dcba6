//! The entries of the wallet's lists, each read after those before it.

ghost use Rattle.std.specs.Prelude.{◌≡◌, ◌≢◌, ◌≤◌, ◌||◌, ◌++◌, [], ◌∷◌, codes, nat_lt, if◌then◌else◌, Ok, Err, IfOk, IsOk, IsOkAnd};
ghost use Rattle.std.specs.Int.{w32};
ghost use Rattle.fund_base.specs.Cursor.{number_at};
ghost use Rattle.fund_base.specs.Parsing.{YieldsAll};
ghost use Rattle.json_fields.specs.Fields.{object_at, each_from, hash_at, coin_at};
ghost use Rattle.json_fields.specs.Memory.{StoresName, StoresFirst};
ghost use Rattle.json_fields.specs.declared.fault.FieldFault.TheVariants.{Memory};
ghost use Rattle.json_fields.specs.Tree.{view, items_view};
ghost use Rattle.tx_codec.specs.Reading.{BeginsInputs};
ghost use Rattle.wallet_text.specs.Stores.{StoresScript, StoresChange, StoresEarlier, StoresPending};
ghost use Rattle.wallet_text.specs.Reported.{Gives};
ghost use Rattle.wallet_text.specs.WalletText.{told_index, watch_names, watch_at, has_script_length, script_in, script_behind, change_at, tx_in, earlier_at, earlier_in, earlier_behind, pending_in, pending_behind};
ghost use Rattle.wallet_text.specs.declared.fault.Refusal.TheVariants.{Field, Script as BadScript, Weight as BadWeight};

use crate::fault::Refusal;
use crate::seen::Seen;
use crate::wallet::{Earlier, Watch};
use fund_base::{MAX_WEIGHT, OutPoint, Script, Txid};
use json::Value;
use json_fields::{
    FieldFault, HexText, coin_of, hex_of, hex_text_of, member_of, number_of, object_of, txid_of,
};
use std::alloc::Global;
use tx_codec::{Tx, TxFault, read_whole_tx};

/// The greatest length of a script, in bytes.
const MOST_SCRIPT: usize = 10_000;

/// The least and the greatest declared weight of an input, in weight units.
const LEAST_WEIGHT: u64 = 165;

/// A place in a list as a fault tells it, 4,294,967,295 at most.
pub fn told_index(index: usize) -> u32
    ensures { result ≡ told_index index }
{
    index.min(u32::MAX as usize) as u32
}

/// The script and the weight of an entry. Memory is taken for the name of an unknown member alone.
#[tactic(auto, unfolding(crate::specs::WalletText::watch_at))]
fn watch_of<'t>(
    alloc: Global,
    value: &Value<'t>,
    whole: &'static str,
) -> Result<(HexText<'t>, u64), FieldFault>
    ensures gives { YieldsAll Memory (λ e. record { script = e.0; weight = e.1 }) result (watch_at whole.now (view value.now)) }
    ensures short { result ≡ Err Memory → StoresName (object_at whole.now watch_names watch_names (view value.now)) }
{
    object_of(
        alloc,
        value,
        whole,
        &["script", "weight"],
        &["script", "weight"],
    )?;
    let script = hex_text_of(member_of(value, "script")?, "script")?;
    let weight = number_of(member_of(value, "weight")?, "weight", u64::MAX)?;
    Ok((script, weight))
}

fn has_script_length(script: &HexText) -> bool
    ensures { result ≡ has_script_length script.now }
{
    script.count() > 0 && script.count() <= MOST_SCRIPT
}

/// That the script of an entry at this index has the length of one.
fn check_length(index: usize, script: &HexText) -> Result<(), Refusal>
    ensures exact { result ≡ (if has_script_length script.now then Ok tt else Err (BadScript (told_index index))) }
    ensures never { result ≢ Err (Field Memory) }
{
    if !has_script_length(script) {
        return Err(Refusal::Script(told_index(index)));
    }
    Ok(())
}

/// That an input can have the weight of an entry at this index.
fn check_weight(index: usize, weight: u64) -> Result<(), Refusal>
    ensures exact { result ≡ (if nat_lt weight 165 || nat_lt 400000 weight then Err (BadWeight (told_index index)) else Ok tt) }
    ensures never { result ≢ Err (Field Memory) }
{
    if weight < LEAST_WEIGHT || weight > MAX_WEIGHT {
        return Err(Refusal::Weight(told_index(index)));
    }
    Ok(())
}

/// The entry of `scripts` at this index. Its script is stored behind all that can be told of it by itself, to be looked
/// for among those before it.
#[tactic(auto, unfolding(crate::specs::WalletText::script_in, crate::specs::WalletText::judged), using(crate::proofs::Stored::unfit, crate::proofs::Stored::spelled_stored))]
fn next_script(
    alloc: Global,
    index: usize,
    seen: &mut Seen,
    value: &Value,
) -> Result<Watch, Refusal>
    ensures gives { Gives (λ w. w) result (script_in index seen.old (view value.now)) }
    ensures short { result ≡ Err (Field Memory) → StoresScript (view value.now) }
    ensures adds { IfOk result (λ w. seen.new ≡ seen.old ++ w.script ∷ []) }
{
    let (spelled, weight) = watch_of(alloc, value, "scripts")?;
    check_length(index, &spelled)?;
    let script = spelled.bytes(alloc)?;
    if !seen.insert(Vec::from_slice(alloc, &script)?)? {
        return Err(Refusal::Script(told_index(index)));
    }
    check_weight(index, weight)?;
    Ok(Watch {
        script: Script::new(script),
        weight,
    })
}

/// The scripts of the wallet, no script twice.
pub fn scripts_from(alloc: Global, values: &[Value]) -> Result<Vec<Watch>, Refusal>
    ensures gives { Gives (λ v. v.items) result (each_from script_behind [] (items_view values.now)) }
    ensures short { result ≡ Err (Field Memory) → StoresFirst StoresScript (items_view values.now) }
{
    let mut watches = Vec::new(alloc);
    let mut seen = Seen::new(alloc);
    for value in values {
        let watch = next_script(alloc, watches.len(), &mut seen, value)?;
        watches.push(watch)?;
    }
    Ok(watches)
}

/// The change entry, whose index is the number of scripts. Its script is stored behind all its rules.
#[tactic(auto, unfolding(crate::specs::WalletText::change_at, crate::specs::WalletText::judged))]
pub fn change_of(alloc: Global, count: usize, value: &Value) -> Result<Watch, Refusal>
    ensures gives { Gives (λ w. w) result (change_at count (view value.now)) }
    ensures short { result ≡ Err (Field Memory) → StoresChange count (view value.now) }
{
    let (spelled, weight) = watch_of(alloc, value, "change")?;
    check_length(count, &spelled)?;
    check_weight(count, weight)?;
    let script = spelled.bytes(alloc)?;
    Ok(Watch {
        script: Script::new(script),
        weight,
    })
}

/// The transaction, whose lists have no room to spare.
fn without_spare(tx: Tx) -> Tx
    ensures { result ≡ tx }
{
    let Tx {
        version,
        mut inputs,
        mut outputs,
        locktime,
        segwit,
    } = tx;
    inputs.shrink_to_fit();
    outputs.shrink_to_fit();
    Tx {
        version,
        inputs,
        outputs,
        locktime,
        segwit,
    }
}

/// The transaction that the bytes are, at this index of a list.
#[tactic(auto, unfolding(crate::specs::WalletText::tx_in))]
fn tx_in(alloc: Global, list: &'static str, index: usize, bytes: &[u8]) -> Result<Tx, Refusal>
    ensures gives { Gives (λ t. t) result (tx_in list.now index bytes.now) }
    // Memory is taken behind the version and the number of inputs, which isn't 0, and behind the flag where there is one.
    ensures short { result ≡ Err (Field Memory) → IsOkAnd (number_at w32 (record { rest = bytes.now; place = 0 })) (λ version. BeginsInputs version.1) }
{
    match read_whole_tx(alloc, bytes) {
        Ok(tx) => Ok(without_spare(tx)),
        Err(TxFault::Memory) => Err(Refusal::Field(FieldFault::Memory)),
        Err(fault) => Err(Refusal::tx(list, told_index(index), fault)),
    }
}

#[tactic(auto, unfolding(crate::specs::WalletText::earlier_at))]
fn earlier_of(alloc: Global, most: u64, value: &Value) -> Result<(Vec<u8>, u64), FieldFault>
    ensures gives { YieldsAll Memory (λ e. (e.0.items, e.1)) result (earlier_at most (view value.now)) }
    ensures most { IfOk result (λ e. e.1 ≤ most) }
    ensures short { result ≡ Err Memory → StoresEarlier most (view value.now) }
{
    object_of(
        alloc,
        value,
        "earlier",
        &["tx", "height"],
        &["tx", "height"],
    )?;
    let spelled = hex_text_of(member_of(value, "tx")?, "tx")?;
    let height = number_of(member_of(value, "height")?, "height", most)?;
    let bytes = spelled.bytes(alloc)?;
    Ok((bytes, height))
}

#[tactic(auto, unfolding(crate::specs::WalletText::earlier_in))]
fn next_earlier(alloc: Global, most: u32, index: usize, value: &Value) -> Result<Earlier, Refusal>
    ensures gives { Gives (λ e. e) result (earlier_in most index (view value.now)) }
    ensures short { result ≡ Err (Field Memory) → StoresEarlier most (view value.now) }
{
    let (bytes, height) = earlier_of(alloc, most as u64, value)?;
    let tx = tx_in(alloc, "earlier", index, &bytes)?;
    let earlier = Earlier::new(alloc, tx, height as u32)?;
    Ok(earlier)
}

/// The earlier transactions, each with a height of at most `most`.
pub fn earlier_from(alloc: Global, most: u32, values: &[Value]) -> Result<Vec<Earlier>, Refusal>
    ensures gives { Gives (λ v. v.items) result (each_from (earlier_behind most) [] (items_view values.now)) }
    ensures short { result ≡ Err (Field Memory) → StoresFirst (StoresEarlier most) (items_view values.now) }
{
    let mut earlier = Vec::new(alloc);
    for value in values {
        let entry = next_earlier(alloc, most, earlier.len(), value)?;
        earlier.push(entry)?;
    }
    Ok(earlier)
}

#[tactic(auto, unfolding(crate::specs::WalletText::pending_in))]
fn next_pending(alloc: Global, index: usize, value: &Value) -> Result<Tx, Refusal>
    ensures gives { Gives (λ t. t) result (pending_in index (view value.now)) }
    ensures short { result ≡ Err (Field Memory) → StoresPending (view value.now) }
{
    let bytes = hex_of(alloc, value, "pending")?;
    tx_in(alloc, "pending", index, &bytes)
}

/// The pending transactions.
pub fn pending_from(alloc: Global, values: &[Value]) -> Result<Vec<Tx>, Refusal>
    ensures gives { Gives (λ v. v.items) result (each_from pending_behind [] (items_view values.now)) }
    ensures short { result ≡ Err (Field Memory) → StoresFirst StoresPending (items_view values.now) }
{
    let mut pending = Vec::new(alloc);
    for value in values {
        let tx = next_pending(alloc, pending.len(), value)?;
        pending.push(tx)?;
    }
    Ok(pending)
}

/// The txids of the transactions that were given up.
pub fn abandoned_from(alloc: Global, values: &[Value]) -> Result<Vec<Txid>, FieldFault>
    ensures gives { YieldsAll Memory (λ v. v.items) result (each_from (λ _. hash_at (codes "abandoned")) [] (items_view values.now)) }
    ensures short { result ≡ Err Memory → StoresFirst (λ e. IsOk (hash_at (codes "abandoned") e)) (items_view values.now) }
{
    let mut txids = Vec::new(alloc);
    for value in values {
        let txid = txid_of(value, "abandoned")?;
        txids.push(txid)?;
    }
    Ok(txids)
}

/// The coins that are locked.
pub fn locked_from(alloc: Global, values: &[Value]) -> Result<Vec<OutPoint>, FieldFault>
    ensures gives { YieldsAll Memory (λ v. v.items) result (each_from (λ _. coin_at (codes "locked")) [] (items_view values.now)) }
    ensures short { result ≡ Err Memory → StoresFirst (λ e. IsOk (coin_at (codes "locked") e)) (items_view values.now) }
{
    let mut coins = Vec::new(alloc);
    for value in values {
        let coin = coin_of(value, "locked")?;
        coins.push(coin)?;
    }
    Ok(coins)
}

//! Reading a wallet file.

ghost use Rattle.std.specs.Prelude.{◌≡◌, ◌≢◌, ◌≤◌, [], codes, Err, IfOk, IfErr, IsOk};
ghost use Rattle.fund_base.specs.Parsing.{YieldsAll};
ghost use Rattle.json_fields.specs.Fields.{IsHash, object_at, hash_at, coin_at, optional};
ghost use Rattle.json_fields.specs.Memory.{Exactly, StoresName, StoresList, StoresOptional};
ghost use Rattle.json_fields.specs.declared.fault.FieldFault.TheVariants.{Memory};
ghost use Rattle.serde_json.specs.Find.{get};
ghost use Rattle.json_fields.specs.Tree.{view};
ghost use Rattle.wallet_text.specs.Parts.{head_at, listed_at, parts_at, watched_at};
ghost use Rattle.wallet_text.specs.Stores.{StoresScript, StoresEarlier, StoresPending, StoresWatched, StoresWallet};
ghost use Rattle.wallet_text.specs.Reported.{Gives, HasReason, Reads};
ghost use Rattle.wallet_text.specs.WalletRules.{IsWallet};
ghost use Rattle.wallet_text.specs.WalletText.{known_names, required_names, scripts_at, earlier_list_at, pending_list_at, abandoned_list_at, locked_list_at, wallet_of};
ghost use Rattle.wallet_text.specs.declared.fault.Refusal.TheVariants.{Field};

use crate::entries::{
    abandoned_from, change_of, earlier_from, locked_from, pending_from, scripts_from,
};
use crate::fault::{Refusal, WalletFault};
use crate::lists::judge_lists;
use crate::wallet::{Earlier, Wallet, Watch};
use fund_base::{OutPoint, Txid};
use json::{Scratch, Value};
use json_fields::{
    FieldFault, hash_of, items_in, member_in, member_of, number_of, object_of, parse,
};
use std::alloc::Global;
use tx_codec::Tx;

/// The greatest height of the chain before the block file.
const MOST_HEIGHT: u64 = 100_000_000;

#[tactic(auto, unfolding(crate::specs::WalletText::scripts_at))]
fn scripts_of(alloc: Global, value: &Value) -> Result<Vec<Watch>, Refusal>
    ensures gives { Gives (λ v. v.items) result (scripts_at (view value.now)) }
    ensures short { result ≡ Err (Field Memory) → StoresList (codes "scripts") StoresScript (view value.now) }
{
    match items_in(value) {
        Some(entries) => scripts_from(alloc, entries),
        None => Err(Refusal::from(FieldFault::kind("scripts"))),
    }
}

#[tactic(auto, unfolding(crate::specs::WalletText::earlier_list_at))]
fn earlier_of(alloc: Global, most: u32, value: &Value) -> Result<Vec<Earlier>, Refusal>
    ensures gives { Gives (λ v. v.items) result (optional [] (earlier_list_at most) (get (codes "earlier") (view value.now))) }
    ensures short { result ≡ Err (Field Memory) → StoresOptional (StoresList (codes "earlier") (StoresEarlier most)) (get (codes "earlier") (view value.now)) }
{
    let Some(list) = member_in(value, "earlier") else {
        return Ok(Vec::new(alloc));
    };
    match items_in(list) {
        Some(entries) => earlier_from(alloc, most, entries),
        None => Err(Refusal::from(FieldFault::kind("earlier"))),
    }
}

#[tactic(auto, unfolding(crate::specs::WalletText::pending_list_at))]
fn pending_of(alloc: Global, value: &Value) -> Result<Vec<Tx>, Refusal>
    ensures gives { Gives (λ v. v.items) result (optional [] pending_list_at (get (codes "pending") (view value.now))) }
    ensures short { result ≡ Err (Field Memory) → StoresOptional (StoresList (codes "pending") StoresPending) (get (codes "pending") (view value.now)) }
{
    let Some(list) = member_in(value, "pending") else {
        return Ok(Vec::new(alloc));
    };
    match items_in(list) {
        Some(entries) => pending_from(alloc, entries),
        None => Err(Refusal::from(FieldFault::kind("pending"))),
    }
}

#[tactic(auto, unfolding(crate::specs::WalletText::abandoned_list_at))]
fn abandoned_of(alloc: Global, value: &Value) -> Result<Vec<Txid>, FieldFault>
    ensures gives { YieldsAll Memory (λ v. v.items) result (optional [] abandoned_list_at (get (codes "abandoned") (view value.now))) }
    ensures short { result ≡ Err Memory → StoresOptional (StoresList (codes "abandoned") (λ e. IsOk (hash_at (codes "abandoned") e))) (get (codes "abandoned") (view value.now)) }
{
    let Some(list) = member_in(value, "abandoned") else {
        return Ok(Vec::new(alloc));
    };
    match items_in(list) {
        Some(entries) => abandoned_from(alloc, entries),
        None => Err(FieldFault::kind("abandoned")),
    }
}

#[tactic(auto, unfolding(crate::specs::WalletText::locked_list_at))]
fn locked_of(alloc: Global, value: &Value) -> Result<Vec<OutPoint>, FieldFault>
    ensures gives { YieldsAll Memory (λ v. v.items) result (optional [] locked_list_at (get (codes "locked") (view value.now))) }
    ensures short { result ≡ Err Memory → StoresOptional (StoresList (codes "locked") (λ e. IsOk (coin_at (codes "locked") e))) (get (codes "locked") (view value.now)) }
{
    let Some(list) = member_in(value, "locked") else {
        return Ok(Vec::new(alloc));
    };
    match items_in(list) {
        Some(entries) => locked_from(alloc, entries),
        None => Err(FieldFault::kind("locked")),
    }
}

/// That the value is an object with known members and the required ones.
fn whole_of(alloc: Global, value: &Value) -> Result<(), FieldFault>
    ensures gives { YieldsAll Memory (λ _. tt) result (object_at (codes "root") known_names required_names (view value.now)) }
    ensures short { result ≡ Err Memory → StoresName (object_at (codes "root") known_names required_names (view value.now)) }
{
    let required = ["height", "hash", "scripts", "change"];
    let known = [
        "height",
        "hash",
        "scripts",
        "change",
        "earlier",
        "pending",
        "abandoned",
        "locked",
    ];
    object_of(alloc, value, "root", &known, &required)
}

/// The height and the hash.
#[tactic(auto, unfolding(crate::specs::Parts::head_at))]
fn head_of(value: &Value) -> Result<(u32, [u8; 32]), FieldFault>
    ensures exact { Exactly (λ h. h) result (head_at (view value.now)) }
    ensures never { result ≢ Err Memory }
    ensures height { IfOk result (λ h. h.0 ≤ MOST_HEIGHT) }
    ensures hash { IfOk result (λ h. IsHash h.1) }
{
    let height = member_of(value, "height")?;
    let height = number_of(height, "height", MOST_HEIGHT)? as u32;
    let hash = hash_of(member_of(value, "hash")?, "hash")?;
    Ok((height, hash))
}

/// The scripts, and the change entry.
#[tactic(auto, unfolding(crate::specs::Parts::watched_at))]
fn watched_of(alloc: Global, value: &Value) -> Result<(Vec<Watch>, Watch), Refusal>
    ensures gives { Gives (λ w. (w.0.items, w.1)) result (watched_at (view value.now)) }
    ensures short { result ≡ Err (Field Memory) → StoresWatched (view value.now) }
{
    let scripts = scripts_of(alloc, member_of(value, "scripts")?)?;
    let change = change_of(alloc, scripts.len(), member_of(value, "change")?)?;
    Ok((scripts, change))
}

/// The lists that may be left out.
#[derive(Drop)]
struct Lists {
    earlier: Vec<Earlier>,
    pending: Vec<Tx>,
    abandoned: Vec<Txid>,
    locked: Vec<OutPoint>,
}

/// These lists of a wallet at this height, which keep the rules over whole lists.
#[tactic(auto, unfolding(crate::specs::Parts::listed_at))]
fn lists_of(alloc: Global, height: u32, value: &Value) -> Result<Lists, Refusal>
    ensures gives { Gives (λ l. record { earlier = l.earlier.items; pending = l.pending.items; abandoned = l.abandoned.items; locked = l.locked.items }) result (listed_at height (view value.now)) }
{
    let earlier = earlier_of(alloc, height, value)?;
    let pending = pending_of(alloc, value)?;
    let abandoned = abandoned_of(alloc, value)?;
    let locked = locked_of(alloc, value)?;
    judge_lists(alloc, &earlier, &pending)?;
    Ok(Lists {
        earlier,
        pending,
        abandoned,
        locked,
    })
}

#[tactic(auto, unfolding(crate::specs::Parts::parts_at))]
fn wallet_of(alloc: Global, value: &Value) -> Result<Wallet, Refusal>
    ensures gives { Gives (λ w. w) result (parts_at (view value.now)) }
    // Memory runs out only where the name of an unknown member has to be stored, or behind the first script.
    ensures short { result ≡ Err (Field Memory) → StoresWallet (view value.now) }
{
    whole_of(alloc, value)?;
    let (height, hash) = head_of(value)?;
    let (scripts, change) = watched_of(alloc, value)?;
    let Lists {
        earlier,
        pending,
        abandoned,
        locked,
    } = lists_of(alloc, height, value)?;
    Ok(Wallet {
        height,
        hash,
        scripts,
        change,
        earlier,
        pending,
        abandoned,
        locked,
    })
}

/// The wallet that the bytes of a file are.
#[tactic(auto, unfolding(crate::specs::WalletText::wallet_of))]
fn read(alloc: Global, bytes: &[u8]) -> Result<Wallet, Refusal>
    ensures { Gives (λ w. w) result (wallet_of bytes.now) }
{
    let mut scratch = Scratch::new(alloc);
    let value = parse(alloc, bytes, &mut scratch)?;
    wallet_of(alloc, &value)
}

/// The wallet that the bytes of a file are, or the first fault.
pub fn read_wallet(alloc: Global, bytes: &[u8]) -> Result<Wallet, WalletFault>
    // It is the wallet of the bytes, which keeps the rules of wallets; otherwise the fault is the first.
    ensures exact { Reads result (wallet_of bytes.now) }
    ensures rules { IfOk result IsWallet }
    ensures inner { IfErr result HasReason }
{
    match read(alloc, bytes) {
        Ok(wallet) => Ok(wallet),
        Err(refusal) => Err(refusal.told()),
    }
}

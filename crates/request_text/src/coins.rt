//! The coins that a request lists, none of them twice.

ghost use Rattle.std.specs.Prelude.{◌≡◌, ◌≢◌, ◌≤◌, [], All, AllPairs, Err, IfErr, IfOk, IsOk, None, Ok, OnOk, codes, length};
ghost use Rattle.indexmap.specs.IndexSet.{IsEmpty, spare};
ghost use Rattle.serde_json.specs.Find.{get};
ghost use Rattle.json_fields.specs.Tree.{view, items_view};
ghost use Rattle.json_fields.specs.Fields.{IsPoint, coin_at, each_from, refuse};
ghost use Rattle.fund_base.specs.Parsing.{YieldsAll};
ghost use Rattle.json_fields.specs.Memory.{StoresFirst, StoresList, StoresOptional};
ghost use Rattle.json_fields.specs.declared.fault.FieldFault.TheVariants.{Memory as NoMemory};
ghost use Rattle.request_text.specs.RequestText.{coins_at, index_of, or_else, repeat_behind};
ghost use Rattle.request_text.specs.Reported.{Gives, HasCause};
ghost use Rattle.request_text.specs.declared.fault.Refusal.TheVariants.{Field as FieldRefusal, Repeat};

use crate::bounds::index_of;
use crate::fault::Refusal;
use fund_base::{Memory, OutPoint};
use indexmap::IndexSet;
use json::Value;
use json_fields::{FieldFault, coin_of, items_in, member_in};
use std::alloc::Global;

/// The coins that these entries are.
fn coins_from(alloc: Global, values: &[Value]) -> Result<Vec<OutPoint>, FieldFault>
    ensures gives { YieldsAll NoMemory (λ v. v.items) result (each_from (λ _. coin_at (codes "coins")) [] (items_view values.now)) }
    ensures short { result ≡ Err NoMemory → StoresFirst (λ e. IsOk (coin_at (codes "coins") e)) (items_view values.now) }
    ensures are { IfOk result (λ v. All IsPoint v.items) }
{
    let mut coins = Vec::new(alloc);
    for value in values {
        let coin = coin_of(value, "coins")?;
        coins.push(coin)?;
    }
    Ok(coins)
}

/// The place of the first coin that stands before it too. The set has room for all of them, so it never runs out of memory.
fn first_repeat(seen: &mut IndexSet<OutPoint>, coins: &[OutPoint]) -> Result<Option<usize>, Memory>
    requires empty { IsEmpty seen.old }
    requires room { length coins.now ≤ spare seen.old }
    ensures exact { result ≡ Ok (repeat_behind [] coins.now) }
    ensures distinct { repeat_behind [] coins.now ≡ None → AllPairs (λ a b. a ≢ b) coins.now }
{
    for coin in coins {
        if !seen.insert(*coin)? {
            return Ok(Some(seen.len()));
        }
    }
    Ok(None)
}

/// That no coin stands twice. The set has room for all of them, so it never runs out of memory.
fn check_distinct(seen: &mut IndexSet<OutPoint>, coins: &[OutPoint]) -> Result<(), Refusal>
    requires empty { IsEmpty seen.old }
    requires room { length coins.now ≤ spare seen.old }
    ensures exact { result ≡ refuse (λ place. Repeat (index_of place)) (repeat_behind [] coins.now) }
    ensures distinct { OnOk result (AllPairs (λ a b. a ≢ b) coins.now) }
{
    match first_repeat(seen, coins)? {
        Some(place) => Err(Refusal::Repeat(index_of(place))),
        None => Ok(()),
    }
}

/// The coins that the entries of the list are. Memory for the search of a repeat is taken before it.
#[tactic(auto, unfolding(crate::specs::RequestText::coins_at), using(crate::proofs::Repeats::distinct_ok, crate::proofs::Repeats::distinct_err))]
fn coins_of(alloc: Global, value: &Value) -> Result<Vec<OutPoint>, Refusal>
    ensures gives { Gives (λ v. v.items) result (coins_at (view value.now)) }
    ensures short { result ≡ Err (FieldRefusal NoMemory) → StoresList (codes "coins") (λ e. IsOk (coin_at (codes "coins") e)) (view value.now) }
    ensures are { IfOk result (λ v. All IsPoint v.items) }
    ensures distinct { IfOk result (λ v. AllPairs (λ a b. a ≢ b) v.items) }
    ensures cause { IfErr result HasCause }
{
    let Some(entries) = items_in(value) else {
        return Err(Refusal::from(FieldFault::kind("coins")));
    };
    let coins = coins_from(alloc, entries)?;
    let mut seen = IndexSet::with_capacity(alloc, coins.len())?;
    check_distinct(&mut seen, &coins)?;
    Ok(coins)
}

/// The listed coins, none where the member is left out.
pub fn coins_or_none(alloc: Global, whole: &Value) -> Result<Vec<OutPoint>, Refusal>
    ensures gives { Gives (λ v. v.items) result (or_else [] coins_at (codes "coins") (view whole.now)) }
    ensures short { result ≡ Err (FieldRefusal NoMemory) → StoresOptional (StoresList (codes "coins") (λ e. IsOk (coin_at (codes "coins") e))) (get (codes "coins") (view whole.now)) }
    ensures are { IfOk result (λ v. All IsPoint v.items) }
    ensures distinct { IfOk result (λ v. AllPairs (λ a b. a ≢ b) v.items) }
    ensures cause { IfErr result HasCause }
{
    match member_in(whole, "coins") {
        Some(value) => coins_of(alloc, value),
        None => Ok(Vec::new(alloc)),
    }
}

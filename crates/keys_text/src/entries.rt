//! The entries of scripts, each read after those before it.

ghost use Rattle.std.specs.Prelude.{◌≡◌, [], Err, codes, length};
ghost use Rattle.json_fields.specs.Tree.{view, items_view};
ghost use Rattle.fund_base.specs.Parsing.{YieldsAll};
ghost use Rattle.json_fields.specs.Fields.{each_from, is_among, object_at};
ghost use Rattle.json_fields.specs.Memory.{StoresFirst, StoresList, StoresName};
ghost use Rattle.json_fields.specs.declared.fault.FieldFault.TheVariants.{Memory as NoMemory};
ghost use Rattle.keys_text.specs.Entries.{entries_of, scripts_of};
ghost use Rattle.keys_text.specs.KeysText.{entry_at, entry_behind, entry_names, entry_required, hex_or_none, internal_at, known_at, scripts_at, sized_at};
ghost use Rattle.keys_text.specs.Stores.{StoresEntry};
ghost use Rattle.keys_text.specs.declared.fault.KeysFault.TheVariants.{Field};

use crate::fault::KeysFault;
use crate::judging::judge;
use crate::key_paths::key_paths_of;
use crate::keys::{ScriptKeys, Scripts};
use fund_base::Script;
use hex::FromHex;
use indexmap::IndexMap;
use json::Value;
use json_fields::{FieldFault, hex_of, items_in, member_in, member_of, object_of, text_of};
use std::alloc::Global;
use std::marker::Model;

/// A script, and what is known of it.
#[derive(Drop)]
pub struct Entry {
    pub script: Vec<u8>,
    pub known: ScriptKeys,
}

impl Model for Entry {
    ghost use Rattle.keys_text.specs.PlainKeys.{PlainEntry};

    ghost Value = { PlainEntry };

    ghost view = { λ e. record { script = e.script.items; known = e.known } };
}

/// The script of this name, where there is one.
#[tactic(auto, unfolding(crate::specs::KeysText::hex_or_none))]
fn script_or_none(
    alloc: Global,
    value: &Value,
    name: &'static str,
) -> Result<Option<Script>, FieldFault>
    ensures { YieldsAll NoMemory (λ s. s) result (hex_or_none name.now (view value.now)) }
{
    match member_in(value, name) {
        Some(member) => {
            let bytes = hex_of(alloc, member, name)?;
            Ok(Some(Script::new(bytes)))
        }
        None => Ok(None),
    }
}

/// An x-only public key.
#[tactic(auto, unfolding(crate::specs::KeysText::sized_at))]
fn internal_of(value: &Value) -> Result<[u8; 32], FieldFault>
    ensures { result ≡ sized_at (codes "internal") 32 (view value.now) }
{
    match <[u8; 32] as FromHex>::from_hex(text_of(value, "internal")?) {
        Ok(key) => Ok(key),
        Err(_) => Err(FieldFault::kind("internal")),
    }
}

/// The internal key, where there is one.
#[tactic(auto, unfolding(crate::specs::KeysText::internal_at))]
fn internal_or_none(value: &Value) -> Result<Option<[u8; 32]>, FieldFault>
    ensures { result ≡ internal_at (view value.now) }
{
    match member_in(value, "internal") {
        Some(member) => {
            let key = internal_of(member)?;
            Ok(Some(key))
        }
        None => Ok(None),
    }
}

/// The members beside the script.
#[tactic(auto, unfolding(crate::specs::KeysText::known_at))]
fn known_of(alloc: Global, value: &Value) -> Result<ScriptKeys, FieldFault>
    ensures { YieldsAll NoMemory (λ k. k) result (known_at (view value.now)) }
{
    let redeem = script_or_none(alloc, value, "redeem")?;
    let witness = script_or_none(alloc, value, "witness")?;
    let internal = internal_or_none(value)?;
    let keys = key_paths_of(alloc, "keys", "pubkey", member_of(value, "keys")?)?;
    Ok(ScriptKeys {
        redeem,
        witness,
        internal,
        keys,
    })
}

/// That an entry is an object with known members and the required ones.
fn form_of(alloc: Global, value: &Value) -> Result<(), FieldFault>
    ensures gives { YieldsAll NoMemory (λ _. tt) result (object_at (codes "scripts") entry_names entry_required (view value.now)) }
    ensures short { result ≡ Err NoMemory → StoresName (object_at (codes "scripts") entry_names entry_required (view value.now)) }
{
    let required = ["script", "keys"];
    let known = ["script", "redeem", "witness", "internal", "keys"];
    object_of(alloc, value, "scripts", &known, &required)
}

/// A script and what is known of it. Memory is first taken for the script.
#[tactic(auto, unfolding(crate::specs::KeysText::entry_at))]
fn entry_of(alloc: Global, value: &Value) -> Result<Entry, FieldFault>
    ensures gives { YieldsAll NoMemory (λ e. e) result (entry_at (view value.now)) }
    ensures short { result ≡ Err NoMemory → StoresEntry (view value.now) }
{
    form_of(alloc, value)?;
    let script = hex_of(alloc, member_of(value, "script")?, "script")?;
    let known = known_of(alloc, value)?;
    Ok(Entry { script, known })
}

/// Whether a script has an entry.
fn is_listed(scripts: &Scripts, script: &[u8]) -> bool
    ensures { result ≡ is_among (scripts_of (entries_of scripts.now.entries)) script.now }
{
    scripts.contains_key(script)
}

/// How many scripts have an entry.
#[tactic(auto, using(crate::proofs::Held::counted))]
fn count_of(scripts: &Scripts) -> usize
    ensures { result ≡ length (entries_of scripts.now.entries) }
{
    scripts.len()
}

/// The entry behind those that the scripts have.
#[tactic(auto, unfolding(crate::specs::KeysText::entry_behind))]
fn next_entry(alloc: Global, scripts: &Scripts, value: &Value) -> Result<Entry, KeysFault>
    ensures gives { YieldsAll (Field NoMemory) (λ e. e) result (entry_behind (entries_of scripts.now.entries) (view value.now)) }
    ensures short { result ≡ Err (Field NoMemory) → StoresEntry (view value.now) }
{
    let entry = entry_of(alloc, value)?;
    let listed = is_listed(scripts, &entry.script);
    judge(listed, count_of(scripts), &entry)?;
    Ok(entry)
}

/// Adds the entries to none.
fn add_entries(alloc: Global, scripts: &mut Scripts, values: &[Value]) -> Result<(), KeysFault>
    requires { scripts.old.entries ≡ [] }
    ensures gives { YieldsAll (Field NoMemory) (λ _. entries_of scripts.new.entries) result (each_from entry_behind [] (items_view values.now)) }
    ensures short { result ≡ Err (Field NoMemory) → StoresFirst StoresEntry (items_view values.now) }
{
    for value in values {
        let Entry { script, known } = next_entry(alloc, scripts, value)?;
        scripts.insert(script, known)?;
    }
    Ok(())
}

/// The entries of a list, no script twice.
#[tactic(auto, unfolding(crate::specs::KeysText::scripts_at))]
pub fn scripts_of(alloc: Global, value: &Value) -> Result<Scripts, KeysFault>
    ensures gives { YieldsAll (Field NoMemory) (λ s. entries_of s.entries) result (scripts_at (view value.now)) }
    ensures short { result ≡ Err (Field NoMemory) → StoresList (codes "scripts") StoresEntry (view value.now) }
{
    let Some(entries) = items_in(value) else {
        return Err(KeysFault::from(FieldFault::kind("scripts")));
    };
    let mut scripts = IndexMap::new(alloc);
    add_entries(alloc, &mut scripts, entries)?;
    Ok(scripts)
}

//! Keys with their paths, as objects of a list.

ghost use Rattle.std.specs.Prelude.{◌≡◌, ◌≢◌, [], Err, codes};
ghost use Rattle.json_fields.specs.Tree.{view, items_view};
ghost use Rattle.fund_base.specs.Parsing.{YieldsAll};
ghost use Rattle.json_fields.specs.Fields.{each_from};
ghost use Rattle.json_fields.specs.Memory.{StoresFirst, StoresList};
ghost use Rattle.json_fields.specs.declared.fault.FieldFault.TheVariants.{Memory as NoMemory};
ghost use Rattle.keys_text.specs.KeysText.{key_path_at, key_paths_at, sized_at};
ghost use Rattle.keys_text.specs.Stores.{StoresKey};

use crate::keys::KeyPath;
use crate::paths::path_of;
use hex::FromHex;
use json::Value;
use json_fields::{FieldFault, hex_of, items_in, member_of, object_of, text_of};
use std::alloc::Global;

/// The most keys of a list.
const MOST_KEYS: usize = 1_000;

/// The fingerprint of a master key.
#[tactic(auto, unfolding(crate::specs::KeysText::sized_at))]
fn fingerprint_of(value: &Value) -> Result<[u8; 4], FieldFault>
    ensures exact { result ≡ sized_at (codes "fingerprint") 4 (view value.now) }
    ensures never { result ≢ Err NoMemory }
{
    match <[u8; 4] as FromHex>::from_hex(text_of(value, "fingerprint")?) {
        Ok(fingerprint) => Ok(fingerprint),
        Err(_) => Err(FieldFault::kind("fingerprint")),
    }
}

/// A key of this name with its path. Memory is first taken for the key.
#[tactic(auto, unfolding(crate::specs::KeysText::key_path_at))]
fn key_path_of(
    alloc: Global,
    whole: &'static str,
    name: &'static str,
    value: &Value,
) -> Result<KeyPath, FieldFault>
    ensures gives { YieldsAll NoMemory (λ k. k) result (key_path_at whole.now name.now (view value.now)) }
    ensures short { result ≡ Err NoMemory → StoresKey whole.now name.now (view value.now) }
{
    let names = [name, "fingerprint", "path"];
    object_of(alloc, value, whole, &names, &names)?;
    let key = hex_of(alloc, member_of(value, name)?, name)?;
    let fingerprint = fingerprint_of(member_of(value, "fingerprint")?)?;
    let path = path_of(alloc, member_of(value, "path")?)?;
    Ok(KeyPath {
        key,
        fingerprint,
        path,
    })
}

/// The keys of these entries.
fn key_paths_from(
    alloc: Global,
    whole: &'static str,
    name: &'static str,
    values: &[Value],
) -> Result<Vec<KeyPath>, FieldFault>
    ensures gives { YieldsAll NoMemory (λ v. v.items) result (each_from (λ _. key_path_at whole.now name.now) [] (items_view values.now)) }
    ensures short { result ≡ Err NoMemory → StoresFirst (StoresKey whole.now name.now) (items_view values.now) }
{
    let mut keys = Vec::new(alloc);
    for value in values {
        let key = key_path_of(alloc, whole, name, value)?;
        keys.push(key)?;
    }
    Ok(keys)
}

/// The keys of a list of at most 1,000 entries.
#[tactic(auto, unfolding(crate::specs::KeysText::key_paths_at))]
pub fn key_paths_of(
    alloc: Global,
    whole: &'static str,
    name: &'static str,
    value: &Value,
) -> Result<Vec<KeyPath>, FieldFault>
    ensures gives { YieldsAll NoMemory (λ v. v.items) result (key_paths_at whole.now name.now (view value.now)) }
    ensures short { result ≡ Err NoMemory → StoresList whole.now (StoresKey whole.now name.now) (view value.now) }
{
    let Some(entries) = items_in(value) else {
        return Err(FieldFault::kind(whole));
    };
    let keys = key_paths_from(alloc, whole, name, entries)?;
    if keys.len() > MOST_KEYS {
        return Err(FieldFault::kind(whole));
    }
    Ok(keys)
}

//! Reading a keys file.

ghost use Rattle.std.specs.Prelude.{◌≡◌, [], Err, IfOk, codes};
ghost use Rattle.serde_json.specs.Find.{get};
ghost use Rattle.json_fields.specs.Tree.{view};
ghost use Rattle.fund_base.specs.Parsing.{YieldsAll};
ghost use Rattle.json_fields.specs.Fields.{object_at, optional};
ghost use Rattle.json_fields.specs.Memory.{StoresList, StoresName, StoresOptional};
ghost use Rattle.json_fields.specs.declared.fault.FieldFault.TheVariants.{Memory as NoMemory};
ghost use Rattle.keys_text.specs.KeysRules.{IsKeys};
ghost use Rattle.keys_text.specs.KeysText.{keys_at, keys_of, root_names, root_required, xpubs_at};
ghost use Rattle.keys_text.specs.Stores.{StoresKey, StoresKeys};
ghost use Rattle.keys_text.specs.declared.fault.KeysFault.TheVariants.{Field};

use crate::entries::scripts_of;
use crate::fault::KeysFault;
use crate::judging::judge_xpubs;
use crate::key_paths::key_paths_of;
use crate::keys::{KeyPath, Keys};
use json::{Scratch, Value};
use json_fields::{FieldFault, member_in, member_of, object_of, parse};
use std::alloc::Global;

/// The extended public keys of a list.
#[tactic(auto, unfolding(crate::specs::KeysText::xpubs_at))]
fn xpubs_of(alloc: Global, value: &Value) -> Result<Vec<KeyPath>, KeysFault>
    ensures gives { YieldsAll (Field NoMemory) (λ v. v.items) result (xpubs_at (view value.now)) }
    ensures short { result ≡ Err (Field NoMemory) → StoresList (codes "xpubs") (StoresKey (codes "xpubs") (codes "xpub")) (view value.now) }
{
    let xpubs = key_paths_of(alloc, "xpubs", "xpub", value)?;
    judge_xpubs(&xpubs)?;
    Ok(xpubs)
}

/// The extended public keys, none where the list is left out.
fn xpubs_or_none(alloc: Global, value: &Value) -> Result<Vec<KeyPath>, KeysFault>
    ensures gives { YieldsAll (Field NoMemory) (λ v. v.items) result (optional [] xpubs_at (get (codes "xpubs") (view value.now))) }
    ensures short { result ≡ Err (Field NoMemory) → StoresOptional (StoresList (codes "xpubs") (StoresKey (codes "xpubs") (codes "xpub"))) (get (codes "xpubs") (view value.now)) }
{
    match member_in(value, "xpubs") {
        Some(list) => xpubs_of(alloc, list),
        None => Ok(Vec::new(alloc)),
    }
}

/// That the value is an object with known members and the required one.
fn whole_of(alloc: Global, value: &Value) -> Result<(), FieldFault>
    ensures gives { YieldsAll NoMemory (λ _. tt) result (object_at (codes "root") root_names root_required (view value.now)) }
    ensures short { result ≡ Err NoMemory → StoresName (object_at (codes "root") root_names root_required (view value.now)) }
{
    object_of(alloc, value, "root", &["scripts", "xpubs"], &["scripts"])
}

/// The keys that a value is.
#[tactic(auto, unfolding(crate::specs::KeysText::keys_at))]
fn keys_in(alloc: Global, value: &Value) -> Result<Keys, KeysFault>
    ensures gives { YieldsAll (Field NoMemory) (λ k. k) result (keys_at (view value.now)) }
    // Memory runs out only where the name of an unknown member has to be stored, or behind the first script or key.
    ensures short { result ≡ Err (Field NoMemory) → StoresKeys (view value.now) }
{
    whole_of(alloc, value)?;
    let scripts = scripts_of(alloc, member_of(value, "scripts")?)?;
    let xpubs = xpubs_or_none(alloc, value)?;
    Ok(Keys { scripts, xpubs })
}

/// The keys that the bytes of a file are, or the first fault: the faults of JSON, then those of the whole object, then the
/// entries of `scripts` and after them those of `xpubs`. Each entry of `scripts` comes with its form and its rules before
/// the next; the list `xpubs` comes with its form before its rules.
#[tactic(auto, unfolding(crate::specs::KeysText::keys_of))]
pub fn read_keys(alloc: Global, bytes: &[u8]) -> Result<Keys, KeysFault>
    // It is the keys of the bytes, which keep the rules of keys files; otherwise the fault is the first.
    ensures exact { YieldsAll (Field NoMemory) (λ k. k) result (keys_of bytes.now) }
    ensures rules { IfOk result IsKeys }
{
    let mut scratch = Scratch::new(alloc);
    let value = parse(alloc, bytes, &mut scratch)?;
    keys_in(alloc, &value)
}

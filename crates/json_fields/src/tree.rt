//! The tree of a JSON file. Its names and strings are pieces of the file, so it takes memory for its lists alone.

ghost use Rattle.std.specs.Prelude.{◌≡◌, ◌≢◌, Some, None, Err, IfOk, IfErr, option_map, option_and_then};
ghost use Rattle.json.specs.Find as finds;
ghost use Rattle.json.specs.Json.{value};
ghost use Rattle.json.specs.Value as trees;
ghost use Rattle.serde_json.specs.Find.{get, as_number, as_u64, as_bool, as_str, as_array};
ghost use Rattle.serde_json.specs.Read.{max_depth};
ghost use Rattle.fund_base.specs.Parsing.{YieldsAll};
ghost use Rattle.json_fields.specs.Fields.{value_of};
ghost use Rattle.json_fields.specs.Tree.{is_in_range, are_in_range, have_range, view, items_view};
ghost use Rattle.json_fields.specs.declared.fault.FieldFault.TheVariants.{Memory, NotJson};

use crate::fault::FieldFault;
use crate::number::number_in;
use json::{Error, Reader, Scratch, Value};
use std::alloc::Global;
use std::str::from_utf8;

/// How deep lists and objects nest at most, as `serde_json` reads them.
const MAX_DEPTH: usize = 127;

/// Whether no number of the value is too large for `serde_json`.
#[cycle(range)]
fn is_in_range(value: &Value) -> bool
    ensures { result ≡ is_in_range (trees.value_view value.now) }
{
    match value {
        Value::Number(text) => number_in(text).is_some(),
        Value::Array(items) => are_in_range(items),
        Value::Object(members) => have_range(members),
        _ => true,
    }
}

#[cycle(range)]
fn are_in_range(items: &Vec<Value>) -> bool
    ensures { result ≡ are_in_range (trees.items_view items.now.items) }
{
    for item in items {
        if !is_in_range(item) {
            return false;
        }
    }
    true
}

#[cycle(range)]
fn have_range(members: &Vec<(&str, Value)>) -> bool
    ensures { result ≡ have_range (trees.members_view members.now.items) }
{
    for member in members {
        if !is_in_range(&member.1) {
            return false;
        }
    }
    true
}

/// The next value of the text.
fn read_value<'t>(alloc: Global, reader: &mut Reader<'t>) -> Result<Value<'t>, FieldFault>
    ensures ok { IfOk result (λ v. value max_depth reader.old ≡ Some (trees.value_view v, reader.new)) }
    ensures refused { IfErr result (λ e. e ≢ Memory → (e ≡ NotJson) × (value max_depth reader.old ≡ None)) }
{
    match Value::read(alloc, reader, MAX_DEPTH) {
        Ok(value) => Ok(value),
        Err(Error::OutOfMemory) => Err(FieldFault::Memory),
        Err(_) => Err(FieldFault::NotJson),
    }
}

/// The value that the bytes are. [`FieldFault::NotJson`] exactly where `serde_json` doesn't take them. Strings that have
/// escapes are written out in the scratch.
#[tactic(auto, unfolding(crate::specs::Fields::value_of))]
pub fn parse<'t>(
    alloc: Global,
    bytes: &'t [u8],
    scratch: &'t mut Scratch,
) -> Result<Value<'t>, FieldFault>
    ensures { YieldsAll Memory (λ v. view v) result (value_of bytes.now) }
{
    let Ok(text) = from_utf8(bytes) else {
        return Err(FieldFault::NotJson);
    };
    let mut reader = Reader::new(text, scratch)?;
    let value = read_value(alloc, &mut reader)?;
    if reader.next().is_some() || !is_in_range(&value) {
        return Err(FieldFault::NotJson);
    }
    Ok(value)
}

/// The whole number of 64 bits that the value is.
pub fn u64_in(value: &Value) -> Option<u64>
    ensures { result ≡ option_and_then as_u64 (as_number (view value.now)) }
{
    number_in(value.as_number()?)?.as_u64()
}

/// The truth value that the value is.
pub fn bool_in(value: &Value) -> Option<bool>
    ensures { result ≡ as_bool (view value.now) }
{
    value.as_bool()
}

/// The text of the string that the value is.
pub fn str_in<'t>(value: &Value<'t>) -> Option<&'t str>
    ensures { option_map (λ s. s.now) result ≡ as_str (view value.now) }
{
    value.as_str()
}

fn list_in<'v, 't>(value: &'v Value<'t>) -> Option<&'v [Value<'t>]>
    ensures { option_map (λ vs. trees.items_view vs.now) result ≡ finds.as_array (trees.value_view value.now) }
{
    if let Value::Array(items) = value {
        Some(items.as_slice())
    } else {
        None
    }
}

/// The entries of the list that the value is.
pub fn items_in<'v, 't>(value: &'v Value<'t>) -> Option<&'v [Value<'t>]>
    ensures { option_map (λ vs. items_view vs.now) result ≡ as_array (view value.now) }
{
    list_in(value)
}

/// The members of the object that the value is, in the order of the text. A name may stand twice.
pub fn members_in<'v, 't>(value: &'v Value<'t>) -> Option<&'v [(&'t str, Value<'t>)]>
    ensures { option_map (λ ms. trees.members_view ms.now) result ≡ finds.as_object (trees.value_view value.now) }
{
    if let Value::Object(members) = value {
        Some(members.as_slice())
    } else {
        None
    }
}

/// The member of this name, the last of several.
pub fn member_in<'v, 't>(value: &'v Value<'t>, name: &str) -> Option<&'v Value<'t>>
    ensures { option_map (λ v. view v.now) result ≡ get name.now (view value.now) }
{
    value.get(name)
}

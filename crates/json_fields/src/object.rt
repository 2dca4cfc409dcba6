//! Objects and their members.

ghost use Rattle.std.specs.Prelude.{◌≡◌, ◌≢◌, ℕ, List, Err, filter, find, not, bytes_eq, is_none, option_map};
ghost use Rattle.std.specs.Borrow.{Bor};
ghost use Rattle.std.specs.List.{list_any};
ghost use Rattle.std.specs.Option.{option_copied};
ghost use Rattle.json.specs.Strict.{keys};
ghost use Rattle.json.specs.Value as trees;
ghost use Rattle.serde_json.specs.Data.{no_members};
ghost use Rattle.serde_json.specs.Find.{get};
ghost use Rattle.fund_base.specs.Parsing.{YieldsAll};
ghost use Rattle.json_fields.specs.Fields.{texts, is_among, unknown_in, lesser, least, first_missing, object_at, member_at};
ghost use Rattle.json_fields.specs.Memory.{Exactly, StoresName};
ghost use Rattle.json_fields.specs.Tree.{lesser_than, members_data, view};
ghost use Rattle.json_fields.specs.declared.fault.FieldFault.TheVariants.{Memory};

use crate::fault::FieldFault;
use crate::tree::{member_in, members_in};
use json::Value;
use std::alloc::Global;
use std::cmp::Ordering;

/// Whether the name is one of these.
fn is_among(names: &[&str], name: &str) -> bool
    ensures { result ≡ list_any (λ (n : Bor (List ℕ)). bytes_eq name.now n.now) names.now }
{
    names.iter().any(|other| name == *other)
}

/// Of two names the lesser by bytes.
fn lesser<'t>(name: &'t str, other: &'t str) -> &'t str
    ensures { result.now ≡ lesser name.now other.now }
{
    match name.cmp(other) {
        Ordering::Greater => other,
        _ => name,
    }
}

/// Of a name and the least before it, the lesser by bytes.
fn lesser_than<'t>(least: Option<&'t str>, name: &'t str) -> &'t str
    ensures { result.now ≡ lesser_than (option_map (λ (n : Bor (List ℕ)). n.now) least.entry) name.now }
{
    match least {
        Some(other) => lesser(other, name),
        None => name,
    }
}

/// The least name by bytes that isn't known.
fn least_among<'t>(known: &[&str], members: &[(&'t str, Value<'t>)]) -> Option<&'t str>
    ensures { option_map (λ (n : Bor (List ℕ)). n.now) result ≡ least (filter (λ name. not (is_among (texts known.now) name)) (keys (trees.members_view members.now))) }
{
    let mut least = None;
    for member in members {
        if !is_among(known, member.0) {
            least = Some(lesser_than(least, member.0));
        }
    }
    least
}

/// The same, of the object whose members these are.
fn least_unknown<'t>(known: &[&str], members: &[(&'t str, Value<'t>)]) -> Option<&'t str>
    ensures { option_map (λ (n : Bor (List ℕ)). n.now) result ≡ least (unknown_in (texts known.now) (members_data (trees.members_view members.now) no_members)) }
{
    least_among(known, members)
}

/// Whether there is no member of this name.
fn lacks(value: &Value, name: &str) -> bool
    ensures { result ≡ is_none (get name.now (view value.now)) }
{
    member_in(value, name).is_none()
}

/// The first of the required names that the object lacks.
fn first_lacking<'a>(required: &'a [&'static str], value: &Value) -> Option<&'a &'static str>
    ensures { option_copied result ≡ find (λ (n : Bor (List ℕ)). is_none (get n.now (view value.now))) required.now }
{
    required.iter().find(|name| lacks(value, name))
}

/// The same, by what the names are.
fn first_missing<'a>(required: &'a [&'static str], value: &Value) -> Option<&'a &'static str>
    ensures { option_map (λ (n : Bor (List ℕ)). n.now) (option_copied result) ≡ first_missing (texts required.now) (view value.now) }
{
    first_lacking(required, value)
}

/// That the value is an object whose members are all known, and that has the required ones. Of its faults it is the
/// first of these: [`FieldFault::Kind`] of the whole, [`FieldFault::Member`] of the least unknown name by bytes,
/// [`FieldFault::Missing`] of the first required one that it lacks.
#[tactic(auto, unfolding(crate::specs::Fields::object_at))]
pub fn object_of(
    alloc: Global,
    value: &Value,
    whole: &'static str,
    known: &[&str],
    required: &[&'static str],
) -> Result<(), FieldFault>
    ensures gives { YieldsAll Memory (λ _. tt) result (object_at whole.now (texts known.now) (texts required.now) (view value.now)) }
    // Memory is taken for the name of an unknown member alone.
    ensures short { result ≡ Err Memory → StoresName (object_at whole.now (texts known.now) (texts required.now) (view value.now)) }
{
    let Some(members) = members_in(value) else {
        return Err(FieldFault::kind(whole));
    };
    if let Some(name) = least_unknown(known, members) {
        return Err(FieldFault::member(alloc, name));
    }
    match first_missing(required, value) {
        Some(name) => Err(FieldFault::missing(name)),
        None => Ok(()),
    }
}

/// The member of this name, or [`FieldFault::Missing`].
#[tactic(auto, unfolding(crate::specs::Fields::member_at))]
pub fn member_of<'v, 't>(
    value: &'v Value<'t>,
    name: &'static str,
) -> Result<&'v Value<'t>, FieldFault>
    ensures exact { Exactly (λ v. view v.now) result (member_at name.now (view value.now)) }
    ensures never { result ≢ Err Memory }
{
    match member_in(value, name) {
        Some(member) => Ok(member),
        None => Err(FieldFault::missing(name)),
    }
}

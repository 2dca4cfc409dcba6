//! Reading a request file.

ghost use Rattle.std.specs.Prelude.{◌≡◌, Err, IfOk, IfErr, is_some, codes, true};
ghost use Rattle.serde_json.specs.Data.{Data};
ghost use Rattle.serde_json.specs.Find.{get};
ghost use Rattle.json_fields.specs.Tree.{view};
ghost use Rattle.fund_base.specs.Parsing.{YieldsAll};
ghost use Rattle.json_fields.specs.Fields.{object_at, parsed, texts};
ghost use Rattle.json_fields.specs.Memory.{StoresName};
ghost use Rattle.json_fields.specs.declared.fault.FieldFault.TheVariants.{Memory as NoMemory};
ghost use Rattle.request_text.specs.Parts.{parts_at};
ghost use Rattle.request_text.specs.PlainRequest.{IsRequest, draws};
ghost use Rattle.request_text.specs.RequestText.{known_in, needs_seed, request_of, required_in};
ghost use Rattle.request_text.specs.Stores.{StoresRequest};
ghost use Rattle.request_text.specs.Reported.{Gives, HasCause, Reads, plain_fault};
ghost use Rattle.request_text.specs.declared.fault.Refusal.TheVariants.{Field as FieldRefusal};

use crate::coins::coins_or_none;
use crate::fault::{Refusal, RequestFault, told};
use crate::member::method_in;
use crate::recipients::recipients_of;
use crate::request::{Method, Request};
use crate::settings::{policy_of, rates_of, search_of, terms_of};
use json::{Scratch, Value};
use json_fields::{FieldFault, member_in, member_of, object_of, parse, str_in};
use std::alloc::Global;

/// Whether the method draws at random, so that a seed has to be given.
fn draws(method: Method) -> bool
    ensures { result ≡ draws method }
{
    matches!(method, Method::Auto | Method::Draw)
}

/// Whether the member `method` is left out or names a method that draws.
#[tactic(auto, unfolding(crate::specs::RequestText::needs_seed))]
fn needs_seed(value: &Value) -> bool
    ensures { result ≡ needs_seed (view value.now) }
{
    match member_in(value, "method") {
        Some(method) => match str_in(method) {
            Some(word) => match method_in(word) {
                Some(method) => draws(method),
                None => false,
            },
            None => false,
        },
        None => true,
    }
}

/// That the value is an object with these known members and the required ones.
fn whole_among(alloc: Global, value: &Value, known: &[&str]) -> Result<(), FieldFault>
    ensures gives { YieldsAll NoMemory (λ _. tt) result (object_at (codes "root") (texts known.now) (required_in (view value.now)) (view value.now)) }
    ensures short { result ≡ Err NoMemory → StoresName (object_at (codes "root") (texts known.now) (required_in (view value.now)) (view value.now)) }
{
    let required = ["recipients", "rate", "seed"];
    if needs_seed(value) {
        object_of(alloc, value, "root", known, &required)
    } else {
        object_of(alloc, value, "root", known, &required[..2])
    }
}

/// Whether there is a member of this name.
fn has(value: &Value, name: &str) -> bool
    ensures { result ≡ is_some (get name.now (view value.now)) }
{
    member_in(value, name).is_some()
}

/// That the value is an object with known members and the required ones.
fn whole_of(alloc: Global, value: &Value) -> Result<(), FieldFault>
    ensures gives { YieldsAll NoMemory (λ _. tt) result (object_at (codes "root") (known_in (view value.now)) (required_in (view value.now)) (view value.now)) }
    ensures short { result ≡ Err NoMemory → StoresName (object_at (codes "root") (known_in (view value.now)) (required_in (view value.now)) (view value.now)) }
{
    let known = [
        "coins",
        "recipients",
        "rate",
        "long_term",
        "discard",
        "change_target",
        "method",
        "seed",
        "tries",
        "when_unfinished",
        "zero_conf",
        "include_unsafe",
        "group",
        "bump",
        "replaceable",
        "locktime",
        "psbt",
    ];
    if has(value, "bump") {
        whole_among(alloc, value, &known[1..])
    } else {
        whole_among(alloc, value, &known)
    }
}

/// The request that the value is.
#[tactic(auto, unfolding(crate::specs::Parts::parts_at))]
fn request_in(alloc: Global, value: &Value) -> Result<Request, Refusal>
    ensures gives { Gives (λ r. r) result (parts_at (view value.now)) }
    // Memory runs out only where the name of an unknown member has to be stored, or behind the first recipient's script.
    ensures short { result ≡ Err (FieldRefusal NoMemory) → StoresRequest (view value.now) }
    ensures seed { IfOk result (λ r. draws r.method ≡ true → is_some (get (codes "seed") (view value.now)) ≡ true) }
    ensures cause { IfErr result HasCause }
{
    whole_of(alloc, value)?;
    let recipients = recipients_of(alloc, member_of(value, "recipients")?)?;
    let rates = rates_of(value)?;
    let search = search_of(value)?;
    let policy = policy_of(value)?;
    let coins = coins_or_none(alloc, value)?;
    let terms = terms_of(value)?;
    Ok(Request {
        recipients,
        rate: rates.rate,
        long_term: rates.long_term,
        discard: rates.discard,
        change_target: rates.change_target,
        method: search.method,
        seed: search.seed,
        tries: search.tries,
        take: search.take,
        zero_conf: policy.zero_conf,
        include_unsafe: policy.include_unsafe,
        group: policy.group,
        coins,
        bump: terms.bump,
        replaceable: terms.replaceable,
        locktime: terms.locktime,
        psbt: terms.psbt,
    })
}

/// The request that the bytes are.
#[tactic(auto, unfolding(crate::specs::RequestText::request_of))]
fn request_from(alloc: Global, bytes: &[u8]) -> Result<Request, Refusal>
    ensures gives { Gives (λ r. r) result (request_of bytes.now) }
    ensures seed { IfOk result (λ r. (d : Data) → parsed bytes.now ≡ Some d → draws r.method ≡ true → is_some (get (codes "seed") d) ≡ true) }
    ensures cause { IfErr result HasCause }
{
    let mut scratch = Scratch::new(alloc);
    let value = parse(alloc, bytes, &mut scratch)?;
    request_in(alloc, &value)
}

/// The request that the bytes of a file are, or the first fault: the faults of JSON, then those of the whole object
/// (its kind, the least unknown member, the first missing one), then the members in the order of the fields of
/// [`Request`], each with its kind before its other rules. Of the recipients each entry comes with all its rules before
/// the next; after them come [`RequestFault::NoRecipients`] and [`RequestFault::SumRange`]. docs/FORMATS.md has each
/// member with its default.
pub fn read_request(alloc: Global, bytes: &[u8]) -> Result<Request, RequestFault>
    // The request is the file's, and a fault is the first that the file has.
    ensures exact { Reads result (request_of bytes.now) }

    // What is read keeps the rules of a request; where its method draws, the file gives a seed.
    ensures rules { IfOk result IsRequest }
    ensures seed { IfOk result (λ r. (d : Data) → parsed bytes.now ≡ Some d → draws r.method ≡ true → is_some (get (codes "seed") d) ≡ true) }

    // Out of memory is reported as such, also where an address was read.
    ensures cause { IfErr result (λ fault. HasCause (plain_fault fault)) }
{
    match request_from(alloc, bytes) {
        Ok(request) => {
            request.keeps_rules();
            Ok(request)
        }
        Err(refusal) => Err(told(refusal)),
    }
}

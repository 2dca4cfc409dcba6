//! The members of a request other than its lists, in parts that are read together.

ghost use Rattle.std.specs.Prelude.{◌≡◌, ◌≢◌, ◌<◌, ◌≤◌, ◌^◌, IfErr, IfOk, IfSome, IsSome, Ok, Err, codes, is_some, true};
ghost use Rattle.serde_json.specs.Find.{get};
ghost use Rattle.json_fields.specs.Tree.{view};
ghost use Rattle.json_fields.specs.Fields.{IsHash};
ghost use Rattle.json_fields.specs.declared.fault.FieldFault.TheVariants.{Memory as NoMemory};
ghost use Rattle.request_text.specs.Parts.{AreRates, policy_at, rates_at, search_at, terms_at};
ghost use Rattle.request_text.specs.PlainRequest.{IsVersion};
ghost use Rattle.request_text.specs.RequestText.{field, method_at, or_else};
ghost use Rattle.request_text.specs.Reported.{HasCause};
ghost use Rattle.request_text.specs.declared.fault.Refusal.TheVariants.{Field as FieldRefusal};

use crate::fault::Refusal;
use crate::member::{
    bump_or_none, flag_or, method_or_auto, number_or, rate_of, rate_or, seed_or_zeros,
    take_or_true, tries_or, version_or_zero,
};
use crate::request::Method;
use fund_base::{MAX_MONEY, Txid};
use json::Value;
use json_fields::member_of;

/// The rates, and the change that is aimed at.
#[derive(Clone, Copy)]
pub struct Rates {
    pub rate: u64,
    pub long_term: u64,
    pub discard: u64,
    pub change_target: u64,
}

/// The rates of the request that the value is.
#[tactic(auto, unfolding(crate::specs::Parts::rates_at))]
pub fn rates_of(value: &Value) -> Result<Rates, Refusal>
    ensures exact { result ≡ rates_at (view value.now) }
    ensures never { result ≢ Err (FieldRefusal NoMemory) }
    ensures are { IfOk result AreRates }
    ensures cause { IfErr result HasCause }
{
    let rate = rate_of(member_of(value, "rate")?, "rate")?;
    let long_term = rate_or(value, "long_term", 10_000)?;
    let discard = rate_or(value, "discard", 10_000)?;
    let change_target = number_or(value, "change_target", MAX_MONEY, 50_000)?;
    Ok(Rates {
        rate,
        long_term,
        discard,
        change_target,
    })
}

/// How coins are searched for.
#[derive(Clone, Copy)]
pub struct Search {
    pub method: Method,
    pub seed: [u8; 32],
    pub tries: u64,
    pub take: bool,
}

/// How coins are searched for by the request that the value is.
#[tactic(auto, unfolding(crate::specs::Parts::search_at))]
pub fn search_of(value: &Value) -> Result<Search, Refusal>
    ensures exact { result ≡ search_at (view value.now) }
    ensures never { result ≢ Err (FieldRefusal NoMemory) }
    ensures method { IfOk result (λ s. or_else Method.Auto (λ m. field (method_at m)) (codes "method") (view value.now) ≡ Ok s.method) }
    ensures seed { IfOk result (λ s. IsHash s.seed) }
    ensures tries { IfOk result (λ s. (1 ≤ s.tries) × (s.tries ≤ 10_000_000)) }
    ensures cause { IfErr result HasCause }
{
    let method = method_or_auto(value)?;
    let seed = seed_or_zeros(value)?;
    let tries = tries_or(value, 100_000)?;
    let take = take_or_true(value)?;
    Ok(Search {
        method,
        seed,
        tries,
        take,
    })
}

/// Which coins may be spent, and whether those of one script are spent together.
#[derive(Clone, Copy)]
pub struct Policy {
    pub zero_conf: bool,
    pub include_unsafe: bool,
    pub group: bool,
}

/// Which coins may be spent by the request that the value is.
#[tactic(auto, unfolding(crate::specs::Parts::policy_at))]
pub fn policy_of(value: &Value) -> Result<Policy, Refusal>
    ensures exact { result ≡ policy_at (view value.now) }
    ensures never { result ≢ Err (FieldRefusal NoMemory) }
    ensures cause { IfErr result HasCause }
{
    let zero_conf = flag_or(value, "zero_conf", true)?;
    let include_unsafe = flag_or(value, "include_unsafe", false)?;
    let group = flag_or(value, "group", false)?;
    Ok(Policy {
        zero_conf,
        include_unsafe,
        group,
    })
}

/// What the payment replaces, whether it may be replaced, its lock time, and the version of its PSBT.
#[derive(Clone, Copy)]
pub struct Terms {
    pub bump: Option<Txid>,
    pub replaceable: bool,
    pub locktime: u32,
    pub psbt: u32,
}

/// The terms of the request that the value is.
#[tactic(auto, unfolding(crate::specs::Parts::terms_at))]
pub fn terms_of(value: &Value) -> Result<Terms, Refusal>
    ensures exact { result ≡ terms_at (view value.now) }
    ensures never { result ≢ Err (FieldRefusal NoMemory) }
    ensures bump { IfOk result (λ t. IfSome t.bump IsHash) }
    ensures there { IfOk result (λ t. IsSome t.bump → is_some (get (codes "bump") (view value.now)) ≡ true) }
    ensures locktime { IfOk result (λ t. t.locktime < 2 ^ 32) }
    ensures psbt { IfOk result (λ t. IsVersion t.psbt) }
    ensures cause { IfErr result HasCause }
{
    let bump = bump_or_none(value)?;
    let replaceable = flag_or(value, "replaceable", true)?;
    let locktime = number_or(value, "locktime", u32::MAX as u64, 0)? as u32;
    let psbt = version_or_zero(value)?;
    Ok(Terms {
        bump,
        replaceable,
        locktime,
        psbt,
    })
}

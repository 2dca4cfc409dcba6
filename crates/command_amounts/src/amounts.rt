//! A request whose recipients get other amounts.

ghost use Rattle.std.specs.Prelude.{◌≡◌, ◌++◌, IfOk, OnOk, length};
ghost use Rattle.request_text.specs.PlainRequest.{IsRequest};
ghost use Rattle.command_amounts.specs.Amounts.{given, with_amounts};

use fund_base::Memory;
use request_text::{Recipient, Request};
use std::alloc::Global;

/// A copy of each recipient, with the amount of its place.
fn given(alloc: Global, recipients: &[Recipient], amounts: &[u64]) -> Result<Vec<Recipient>, Memory>
    requires { length amounts.now ≡ length recipients.now }
    ensures { IfOk result (λ v. v.items ≡ given recipients.now amounts.now) }
{
    let mut copies = Vec::with_capacity(alloc, recipients.len())?;
    for place in 0..recipients.len() {
        let mut copy = recipients[place].copy(alloc)?;
        copy.amount = amounts[place];
        copies.push(copy)?;
    }
    Ok(copies)
}

/// The request with these amounts, in satoshi, in the order of its recipients, and all else as it is. With them it keeps the
/// rules of a request. The error is out of memory.
pub fn with_amounts(alloc: Global, request: &Request, amounts: &[u64]) -> Result<Request, Memory>
    requires same { length amounts.now ≡ length request.now.recipients }
    requires rules { IsRequest (with_amounts request.now amounts.now) }
    ensures { IfOk result (λ r. r ≡ with_amounts request.now amounts.now) }
{
    let recipients = given(alloc, &request.recipients, amounts)?;
    let coins = Vec::from_slice(alloc, &request.coins)?;
    Ok(Request {
        recipients,
        rate: request.rate,
        long_term: request.long_term,
        discard: request.discard,
        change_target: request.change_target,
        method: request.method,
        seed: request.seed,
        tries: request.tries,
        take: request.take,
        zero_conf: request.zero_conf,
        include_unsafe: request.include_unsafe,
        group: request.group,
        coins,
        bump: request.bump,
        replaceable: request.replaceable,
        locktime: request.locktime,
        psbt: request.psbt,
    })
}

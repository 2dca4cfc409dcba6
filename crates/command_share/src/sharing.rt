//! What each recipient is left with that bears its share of the fee.

ghost use Rattle.std.specs.Prelude.{◌≡◌, ◌≤◌, All, IfErr, IfOk, map};
ghost use Rattle.fee_rates.specs.Output.{dust_of};
ghost use Rattle.fee_sharing.specs.Shares.{AllReach, AreLeft};
ghost use Rattle.request_text.specs.PlainRequest.{IsRequest};
ghost use Rattle.command_amounts.specs.Amounts.{amounts_of};
ghost use Rattle.command_share.specs.Bearing.{IsBearFault};
ghost use Rattle.command_share.specs.Paying.{amounts_left, dusts_of, shared_request};

use fee_rates::dust;
use fee_sharing::{ShareFault, ShareList, shares};
use fund_base::Memory;
use request_text::{Recipient, Request};
use std::alloc::Global;

/// What each recipient is asked to get, in satoshi. The error is out of memory.
fn amounts(alloc: Global, recipients: &[Recipient]) -> Result<Vec<u64>, Memory>
    ensures { IfOk result (λ v. v.items ≡ map (λ q. q.amount) recipients.now) }
{
    let mut amounts = Vec::with_capacity(alloc, recipients.len())?;
    for recipient in recipients {
        amounts.push(recipient.amount)?;
    }
    Ok(amounts)
}

/// The dust threshold of each recipient's script, in satoshi. The error is out of memory.
fn dusts(alloc: Global, recipients: &[Recipient]) -> Result<Vec<u64>, Memory>
    ensures value { IfOk result (λ v. v.items ≡ map (λ q. dust_of q.script) recipients.now) }
    ensures small { IfOk result (λ v. All (λ n. n ≤ 1_000_000) v.items) }
{
    let mut dusts = Vec::with_capacity(alloc, recipients.len())?;
    for recipient in recipients {
        dusts.push(dust(&recipient.script))?;
    }
    Ok(dusts)
}

/// What each recipient is left with where they bear so much together, in satoshi. The error is [`ShareFault::ShareDust`] where
/// one is below its share and its dust threshold together, or out of memory.
pub fn left(alloc: Global, request: &Request, borne: u64) -> Result<ShareList, ShareFault>
    ensures value { IfOk result (λ l. l ≡ amounts_left request.now borne) }
    ensures left { IfOk result (λ _. AreLeft borne (amounts_of request.now) (dusts_of request.now) (amounts_left request.now borne)) }
    ensures reach { IfOk result (λ _. AllReach borne (amounts_of request.now) (dusts_of request.now)) }
    // With these amounts the request keeps its rules.
    ensures rules { IfOk result (λ _. IsRequest (shared_request request.now borne)) }
    ensures fault { IfErr result (IsBearFault request.now borne) }
{
    request.keeps_rules();
    let amounts = amounts(alloc, &request.recipients)?;
    let dusts = dusts(alloc, &request.recipients)?;
    shares(alloc, borne, &amounts, &dusts)
}

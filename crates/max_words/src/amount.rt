//! The most that listed coins pay, by what the files hold.

ghost use Rattle.std.specs.Prelude.{◌≡◌, ◌≢◌, Err, Ok, IfOk, None, Some};
ghost use Rattle.fund_files.specs.Chain.{IsChain};
ghost use Rattle.request_making.specs.Asked.{asked_of};
ghost use Rattle.json_fields.specs.declared.fault.FieldFault.TheVariants.{Memory as NoMemory};
ghost use Rattle.request_text.specs.PlainRequest.{PlainRequest};
ghost use Rattle.request_text.specs.Reported.{plain_fault};
ghost use Rattle.request_text.specs.declared.fault.Refusal.{Refusal};
ghost use Rattle.request_text.specs.declared.fault.Refusal.TheVariants.{Field};
ghost use Rattle.command_inputs.specs.Outcome.{plan_of};
ghost use Rattle.max_words.specs.Filled.{IsAmount};

use coin_maximum::maximum;
use fund_base::{MAX_MONEY, Memory};
use fund_files::Chain;
use pay_words::Asked;
use request_text::{Request, RequestFault, read_request};
use std::alloc::Global;

/// That a request is refused, for a cause other than out of memory.
fn refused(fault: RequestFault) -> Result<(), Memory>
    ensures { IfOk result (λ _. plain_fault fault ≢ Field NoMemory) }
{
    match fault {
        RequestFault::Memory => Err(Memory),
        _ => Ok(()),
    }
}

/// The request of what is asked for; none where it breaks a rule of requests.
fn request_for(alloc: Global, asked: &Asked) -> Result<Option<Request>, Memory>
    ensures asked { IfOk result (λ o. (r : PlainRequest) → asked_of asked.now.payments.items asked.now.coins.items asked.now.settings ≡ Ok r → o ≡ Some r) }
    ensures unasked { IfOk result (λ o. (fault : Refusal) → asked_of asked.now.payments.items asked.now.coins.items asked.now.settings ≡ Err fault → o ≡ None) }
{
    let text = asked.request(alloc)?;
    match read_request(alloc, text.as_bytes()) {
        Ok(request) => Ok(Some(request)),
        Err(fault) => {
            refused(fault)?;
            Ok(None)
        }
    }
}

/// The most that the listed coins of the request pay, in satoshi; or all the money that there can be, where there is no such amount, so
/// that a payment of it is refused for what is wrong.
fn amount_of(alloc: Global, held: &Chain, request: &Request) -> Result<u64, Memory>
    requires { IsChain held.now }
    ensures { IfOk result (IsAmount (plan_of held.now request.now)) }
{
    request.keeps_rules();
    let (_, coins) = held.states_and_coins(alloc, request.rate)?;
    match maximum(alloc, request, &held.wallet.change, coins) {
        Ok(Some(amount)) => Ok(amount),
        Ok(None) => Ok(MAX_MONEY),
        Err(Memory) => Err(Memory),
    }
}

/// The same of what is asked for; where that breaks a rule of requests, all the money that there can be.
pub fn amount_for(alloc: Global, held: &Chain, asked: &Asked) -> Result<u64, Memory>
    requires { IsChain held.now }
    ensures most { IfOk result (λ n. (r : PlainRequest) → asked_of asked.now.payments.items asked.now.coins.items asked.now.settings ≡ Ok r → IsAmount (plan_of held.now r) n) }
    ensures unasked { IfOk result (λ n. (fault : Refusal) → asked_of asked.now.payments.items asked.now.coins.items asked.now.settings ≡ Err fault → n ≡ MAX_MONEY) }
{
    let request = request_for(alloc, asked)?;
    match request {
        Some(request) => amount_of(alloc, held, &request),
        None => Ok(MAX_MONEY),
    }
}

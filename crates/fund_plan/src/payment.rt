//! The unsigned transaction of a payment.

ghost use Rattle.std.specs.Prelude.{◌≡◌, ◌≤◌, ◌<◌, ◌^◌, ◌++◌, length, map, All, IfOk};
ghost use Rattle.tx_codec.specs.TransactionText.{InputFits, IsTransaction, OutputFits};
ghost use Rattle.request_text.specs.PlainRequest.{paid_to};
ghost use Rattle.request_text.specs.declared.request.Recipient.{Recipient};
ghost use Rattle.fund_plan.specs.Pays.{change_outputs, outputs_of, payment_of, recipient_output, sequence_of, unsigned_input};

use crate::outcome::Funded;
use coin_candidates::Candidate;
use fund_base::{MAX_MONEY, Memory, Sat, Script, are_bytes};
use request_text::{Recipient, Request};
use std::alloc::Global;
use tx_codec::{Tx, TxIn, TxOut, Witness};
use wallet_text::Watch;

/// The version of a payment.
const VERSION: u32 = 2;

/// The sequence by which a payment may be replaced (BIP 125).
const REPLACEABLE: u32 = 0xffff_fffd;

/// The sequence by which a payment can't be replaced (BIP 125), and its lock time counts all the same (Bitcoin Core,
/// `MAX_SEQUENCE_NONFINAL`).
const NOT_REPLACEABLE: u32 = 0xffff_fffe;

// That an index is below 2 ^ 32. A call does nothing.
fn is_index(index: u32)
    ensures { index < 2 ^ 32 }
{
    let _ = index;
}

/// The sequence of each input.
fn sequence(replaceable: bool) -> u32
    ensures { result ≡ sequence_of replaceable }
{
    match replaceable {
        true => REPLACEABLE,
        false => NOT_REPLACEABLE,
    }
}

/// An input that spends the coin and isn't signed.
fn input(alloc: Global, replaceable: bool, coin: &Candidate) -> TxIn
    ensures value { result ≡ unsigned_input replaceable coin.now }
    ensures fits { InputFits result }
{
    are_bytes(coin.coin.txid.bytes());
    is_index(coin.coin.index);
    TxIn {
        prev: coin.coin,
        script: Script::new(Vec::new(alloc)),
        sequence: sequence(replaceable),
        witness: Witness::new(Vec::new(alloc)),
    }
}

/// The inputs that spend the coins, in order.
fn inputs(alloc: Global, replaceable: bool, coins: &[Candidate]) -> Result<Vec<TxIn>, Memory>
    ensures value { IfOk result (λ v. v.items ≡ map (unsigned_input replaceable) coins.now) }
    ensures fit { IfOk result (λ v. All InputFits v.items) }
{
    let mut inputs = Vec::new(alloc);
    for coin in coins {
        inputs.push(input(alloc, replaceable, coin))?;
    }
    Ok(inputs)
}

/// An output of `value` satoshi to the script.
fn output(alloc: Global, value: u64, script: &Script) -> Result<TxOut, Memory>
    requires { value ≤ MAX_MONEY }
    ensures value { IfOk result (λ o. o ≡ record { value = value; script = script.now }) }
    ensures fits { IfOk result OutputFits }
{
    are_bytes(script.bytes());
    let value = Sat::new(value).unwrap();
    let script = script.copy(alloc)?;
    Ok(TxOut { value, script })
}

/// The outputs to the recipients, in order.
#[tactic(auto, using(crate::proofs::PaysLaws::amount_within))]
fn recipient_outputs(alloc: Global, recipients: &[Recipient]) -> Result<Vec<TxOut>, Memory>
    requires { paid_to recipients.now ≤ MAX_MONEY }
    ensures value { IfOk result (λ v. v.items ≡ map recipient_output recipients.now) }
    ensures fit { IfOk result (λ v. All OutputFits v.items) }
{
    let mut outputs = Vec::new(alloc);
    for recipient in recipients {
        outputs.push(output(alloc, recipient.amount, &recipient.script)?)?;
    }
    Ok(outputs)
}

/// The outputs to the recipients, in order, and then the change.
fn outputs(
    alloc: Global,
    request: &Request,
    change: &Watch,
    amount: Option<u64>,
) -> Result<Vec<TxOut>, Memory>
    requires { outputs_of request.now amount ≤ MAX_MONEY }
    ensures value { IfOk result (λ v. v.items ≡ map recipient_output request.now.recipients ++ change_outputs change.now amount) }
    ensures fit { IfOk result (λ v. All OutputFits v.items) }
{
    request.keeps_rules();
    let mut outputs = recipient_outputs(alloc, &request.recipients)?;
    if let Some(value) = amount {
        outputs.push(output(alloc, value, &change.script)?)?;
    }
    Ok(outputs)
}

/// The unsigned transaction of a payment that was decided on: version 2; an input for each coin, in their order; an
/// output for each recipient of the request, in order, and then the change, if there is any; the sequence FFFFFFFD where
/// the request is replaceable (BIP 125) and otherwise FFFFFFFE; and the request's lock time.
///
/// There is at least one coin, and the recipients' amounts and the change are together at most
/// [`fund_base::MAX_MONEY`].
#[tactic(auto, unfolding(crate::specs::Pays::payment_from))]
pub fn unsigned(
    alloc: Global,
    request: &Request,
    change: &Watch,
    funded: &Funded,
) -> Result<Tx, Memory>
    requires some { 0 < length funded.now.coins }
    requires money { outputs_of request.now funded.now.change ≤ MAX_MONEY }
    ensures value { IfOk result (λ t. t ≡ payment_of request.now change.now funded.now) }
    ensures text { IfOk result IsTransaction }
{
    request.keeps_rules();
    let inputs = inputs(alloc, request.replaceable, &funded.coins)?;
    let outputs = outputs(alloc, request, change, funded.change)?;
    Ok(Tx {
        version: VERSION,
        inputs,
        outputs,
        locktime: request.locktime,
        segwit: false,
    })
}

//! What is shown as JSON: one object on one line.

use amount_reports::SweptReport;
use closing_log::Worded;
use command_end::{coin_text, shown_hash};
use command_pay::{PaidReport, mark_sentence, rate_of};
use fund_base::Memory;
use fund_report::InLine;
use pay_words::{Asked, Way};
use request_making::{Payee, Payment};
use serde_json::{Map, Value};
use settle_check::Settled;
use settle_table::{Settlement, WeighedInput};
use std::alloc::Global;
use std::io;

/// Prints a value on one line.
pub fn print(rt: &HostRuntime, value: &Value) -> io::Result<()> {
    let text = value.to_string(rt.alloc())?;
    rt.println(text.as_str())
}

/// The lines of a text, without an empty one behind the last line feed.
fn lines(alloc: Global, text: &str) -> Result<Value, Memory> {
    let mut list = Vec::new(alloc);
    for line in text.lines() {
        list.push(Value::try_from_str(alloc, line)?)?;
    }
    Ok(Value::Array(list))
}

/// A sentence, or null.
fn sentence_value(alloc: Global, sentence: Option<&str>) -> Result<Value, Memory> {
    match sentence {
        Some(sentence) => Ok(Value::try_from_str(alloc, sentence)?),
        None => Ok(Value::Null),
    }
}

/// Puts a member behind those of an object.
pub fn put(
    alloc: Global,
    object: &mut Map<String, Value>,
    name: &str,
    value: Value,
) -> Result<(), Memory> {
    object.insert(String::from_str(alloc, name)?, value)?;
    Ok(())
}

/// Puts a text.
fn put_text(
    alloc: Global,
    object: &mut Map<String, Value>,
    name: &str,
    text: &str,
) -> Result<(), Memory> {
    put(alloc, object, name, Value::try_from_str(alloc, text)?)
}

/// Puts what a command printed: its status, the lines, and the sentence that says what to do, or null.
pub fn put_said(
    alloc: Global,
    object: &mut Map<String, Value>,
    code: u8,
    said: &str,
    sentence: Option<&str>,
) -> Result<(), Memory> {
    put(alloc, object, "status", Value::from(code))?;
    put(alloc, object, "lines", lines(alloc, said)?)?;
    put(alloc, object, "advice", sentence_value(alloc, sentence)?)
}

/// What a command printed.
pub fn said_value(
    alloc: Global,
    code: u8,
    said: &str,
    sentence: Option<&str>,
) -> Result<Value, Memory> {
    let mut object = Map::new(alloc);
    put_said(alloc, &mut object, code, said, sentence)?;
    Ok(Value::Object(object))
}

/// The request file of what is asked, where it is to be shown, and else null.
pub fn request_value(alloc: Global, asked: &Asked) -> Result<Value, Memory> {
    if !asked.show_request {
        return Ok(Value::Null);
    }
    let request = asked.request(alloc)?;
    match Value::from_str(alloc, request.as_str()) {
        Ok(value) => Ok(value),
        // It is JSON, so that only memory can be missing.
        Err(_) => Err(Memory),
    }
}

/// What is said of a payment that isn't there, and the request beside it.
pub fn refusal_value(
    alloc: Global,
    asked: &Asked,
    code: u8,
    said: &str,
    sentence: Option<&str>,
) -> Result<Value, Memory> {
    let mut object = Map::new(alloc);
    put_said(alloc, &mut object, code, said, sentence)?;
    put(alloc, &mut object, "request", request_value(alloc, asked)?)?;
    Ok(Value::Object(object))
}

/// Puts whom a payment pays, as a request file names it.
fn put_payee(alloc: Global, object: &mut Map<String, Value>, payee: &Payee) -> Result<(), Memory> {
    match payee {
        Payee::Address(address) => put_text(alloc, object, "address", address.as_str()),
        Payee::Script(script) => {
            let script = hex::encode(alloc, script.bytes())?;
            put_text(alloc, object, "script", script.as_str())
        }
    }
}

/// A recipient of this amount, as a request file names it.
fn recipient_value(alloc: Global, to: &Payee, amount: u64) -> Result<Value, Memory> {
    let mut object = Map::new(alloc);
    put_payee(alloc, &mut object, to)?;
    put(alloc, &mut object, "amount", Value::from(amount))?;
    Ok(Value::Object(object))
}

/// The recipients, in their order, each with what is asked for.
fn asked_recipients(alloc: Global, payments: &[Payment]) -> Result<Value, Memory> {
    let mut list = Vec::new(alloc);
    for payment in payments {
        list.push(recipient_value(alloc, &payment.to, payment.amount)?)?;
    }
    Ok(Value::Array(list))
}

/// The recipients, in their order, each with the amount of its place.
fn shared_recipients(
    alloc: Global,
    payments: &[Payment],
    amounts: &[u64],
) -> Result<Value, Memory> {
    let mut list = Vec::new(alloc);
    for (payment, amount) in payments.iter().zip(amounts.iter()) {
        list.push(recipient_value(alloc, &payment.to, *amount)?)?;
    }
    Ok(Value::Array(list))
}

/// The recipients, in their order, each with what it gets.
fn recipients_value(
    alloc: Global,
    payments: &[Payment],
    report: &PaidReport,
) -> Result<Value, Memory> {
    match report {
        PaidReport::Whole(_) => asked_recipients(alloc, payments),
        PaidReport::Shared(report) => shared_recipients(alloc, payments, &report.amounts),
    }
}

/// A coin that is spent, and its value.
fn coin_value(alloc: Global, line: &InLine) -> Result<Value, Memory> {
    let mut object = Map::new(alloc);
    let coin = coin_text(alloc, &line.coin)?;
    put_text(alloc, &mut object, "coin", coin.as_str())?;
    put(alloc, &mut object, "value", Value::from(line.value))?;
    Ok(Value::Object(object))
}

/// The coins that are spent, in the order of the inputs.
fn coins_value(alloc: Global, coins: &[InLine]) -> Result<Value, Memory> {
    let mut list = Vec::new(alloc);
    for line in coins {
        list.push(coin_value(alloc, line)?)?;
    }
    Ok(Value::Array(list))
}

/// Puts whom a payment pays, and what it spends.
fn put_sides(
    alloc: Global,
    object: &mut Map<String, Value>,
    asked: &Asked,
    report: &PaidReport,
) -> Result<(), Memory> {
    put(
        alloc,
        object,
        "recipients",
        recipients_value(alloc, &asked.payments, report)?,
    )?;
    put(alloc, object, "coins", coins_value(alloc, report.coins())?)
}

/// What is seen of a payment in the files once more, each where they can be read again: what it paid for ancestors, and whether
/// the wallet watches the script of its change.
#[derive(Drop)]
pub struct Seen {
    /// What the payment has paid for the ancestors of its coins.
    pub parents: Option<u64>,
    /// Whether the wallet watches the script of the change; none without change.
    pub change_listed: Option<bool>,
    /// The lines that warn of scripts.
    pub warnings: String,
}

/// Puts what a payment comes to.
fn put_figures(
    alloc: Global,
    object: &mut Map<String, Value>,
    report: &PaidReport,
    seen: &Seen,
) -> Result<(), Memory> {
    put(alloc, object, "fee", Value::from(report.fee()))?;
    put(alloc, object, "parents", Value::from(seen.parents))?;
    put(alloc, object, "weight", Value::from(report.weight()))?;
    put(alloc, object, "vsize", Value::from(report.vsize()))?;
    put(alloc, object, "change", Value::from(report.change()))?;
    put(
        alloc,
        object,
        "change_listed",
        Value::from(seen.change_listed),
    )
}

/// What is saved by this waste, in satoshi, below 0 where it costs.
fn saved_by(waste: i128) -> Option<i64> {
    match i64::try_from(waste) {
        Ok(waste) => waste.checked_neg(),
        Err(_) => None,
    }
}

/// What a payment by `wide` saves in satoshi, below 0 where it costs; none for another.
fn saved(asked: &Asked, report: &PaidReport) -> Option<i64> {
    match report {
        PaidReport::Whole(report) => match asked.way {
            Way::Wide => saved_by(report.waste),
            Way::Fund | Way::Share => None,
        },
        PaidReport::Shared(_) => None,
    }
}

/// Puts what the coins of a payment promise, what they save, and how they were looked for.
fn put_choice(
    alloc: Global,
    object: &mut Map<String, Value>,
    asked: &Asked,
    report: &PaidReport,
) -> Result<(), Memory> {
    put_text(alloc, object, "mark", report.mark().word())?;
    put_text(
        alloc,
        object,
        "choice",
        mark_sentence(asked.way, report.mark()),
    )?;
    put(alloc, object, "saved", Value::from(saved(asked, report)))?;
    put(alloc, object, "tries", Value::from(report.tries()))?;
    let seed = hex::encode(alloc, &asked.settings.seed)?;
    put_text(alloc, object, "seed", seed.as_str())
}

/// A payment: whom it pays, what it spends, what it comes to, what its coins promise, and its PSBT; and what is seen of it in
/// the files once more.
pub fn payment_value(
    alloc: Global,
    asked: &Asked,
    report: &PaidReport,
    seen: &Seen,
    psbt: &str,
) -> Result<Value, Memory> {
    let mut object = Map::new(alloc);
    put(alloc, &mut object, "status", Value::from(0_u8))?;
    put_sides(alloc, &mut object, asked, report)?;
    put_figures(alloc, &mut object, report, seen)?;
    put_choice(alloc, &mut object, asked, report)?;
    put(
        alloc,
        &mut object,
        "warnings",
        lines(alloc, seen.warnings.as_str())?,
    )?;
    put(alloc, &mut object, "request", request_value(alloc, asked)?)?;
    put_text(alloc, &mut object, "psbt", psbt)?;
    Ok(Value::Object(object))
}

/// An input of a settled payment: the output that it spends, what it weighs, and what it was declared to weigh.
fn weighed_value(alloc: Global, input: &WeighedInput) -> Result<Value, Memory> {
    let mut object = Map::new(alloc);
    let coin = coin_text(alloc, &input.coin)?;
    put_text(alloc, &mut object, "coin", coin.as_str())?;
    put(alloc, &mut object, "weight", Value::from(input.weight))?;
    put(alloc, &mut object, "declared", Value::from(input.declared))?;
    Ok(Value::Object(object))
}

/// The inputs of a settled payment, in order.
fn inputs_value(alloc: Global, inputs: &[WeighedInput]) -> Result<Value, Memory> {
    let mut list = Vec::new(alloc);
    for input in inputs {
        list.push(weighed_value(alloc, input)?)?;
    }
    Ok(Value::Array(list))
}

/// The recipients of a payment of all coins, each with what the one gets.
fn swept_recipients(alloc: Global, payments: &[Payment], amount: u64) -> Result<Value, Memory> {
    let mut list = Vec::new(alloc);
    for payment in payments {
        list.push(recipient_value(alloc, &payment.to, amount)?)?;
    }
    Ok(Value::Array(list))
}

/// Puts what a settled payment comes to. The rate is in satoshi for 1,000 virtual bytes, rounded down.
fn put_settled(
    alloc: Global,
    object: &mut Map<String, Value>,
    settled: &Settled,
) -> Result<(), Memory> {
    let txid = shown_hash(alloc, settled.txid.bytes())?;
    put_text(alloc, object, "txid", txid.as_str())?;
    put(alloc, object, "weight", Value::from(settled.weight))?;
    put(alloc, object, "vsize", Value::from(settled.vsize))?;
    put(alloc, object, "fee", Value::from(settled.fee))?;
    let rate = rate_of(settled.fee, settled.vsize);
    put(alloc, object, "rate", Value::from(rate))?;
    put(alloc, object, "spare", Value::from(settled.spare))
}

/// A settled payment: its figures, and what each input weighs and was declared to weigh.
pub fn settlement_value(alloc: Global, settlement: &Settlement) -> Result<Value, Memory> {
    let mut object = Map::new(alloc);
    put(alloc, &mut object, "status", Value::from(0_u8))?;
    put_settled(alloc, &mut object, &settlement.settled)?;
    let inputs = inputs_value(alloc, &settlement.inputs)?;
    put(alloc, &mut object, "inputs", inputs)?;
    Ok(Value::Object(object))
}

/// Puts what a payment of all coins comes to, and what it has paid for ancestors.
fn put_swept(
    alloc: Global,
    object: &mut Map<String, Value>,
    report: &SweptReport,
    parents: Option<u64>,
) -> Result<(), Memory> {
    put(alloc, object, "coins", coins_value(alloc, &report.coins)?)?;
    put(alloc, object, "fee", Value::from(report.fee))?;
    put(alloc, object, "parents", Value::from(parents))?;
    put(alloc, object, "weight", Value::from(report.weight))?;
    put(alloc, object, "vsize", Value::from(report.vsize))
}

/// What is seen of a payment of all coins beside its report.
#[derive(Drop)]
pub struct SweptSeen {
    /// What the payment has paid for the ancestors of its coins; none where the files couldn't be read again.
    pub parents: Option<u64>,
    /// The lines that warn of the script that gets all.
    pub warnings: String,
}

/// A payment of all coins: who gets what, what it spends and comes to, what is seen of it beside that, and its PSBT.
pub fn sweep_value(
    alloc: Global,
    asked: &Asked,
    report: &SweptReport,
    seen: &SweptSeen,
    psbt: &str,
) -> Result<Value, Memory> {
    let mut object = Map::new(alloc);
    put(alloc, &mut object, "status", Value::from(0_u8))?;
    let recipients = swept_recipients(alloc, &asked.payments, report.amount)?;
    put(alloc, &mut object, "recipients", recipients)?;
    put_swept(alloc, &mut object, report, seen.parents)?;
    put(
        alloc,
        &mut object,
        "warnings",
        lines(alloc, seen.warnings.as_str())?,
    )?;
    put(alloc, &mut object, "request", request_value(alloc, asked)?)?;
    put_text(alloc, &mut object, "psbt", psbt)?;
    Ok(Value::Object(object))
}

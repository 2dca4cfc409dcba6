//! The recipients of a request, each by an address or by a script.

ghost use Rattle.std.specs.Prelude.{◌≡◌, ◌≢◌, ◌≤◌, ◌<◌, ◌==◌, ◌||◌, [], All, IfOk, IfErr, IsOk, IsTrue, ◌↔◌, Ok, Err, codes, length, nat_lt, if◌then◌else◌};
ghost use Rattle.serde_json.specs.Find.{get};
ghost use Rattle.json_fields.specs.Tree.{view, items_view};
ghost use Rattle.json_fields.specs.Fields.{each_from};
ghost use Rattle.json_fields.specs.Memory.{StoresFirst, StoresList};
ghost use Rattle.json_fields.specs.declared.fault.FieldFault.TheVariants.{Memory as NoMemory};
ghost use Rattle.request_text.specs.PlainRequest.{IsRecipient, paid_to};
ghost use Rattle.request_text.specs.RequestText.{amount_at, index_of, one_of, paid_at, recipient_behind, recipients_at, to_address_at, to_script_at};
ghost use Rattle.request_text.specs.Stores.{StoresAddress, StoresRecipient, StoresScript};
ghost use Rattle.request_text.specs.Reported.{Gives, HasCause};
ghost use Rattle.segwit_addr.specs.Reading.{decode_of};
ghost use Rattle.fund_base.specs.Parsing.{fault_as};
ghost use Rattle.request_text.specs.declared.fault.Refusal.TheVariants.{Address as BadAddress, AmountRange, Field as FieldRefusal, NoRecipients as Empty, Script as BadScript, SumRange};

use crate::bounds::index_of;
use crate::fault::Refusal;
use crate::request::Recipient;
use fee_rates::dust;
use fund_base::{MAX_MONEY, Script, are_bytes};
use json::Value;
use json_fields::{
    FieldFault, HexText, hex_text_of, items_in, member_in, member_of, number_of, object_of, text_of,
};
use segwit_addr::{AddrFault, decode};
use std::alloc::Global;

/// The greatest length of a script, in bytes.
const MAX_SCRIPT: usize = 10_000;

/// That the entry has exactly one of an address and a script.
fn one_of(entry: &Value) -> Result<(), FieldFault>
    ensures exact { result ≡ one_of (get (codes "address") (view entry.now)) (get (codes "script") (view entry.now)) }
    ensures never { result ≢ Err NoMemory }
{
    match (member_in(entry, "address"), member_in(entry, "script")) {
        (Some(_), None) | (None, Some(_)) => Ok(()),
        _ => Err(FieldFault::kind("recipients")),
    }
}

/// The amount of the entry.
fn amount_of(entry: &Value) -> Result<u64, Refusal>
    ensures exact { result ≡ amount_at (view entry.now) }
    ensures never { result ≢ Err (FieldRefusal NoMemory) }
    ensures cause { IfErr result HasCause }
{
    let amount = member_of(entry, "amount")?;
    Ok(number_of(amount, "amount", u64::MAX)?)
}

/// That the amount of the recipient at this index is at most 21,000,000 bitcoin. It never runs out of memory.
fn check_amount(index: u32, amount: u64) -> Result<(), Refusal>
    ensures exact { result ≡ (if nat_lt 2_100_000_000_000_000 amount then Err (AmountRange index) else Ok tt) }
    ensures never { result ≢ Err (FieldRefusal NoMemory) }
{
    if amount > MAX_MONEY {
        return Err(Refusal::AmountRange(index));
    }
    Ok(())
}

/// What is paid to the script, by the recipient at this index. It never runs out of memory.
#[tactic(auto, unfolding(crate::specs::RequestText::paid_at))]
fn paid(index: u32, script: Script, amount: u64) -> Result<Recipient, Refusal>
    requires some { 1 ≤ length script }
    requires most { length script ≤ 10_000 }
    requires money { amount ≤ 2_100_000_000_000_000 }
    ensures exact { result ≡ paid_at index script amount }
    ensures never { result ≢ Err (FieldRefusal NoMemory) }
    ensures is { IfOk result IsRecipient }
    ensures cause { IfErr result HasCause }
{
    are_bytes(script.bytes());
    if amount < dust(&script) {
        return Err(Refusal::Dust(index));
    }
    Ok(Recipient { script, amount })
}

/// The script of the address, 1 to 10,000 bytes. It runs out of memory only where there is one.
#[tactic(auto, using(crate::proofs::Witness::some, crate::proofs::Witness::most))]
fn script_of_address(alloc: Global, index: u32, text: &str) -> Result<Script, Refusal>
    ensures gives { Gives (λ s. s) result (fault_as (BadAddress index) (decode_of text.now)) }
    ensures short { result ≡ Err (FieldRefusal NoMemory) → IsOk (decode_of text.now) }
    ensures some { IfOk result (λ s. 1 ≤ length s) }
    ensures most { IfOk result (λ s. length s ≤ 10_000) }
    ensures cause { IfErr result HasCause }
{
    match decode(alloc, text) {
        Ok(script) => Ok(script),
        Err(AddrFault::Memory) => Err(Refusal::Field(FieldFault::Memory)),
        Err(fault) => Err(Refusal::Address(index, fault)),
    }
}

/// The recipient of an entry that names an address.
#[tactic(auto, unfolding(crate::specs::RequestText::to_address_at, crate::specs::RequestText::paid_at))]
fn to_address(
    alloc: Global,
    index: u32,
    address: &Value,
    entry: &Value,
) -> Result<Recipient, Refusal>
    ensures gives { Gives (λ r. r) result (to_address_at index (view address.now) (view entry.now)) }
    ensures short { result ≡ Err (FieldRefusal NoMemory) → StoresAddress (view address.now) (view entry.now) }
    ensures is { IfOk result IsRecipient }
    ensures cause { IfErr result HasCause }
{
    let text = text_of(address, "address")?;
    let amount = amount_of(entry)?;
    let script = script_of_address(alloc, index, text)?;
    check_amount(index, amount)?;
    paid(index, script, amount)
}

/// That the script that is spelled may be paid to: it has 1 to 10,000 bytes. It never runs out of memory.
fn check_script(index: u32, script: &HexText) -> Result<(), Refusal>
    ensures exact { result ≡ (if (length script.now == 0) || nat_lt 10_000 (length script.now) then Err (BadScript index) else Ok tt) }
    ensures never { result ≢ Err (FieldRefusal NoMemory) }
{
    if script.count() == 0 || script.count() > MAX_SCRIPT {
        return Err(Refusal::Script(index));
    }
    Ok(())
}

/// The recipient of an entry that spells its script, which is stored behind all rules but that of dust.
#[tactic(auto, unfolding(crate::specs::RequestText::to_script_at, crate::specs::RequestText::paid_at))]
fn to_script(alloc: Global, index: u32, entry: &Value) -> Result<Recipient, Refusal>
    ensures gives { Gives (λ r. r) result (to_script_at index (view entry.now)) }
    ensures short { result ≡ Err (FieldRefusal NoMemory) → StoresScript (view entry.now) }
    ensures is { IfOk result IsRecipient }
    ensures cause { IfErr result HasCause }
{
    let spelled = hex_text_of(member_of(entry, "script")?, "script")?;
    let amount = amount_of(entry)?;
    check_script(index, &spelled)?;
    check_amount(index, amount)?;
    let script = spelled.bytes(alloc)?;
    paid(index, Script::new(script), amount)
}

/// The recipient that an entry after others is.
#[tactic(auto, unfolding(crate::specs::RequestText::recipient_behind))]
fn next_recipient(alloc: Global, before: &[Recipient], entry: &Value) -> Result<Recipient, Refusal>
    ensures gives { Gives (λ r. r) result (recipient_behind before.now (view entry.now)) }
    ensures short { result ≡ Err (FieldRefusal NoMemory) → StoresRecipient (view entry.now) }
    ensures is { IfOk result IsRecipient }
    ensures cause { IfErr result HasCause }
{
    one_of(entry)?;
    object_of(
        alloc,
        entry,
        "recipients",
        &["address", "script", "amount"],
        &["amount"],
    )?;
    let index = index_of(before.len());
    match member_in(entry, "address") {
        Some(address) => to_address(alloc, index, address, entry),
        None => to_script(alloc, index, entry),
    }
}

/// The recipients that these entries are.
fn recipients_from(alloc: Global, values: &[Value]) -> Result<Vec<Recipient>, Refusal>
    ensures gives { Gives (λ v. v.items) result (each_from recipient_behind [] (items_view values.now)) }
    ensures short { result ≡ Err (FieldRefusal NoMemory) → StoresFirst StoresRecipient (items_view values.now) }
    ensures are { IfOk result (λ v. All IsRecipient v.items) }
    ensures cause { IfErr result HasCause }
{
    let mut recipients = Vec::new(alloc);
    for value in values {
        let recipient = next_recipient(alloc, &recipients, value)?;
        recipients.push(recipient)?;
    }
    Ok(recipients)
}

/// Whether the recipients get at most 21,000,000 bitcoin together.
fn is_money(recipients: &[Recipient]) -> bool
    ensures { IsTrue result ↔ (paid_to recipients.now ≤ 2_100_000_000_000_000) }
{
    let mut left = MAX_MONEY;
    for recipient in recipients {
        if recipient.amount > left {
            return false;
        }
        left -= recipient.amount;
    }
    true
}

/// That there is a recipient, and that they get at most 21,000,000 bitcoin together. It never runs out of memory.
fn check_recipients(recipients: &[Recipient]) -> Result<(), Refusal>
    ensures exact { result ≡ (if length recipients.now == 0 then Err Empty else if nat_lt 2_100_000_000_000_000 (paid_to recipients.now) then Err SumRange else Ok tt) }
    ensures never { result ≢ Err (FieldRefusal NoMemory) }
{
    if recipients.is_empty() {
        return Err(Refusal::NoRecipients);
    }
    if !is_money(recipients) {
        return Err(Refusal::SumRange);
    }
    Ok(())
}

/// The recipients, at least one and together at most 21,000,000 bitcoin.
#[tactic(auto, unfolding(crate::specs::RequestText::recipients_at))]
pub fn recipients_of(alloc: Global, value: &Value) -> Result<Vec<Recipient>, Refusal>
    ensures gives { Gives (λ v. v.items) result (recipients_at (view value.now)) }
    ensures short { result ≡ Err (FieldRefusal NoMemory) → StoresList (codes "recipients") StoresRecipient (view value.now) }
    ensures some { IfOk result (λ v. 1 ≤ length v.items) }
    ensures are { IfOk result (λ v. All IsRecipient v.items) }
    ensures money { IfOk result (λ v. paid_to v.items ≤ 2_100_000_000_000_000) }
    ensures cause { IfErr result HasCause }
{
    let Some(entries) = items_in(value) else {
        return Err(Refusal::from(FieldFault::kind("recipients")));
    };
    let recipients = recipients_from(alloc, entries)?;
    check_recipients(&recipients)?;
    Ok(recipients)
}

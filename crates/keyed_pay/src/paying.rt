//! The payment, and then its PSBT with the keys.

ghost use Rattle.std.specs.Prelude.{◌≡◌, Err, IfErr, IfOk, None, option_map, string_bytes};
ghost use Rattle.fund_base.specs.Parsing.{YieldsAll};
ghost use Rattle.fund_shelf.specs.Causes.{ShelfView};
ghost use Rattle.held_run.specs.Held.{KeepsFiles};
ghost use Rattle.pay_words.specs.Asked.{asked_in, plain_asked};
ghost use Rattle.pay_words.specs.Given.{BeginsWithFlag};
ghost use Rattle.pay_words.specs.declared.fault.WordFault.TheVariants.{Memory as NoMemory};
ghost use Rattle.keys_text.specs.PlainKeys.{PlainKeys};
ghost use Rattle.keys_files.specs.Keyed.{IsKeyedText};
ghost use Rattle.command_pay.specs.Paid.{psbt_in};
ghost use Rattle.payment_files.specs.Files.{HasOwnNames};
ghost use Rattle.keyed_pay.specs.Pays.{IsPaid, PaysKeyed, unkeyed_ending, with_psbt};

use crate::outcome::KeyedEnding;
use command_pay::{Ending, PaidReport, pay_asked};
use fund_shelf::{Fault, Shelf};
use keys_files::add_keys_to_text;
use keys_text::Keys;
use pay_words::{Asked, WordFault, read_pay};
use payment_files::put_if;
use psbt_codec::PsbtFault;
use psbt_keys::KeyFault;
use std::alloc::Global;

/// How a payment ends to whose PSBT the keys aren't added.
fn unkeyed(fault: KeyFault) -> KeyedEnding
    ensures { result ≡ unkeyed_ending fault }
{
    match fault {
        KeyFault::Psbt(PsbtFault::Memory) => KeyedEnding::Memory,
        _ => KeyedEnding::Unkeyed(fault),
    }
}

/// Writes the PSBT of a payment over these files, with its keys, where a file of a name is asked for.
fn put_keyed<H: Shelf, N: Shelf>(
    report: PaidReport,
    log: Vec<u8>,
    psbt: &Option<String>,
    text: Vec<u8>,
    new_files: &mut N,
) -> KeyedEnding
    ensures { (a : Asked) (k : PlainKeys) (files : ShelfView) (after : ShelfView) (old : ShelfView) → IsPaid H.tells N.tells a files after old (N.view new_files.old) report log → IsKeyedText k (psbt_in report) text.items
        → PaysKeyed H.tells N.tells a (option_map string_bytes psbt.now) k files after old (N.view new_files.new) result }
{
    match put_if(new_files, psbt, &text) {
        Ok(()) => KeyedEnding::Keyed(report, log, text),
        Err(Fault::Failed) => KeyedEnding::Unwritten,
        Err(Fault::Memory) => KeyedEnding::Memory,
    }
}

/// Adds the keys to the PSBT of a payment over these files, and writes that where a file of a name is asked for.
fn add_to_paid<H: Shelf, N: Shelf>(
    alloc: Global,
    report: PaidReport,
    log: Vec<u8>,
    psbt: &Option<String>,
    keys: &Keys,
    new_files: &mut N,
) -> KeyedEnding
    ensures { (a : Asked) (files : ShelfView) (after : ShelfView) (old : ShelfView) → IsPaid H.tells N.tells a files after old (N.view new_files.old) report log
        → PaysKeyed H.tells N.tells a (option_map string_bytes psbt.now) keys.now files after old (N.view new_files.new) result }
{
    match add_keys_to_text(alloc, report.psbt(), keys) {
        Ok(text) => put_keyed::<H, N>(report, log, psbt, text, new_files),
        Err(fault) => unkeyed(fault),
    }
}

/// Pays what is asked, without a file for its PSBT, and then adds the keys to that. The file of this name is the PSBT's.
fn pay_bare<H: Shelf + Drop, N: Shelf>(
    alloc: Global,
    asked: &Asked,
    psbt: &Option<String>,
    keys: &Keys,
    files: H,
    new_files: &mut N,
) -> (KeyedEnding, H)
    requires { HasOwnNames asked.now }
    ensures pays { PaysKeyed H.tells N.tells asked.now (option_map string_bytes psbt.now) keys.now (H.view files) (H.view result.1) (N.view new_files.old) (N.view new_files.new) result.0 }
    ensures files { KeepsFiles H.tells (H.view files) (H.view result.1) }
{
    let (ending, files) = pay_asked(alloc, asked, files, new_files);
    match ending {
        Ending::Paid(report, log) => (
            add_to_paid::<H, N>(alloc, report, log, psbt, keys, new_files),
            files,
        ),
        Ending::FeeAboveMaximum(fee, most) => (
            KeyedEnding::Unpaid(Ending::FeeAboveMaximum(fee, most)),
            files,
        ),
        Ending::NotPaid(status, said) => {
            (KeyedEnding::Unpaid(Ending::NotPaid(status, said)), files)
        }
        Ending::Unwritten(file) => (KeyedEnding::Unpaid(Ending::Unwritten(file)), files),
        Ending::Memory => (KeyedEnding::Unpaid(Ending::Memory), files),
    }
}

/// What is asked for without the file for the PSBT, and the name of that file.
fn apart(asked: Asked) -> (Asked, Option<String>)
    ensures bare { result.0.names.psbt ≡ None }
    ensures same { with_psbt (plain_asked result.0) (option_map string_bytes result.1) ≡ plain_asked asked }
{
    let mut asked = asked;
    let psbt = asked.names.psbt.take();
    (asked, psbt)
}

/// Does what the words behind `pay` ask for, with this seed where they give none, and adds to the payment's PSBT what the keys tell
/// of it: what is shown and what is written is the PSBT with the keys. It answers what is asked for without the file for the PSBT,
/// the name of that file, how it ended, and `files`, of which no file is changed. Where the words ask for no payment, it answers their
/// first fault, and no file is read or written.
///
/// The payment is the one without keys, and so are its refusals. Its log is written before the PSBT.
pub fn pay_keyed<H: Shelf + Drop, N: Shelf>(
    alloc: Global,
    words: &[String],
    drawn: [u8; 32],
    keys: &Keys,
    files: H,
    new_files: &mut N,
) -> (Result<(Asked, Option<String>, KeyedEnding), WordFault>, H)
    ensures words { YieldsAll NoMemory (λ r. with_psbt (plain_asked r.0) (option_map string_bytes r.1)) result.0 (asked_in drawn words.now) }
    ensures short { result.0 ≡ Err NoMemory → BeginsWithFlag words.now }
    ensures unasked { IfErr result.0 (λ fault. (N.view new_files.new) ≡ (N.view new_files.old)) }
    ensures unread { IfErr result.0 (λ fault. (H.view result.1) ≡ (H.view files)) }
    ensures bare { IfOk result.0 (λ r. r.0.names.psbt ≡ None) }
    ensures pays { IfOk result.0 (λ r. PaysKeyed H.tells N.tells r.0 (option_map string_bytes r.1) keys.now (H.view files) (H.view result.1) (N.view new_files.old) (N.view new_files.new) r.2) }
    ensures files { KeepsFiles H.tells (H.view files) (H.view result.1) }
{
    let asked = match read_pay(alloc, words, drawn) {
        Ok(asked) => asked,
        Err(fault) => return (Err(fault), files),
    };
    let (asked, psbt) = apart(asked);
    let (ending, files) = pay_bare(alloc, &asked, &psbt, keys, files, new_files);
    (Ok((asked, psbt, ending)), files)
}

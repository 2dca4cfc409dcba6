//! What is said of a signed transaction.

ghost use Rattle.std.specs.Prelude.{◌≡◌, ◌++◌, codes, IfOk, string_bytes};
ghost use Rattle.std.specs.Fmt.{signed_decimal};
ghost use Rattle.command_end.specs.Parts.{part_text, parts_text};
ghost use Rattle.command_settle.specs.Words.{differing_words, figures_text, settle_fault_words};

use command_end::{Part, psbt_fault_parts, shown_hash};
use fund_base::Memory;
use settle_check::{Differing, SettleFault, Settled};
use std::alloc::Global;

/// A part, and nothing behind it.
fn alone<'a>(part: Part<'a>) -> [Part<'a>; 3]
    ensures { parts_text result ≡ part_text part.entry }
{
    [part, Part::Nothing, Part::Nothing]
}

/// In what a transaction is another payment.
#[tactic(auto, unfolding(crate::specs::Words::differing_words))]
fn differing_part<'a>(part: Differing) -> Part<'a>
    ensures { part_text result ≡ differing_words part }
{
    match part {
        Differing::Version => Part::Text("Version"),
        Differing::Locktime => Part::Text("Locktime"),
        Differing::Count => Part::Text("Count"),
        Differing::Input(index) => Part::Number("Input ", u64::from(index)),
        Differing::Output(index) => Part::Number("Output ", u64::from(index)),
    }
}

/// A fee that may be below 0, behind the name of its fault.
fn fee_part<'a>(fee: i64) -> Part<'a>
    ensures { part_text result ≡ codes "settle BelowRate " ++ signed_decimal fee }
{
    if fee < 0 {
        Part::Number("settle BelowRate -", fee.unsigned_abs())
    } else {
        Part::Number("settle BelowRate ", fee.unsigned_abs())
    }
}

/// What the line of a broken rule says behind the word `fault`: `settle`, the variant's name and its fields, which are a place in
/// bytes, an index, weights in weight units, amounts in satoshi, or a fault.
#[tactic(auto, unfolding(crate::specs::Words::settle_fault_words))]
pub fn unsettled_parts<'a>(fault: SettleFault) -> [Part<'a>; 3]
    ensures { parts_text result ≡ codes "settle " ++ settle_fault_words fault }
{
    match fault {
        SettleFault::Report(place) => alone(Part::Number("settle Report ", place)),
        SettleFault::NotFunded => alone(Part::Text("settle NotFunded")),
        SettleFault::Psbt(fault) => {
            let [first, second] = psbt_fault_parts(fault);
            [Part::Text("settle Psbt "), first, second]
        }
        SettleFault::NoValue(index) => alone(Part::Number("settle NoValue ", u64::from(index))),
        SettleFault::Foreign(index) => alone(Part::Number("settle Foreign ", u64::from(index))),
        SettleFault::Differs(part) => [
            Part::Text("settle Differs "),
            differing_part(part),
            Part::Nothing,
        ],
        SettleFault::Unsigned(index) => alone(Part::Number("settle Unsigned ", u64::from(index))),
        SettleFault::Heavier(index, declared, weight) => [
            Part::Number("settle Heavier ", u64::from(index)),
            Part::Number(" ", declared),
            Part::Number(" ", weight),
        ],
        SettleFault::TooHeavy(weight) => alone(Part::Number("settle TooHeavy ", weight)),
        SettleFault::BelowRate(fee, needed) => {
            [fee_part(fee), Part::Number(" ", needed), Part::Nothing]
        }
    }
}

/// What is printed of a transaction that settles a payment: its txid, its weight, its size, its fee and what its inputs weigh
/// less than declared, each on a line. It refuses only when out of memory.
#[tactic(auto, unfolding(crate::specs::Words::figures_text))]
pub fn settled_text(alloc: Global, settled: &Settled) -> Result<String, Memory>
    ensures { IfOk result (λ text. string_bytes text ≡ figures_text settled.now.txid settled.now.weight settled.now.vsize settled.now.fee settled.now.spare) }
{
    let txid = shown_hash(alloc, settled.txid.bytes())?;
    Ok(format!(in alloc;
        "settled {}\nweight {}\nvsize {}\nfee {}\nspare {}\n",
        txid, settled.weight, settled.vsize, settled.fee, settled.spare
    )?)
}

//! The table as one text.

ghost use Rattle.std.specs.Prelude.{◌≡◌, ◌++◌, IfOk, OnOk, string_bytes};
ghost use Rattle.std.specs.List.{flat_map};
ghost use Rattle.command_pay.specs.Table.{figures_text, pays_line, pays_text, saving_in, spends_line, table_text};

use crate::lines::{change_line, fee_line, mark_line};
use crate::parties::{gets_line, spends_line};
use crate::report::PaidReport;
use crate::saving::saving_text;
use crate::shares::put_shares;
use fund_base::Memory;
use fund_report::InLine;
use pay_words::{Asked, Way};
use request_making::Payment;
use std::alloc::Global;

/// Puts the lines of the recipients after the text, each with what is asked for.
fn put_payments(alloc: Global, text: &mut String, payments: &[Payment]) -> Result<(), Memory>
    ensures { OnOk result (string_bytes text.new ≡ string_bytes text.old ++ flat_map pays_line payments.now) }
{
    for payment in payments {
        let line = gets_line(alloc, &payment.to, payment.amount)?;
        text.push_str(line.as_str())?;
    }
    Ok(())
}

/// Puts the lines of the recipients after the text, each with what it gets.
fn put_recipients(
    alloc: Global,
    text: &mut String,
    payments: &[Payment],
    report: &PaidReport,
) -> Result<(), Memory>
    ensures { OnOk result (string_bytes text.new ≡ string_bytes text.old ++ pays_text payments.now report.now) }
{
    match report {
        PaidReport::Whole(_) => put_payments(alloc, text, payments),
        PaidReport::Shared(report) => put_shares(alloc, text, payments, &report.amounts),
    }
}

/// Puts the lines of the coins that are spent after the text, each with its value in bitcoin and in satoshi. It refuses only when out
/// of memory.
pub fn put_coins(alloc: Global, text: &mut String, coins: &[InLine]) -> Result<(), Memory>
    ensures { OnOk result (string_bytes text.new ≡ string_bytes text.old ++ flat_map spends_line coins.now) }
{
    for coin in coins {
        let line = spends_line(alloc, coin)?;
        text.push_str(line.as_str())?;
    }
    Ok(())
}

/// The line of what a payment by `wide` saves; nothing of another.
fn saving_in(alloc: Global, way: Way, long_term: u64, report: &PaidReport) -> Result<String, Memory>
    ensures { IfOk result (λ text. string_bytes text ≡ saving_in way long_term report.now) }
{
    match report {
        PaidReport::Whole(report) => saving_text(alloc, way, long_term, report.waste),
        PaidReport::Shared(_) => Ok(String::new(alloc)),
    }
}

/// The lines of what the payment comes to.
#[tactic(auto, unfolding(crate::specs::Table::figures_text))]
fn figures_text(
    alloc: Global,
    way: Way,
    long_term: u64,
    report: &PaidReport,
) -> Result<String, Memory>
    ensures { IfOk result (λ text. string_bytes text ≡ figures_text way long_term report.now) }
{
    let fee = fee_line(alloc, report.fee(), report.vsize())?;
    let change = change_line(alloc, report.change())?;
    let mark = mark_line(alloc, way, report.mark())?;
    let saving = saving_in(alloc, way, long_term, report)?;
    Ok(format!(in alloc; "{}{}{}{}", fee, change, mark, saving)?)
}

/// A payment as a table: a line `pays` for each recipient in order, with what it gets in bitcoin and in satoshi, and the
/// address as it was given or the script in hex; a line `spends` for each coin in the order of the inputs; a line `fee`,
/// with what it comes to a virtual byte, rounded down; a line `change`; and a line `choice` that says what the mark of the
/// report promises, or the finished search of a payment by `share`. For a payment by `wide` a line `saves` or `costs` says what
/// spending these coins now saves or costs, beside spending them later. It refuses only when out of memory.
#[tactic(auto, unfolding(crate::specs::Table::table_text))]
pub fn table_text(alloc: Global, asked: &Asked, report: &PaidReport) -> Result<String, Memory>
    ensures { IfOk result (λ text. string_bytes text ≡ table_text asked.now report.now) }
{
    let mut text = String::new(alloc);
    put_recipients(alloc, &mut text, &asked.payments, report)?;
    put_coins(alloc, &mut text, report.coins())?;
    let figures = figures_text(alloc, asked.way, asked.settings.long_term, report)?;
    text.push_str(figures.as_str())?;
    Ok(text)
}

//! What is printed and written.

ghost use Rattle.std.specs.Prelude.{◌≡◌, ◌≤◌, ◌+◌, ◌-◌, ◌++◌, ◌∷◌, [], IfOk, OnOk, string_bytes};
ghost use Rattle.closing_log.specs.declared.log.Stage.TheVariants as stages;
ghost use Rattle.fund_plan.specs.Pays.{outputs_of};
ghost use Rattle.fund_report.specs.ReportText.{IsReportText};
ghost use Rattle.fund_steps.specs.Amounts.{AreWithin, value_of};
ghost use Rattle.command_end.specs.LinesText.{lines_text};
ghost use Rattle.command_inputs.specs.Outcome.{none_report};
ghost use Rattle.command_share.specs.Outcome.{change_line, head_lines, log_text, open_report, pay_line, pay_lines, shared_lines};

use crate::rows::Paying;
use closing_log::{LogText, Section, Stage, write_sections};
use command_amounts::{put_coins, put_figures};
use fund_base::Memory;
use fund_report::{Report, write_report};
use fund_steps::{paid, value};
use request_text::Request;
use std::alloc::Global;

/// The report where no row has a selection. The error is out of memory.
pub fn none_report(alloc: Global, tries: u64) -> Result<Vec<u8>, Memory>
    ensures text { IfOk result (λ text. text.items ≡ none_report tries) }
    ensures means { IfOk result (λ text. IsReportText text.items (Report.NoSelection tries)) }
{
    let report = Report::NoSelection { tries };
    let text = write_report(alloc, &report)?;
    Ok(text)
}

/// The report where the tries are used up in the row of this number. The error is out of memory.
pub fn open_report(alloc: Global, tries: u64, number: u8) -> Result<Vec<u8>, Memory>
    ensures text { IfOk result (λ text. text.items ≡ open_report tries number) }
    ensures means { IfOk result (λ text. IsReportText text.items (Report.Unfinished tries number stages.LeanSmall)) }
{
    let report = Report::Unfinished {
        tries,
        row: number,
        stage: Stage::LeanSmall,
    };
    let text = write_report(alloc, &report)?;
    Ok(text)
}

/// The log of finished searches. The error is out of memory.
pub fn log_of(alloc: Global, sections: Vec<Section>) -> Result<Vec<u8>, Memory>
    ensures { IfOk result (λ text. text.items ≡ log_text sections.items) }
{
    let log = LogText {
        closed: sections,
        tail: None,
        ended: true,
    };
    let text = write_sections(alloc, &log)?;
    Ok(text)
}

/// Puts the line of what a recipient gets after the text. The error is out of memory.
#[tactic(auto, unfolding(crate::specs::Outcome::pay_line))]
fn put_pay(alloc: Global, text: &mut String, place: usize, amount: u64) -> Result<(), Memory>
    ensures { OnOk result (string_bytes text.new ≡ string_bytes text.old ++ lines_text (pay_line place amount ∷ [])) }
{
    let line = format!(in alloc; "pay {} {}\n", place, amount)?;
    text.push_str(line.as_str())?;
    Ok(())
}

/// Puts the lines of what each recipient gets after the text. The error is out of memory.
fn put_pays(alloc: Global, text: &mut String, amounts: &[u64]) -> Result<(), Memory>
    ensures { OnOk result (string_bytes text.new ≡ string_bytes text.old ++ lines_text (pay_lines 0 amounts.now)) }
{
    for (place, amount) in amounts.iter().enumerate() {
        put_pay(alloc, text, place, *amount)?;
    }
    Ok(())
}

/// Puts the line of the change after the text. The error is out of memory.
#[tactic(auto, unfolding(crate::specs::Outcome::change_line))]
fn put_change(alloc: Global, text: &mut String, change: Option<u64>) -> Result<(), Memory>
    ensures { OnOk result (string_bytes text.new ≡ string_bytes text.old ++ lines_text (change_line change ∷ [])) }
{
    match change {
        None => text.push_str("change none\n")?,
        Some(amount) => {
            let line = format!(in alloc; "change {}\n", amount)?;
            text.push_str(line.as_str())?;
        }
    }
    Ok(())
}

/// The lines of the row and the tries. The error is out of memory.
#[tactic(auto, unfolding(crate::specs::Outcome::head_lines))]
fn head(alloc: Global, row: u8, tries: u64) -> Result<String, Memory>
    ensures { IfOk result (λ text. string_bytes text ≡ lines_text (head_lines row tries)) }
{
    Ok(format!(in alloc; "shared\nrow {}\ntries {}\n", row, tries)?)
}

/// What the coins of a payment are worth less what its outputs take, in satoshi, by the request with the amounts that are paid.
fn fee_of(paying: &Request, payment: &Paying) -> u64
    requires coins { AreWithin payment.now.coins }
    requires within { outputs_of paying.now payment.now.change ≤ value_of payment.now.coins }
    ensures { result + outputs_of paying.now payment.now.change ≡ value_of payment.now.coins }
{
    let coins = value(&payment.coins);
    let recipients = paid(paying);
    match payment.change {
        None => coins - recipients,
        Some(amount) => coins - recipients - amount,
    }
}

/// The report of a payment up to its PSBT, by the request with the amounts that are paid. The error is out of memory.
#[tactic(auto, unfolding(crate::specs::Outcome::shared_lines))]
pub fn shared_lines(
    alloc: Global,
    paying: &Request,
    tries: u64,
    payment: &Paying,
    amounts: &[u64],
) -> Result<String, Memory>
    requires coins { AreWithin payment.now.coins }
    requires within { outputs_of paying.now payment.now.change ≤ value_of payment.now.coins }
    ensures { IfOk result (λ text. string_bytes text ≡ shared_lines amounts.now (value_of payment.now.coins - outputs_of paying.now payment.now.change) tries payment.now) }
{
    let fee = fee_of(paying, payment);
    let mut text = head(alloc, payment.row.number, tries)?;
    put_coins(alloc, &mut text, &payment.coins)?;
    put_pays(alloc, &mut text, amounts)?;
    put_figures(alloc, &mut text, payment.weight, fee)?;
    put_change(alloc, &mut text, payment.change)?;
    Ok(text)
}

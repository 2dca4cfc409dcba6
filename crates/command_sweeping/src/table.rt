//! A payment of all coins as a table.

ghost use Rattle.std.specs.Prelude.{◌≡◌, IfOk, string_bytes};
ghost use Rattle.command_sweeping.specs.Table.{gets_text, sweep_table};

use amount_reports::SweptReport;
use command_pay::{fee_line, gets_line, put_coins};
use fund_base::Memory;
use request_making::Payment;
use std::alloc::Global;

/// The line of what the first of the recipients gets; nothing where there is none.
fn gets_text(alloc: Global, payments: &[Payment], amount: u64) -> Result<String, Memory>
    ensures { IfOk result (λ text. string_bytes text ≡ gets_text payments.now amount) }
{
    match payments {
        [] => Ok(String::new(alloc)),
        [first, ..] => gets_line(alloc, &first.to, amount),
    }
}

/// A payment of all coins as a table: a line `pays` with what the recipient gets, in bitcoin and in satoshi, and the address as it
/// was given or the script in hex; a line `spends` for each coin in the order of the inputs; and a line `fee`, with what it comes
/// to a virtual byte, rounded down. It refuses only when out of memory.
#[tactic(auto, unfolding(crate::specs::Table::sweep_table))]
pub fn sweep_table(
    alloc: Global,
    payments: &[Payment],
    report: &SweptReport,
) -> Result<String, Memory>
    ensures { IfOk result (λ text. string_bytes text ≡ sweep_table payments.now report.now) }
{
    let mut text = gets_text(alloc, payments, report.amount)?;
    put_coins(alloc, &mut text, &report.coins)?;
    let fee = fee_line(alloc, report.fee, report.vsize)?;
    text.push_str(fee.as_str())?;
    Ok(text)
}

//! The lines of the table that are of recipients and of coins.

ghost use Rattle.std.specs.Prelude.{◌≡◌, IfOk, string_bytes};
ghost use Rattle.command_pay.specs.Table.{gets_line, payee_text, spends_line};

use crate::lines::money_text;
use command_end::{coin_text, shown_name};
use fund_base::{Memory, are_bytes};
use fund_report::InLine;
use request_making::Payee;
use std::alloc::Global;

/// To whom is paid: the address as it was given, or the script in hex. It refuses only when out of memory.
pub fn payee_text(alloc: Global, to: &Payee) -> Result<String, Memory>
    ensures { IfOk result (λ text. string_bytes text ≡ payee_text to.now) }
{
    match to {
        Payee::Address(text) => {
            let shown = shown_name(alloc, text.as_str())?;
            Ok(shown)
        }
        Payee::Script(script) => {
            are_bytes(script.bytes());
            Ok(hex::encode(alloc, script.bytes())?)
        }
    }
}

/// The line of a recipient and what it gets, in bitcoin and in satoshi. It refuses only when out of memory.
#[tactic(auto, unfolding(crate::specs::Table::gets_line))]
pub fn gets_line(alloc: Global, to: &Payee, amount: u64) -> Result<String, Memory>
    ensures { IfOk result (λ text. string_bytes text ≡ gets_line to.now amount) }
{
    let money = money_text(alloc, amount)?;
    let payee = payee_text(alloc, to)?;
    Ok(format!(in alloc; "pays    {}  {}\n", money, payee)?)
}

/// The line of a coin that is spent.
#[tactic(auto, unfolding(crate::specs::Table::spends_line))]
pub fn spends_line(alloc: Global, line: &InLine) -> Result<String, Memory>
    ensures { IfOk result (λ text. string_bytes text ≡ spends_line line.now) }
{
    let money = money_text(alloc, line.value)?;
    let coin = coin_text(alloc, &line.coin)?;
    Ok(format!(in alloc; "spends  {}  {}\n", money, coin)?)
}

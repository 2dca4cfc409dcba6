//! The line of the table that says what a payment without change saves.

ghost use Rattle.std.specs.Prelude.{◌≡◌, IfOk, string_bytes};
ghost use Rattle.command_pay.specs.Saving.{amount_of, saving_line, saving_name, saving_text};

use crate::lines::money_text;
use fund_base::Memory;
use pay_words::Way;
use request_making::rate_text;
use std::alloc::Global;

/// The amount of a waste in satoshi. One of more than 64 bits, which no payment has, counts as the greatest number of 64 bits.
fn amount_of(waste: i128) -> u64
    ensures { result ≡ amount_of waste }
{
    let amount = waste.unsigned_abs();
    if amount > u64::MAX as u128 {
        return u64::MAX;
    }
    amount as u64
}

/// Whether it is saved, or costs more.
fn saving_name(waste: i128) -> &'static str
    ensures { result.now ≡ saving_name waste }
{
    if waste > 0 { "costs   " } else { "saves   " }
}

/// The line of what is saved.
#[tactic(auto, unfolding(crate::specs::Saving::saving_line))]
fn saving_line(alloc: Global, long_term: u64, waste: i128) -> Result<String, Memory>
    ensures { IfOk result (λ text. string_bytes text ≡ saving_line long_term waste) }
{
    let money = money_text(alloc, amount_of(waste))?;
    let rate = rate_text(alloc, long_term)?;
    Ok(format!(in alloc;
        "{}{}  against spending these coins later at {}\n",
        saving_name(waste),
        money,
        rate
    )?)
}

/// The line of what a payment by `wide` saves beside spending its coins later at the long-term rate; nothing for another.
pub fn saving_text(alloc: Global, way: Way, long_term: u64, waste: i128) -> Result<String, Memory>
    ensures { IfOk result (λ text. string_bytes text ≡ saving_text way long_term waste) }
{
    match way {
        Way::Fund | Way::Share => Ok(String::new(alloc)),
        Way::Wide => saving_line(alloc, long_term, waste),
    }
}

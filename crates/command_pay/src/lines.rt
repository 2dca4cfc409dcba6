//! The lines of the table that are of amounts.

ghost use Rattle.std.specs.Prelude.{◌≡◌, IfOk, string_bytes};
ghost use Rattle.command_pay.specs.Lines.{best_sentence, change_line, fee_line, mark_line, mark_sentence, money_text, rate_words};

use crate::rates::rate_of;
use closing_log::Mark;
use fund_base::Memory;
use pay_words::Way;
use request_making::{btc_text, rate_text, sat_text};
use std::alloc::Global;

/// An amount in satoshi, shown in bitcoin and in satoshi. It refuses only when out of memory.
#[tactic(auto, unfolding(crate::specs::Lines::money_text))]
pub fn money_text(alloc: Global, amount: u64) -> Result<String, Memory>
    ensures { IfOk result (λ text. string_bytes text ≡ money_text amount) }
{
    let btc = btc_text(alloc, amount)?;
    let sat = sat_text(alloc, amount)?;
    Ok(format!(in alloc; "{}  {}", btc, sat)?)
}

/// A rate, if there is one.
fn rate_words(alloc: Global, rate: Option<u64>) -> Result<String, Memory>
    ensures { IfOk result (λ text. string_bytes text ≡ rate_words rate) }
{
    match rate {
        None => Ok(format!(in alloc; "no rate")?),
        Some(rate) => {
            let text = rate_text(alloc, rate)?;
            Ok(text)
        }
    }
}

/// The line of the fee in satoshi, with what it comes to for each of these virtual bytes. It refuses only when out of memory.
#[tactic(auto, unfolding(crate::specs::Lines::fee_line))]
pub fn fee_line(alloc: Global, fee: u64, vsize: u64) -> Result<String, Memory>
    ensures { IfOk result (λ text. string_bytes text ≡ fee_line fee vsize) }
{
    let money = money_text(alloc, fee)?;
    let rate = rate_words(alloc, rate_of(fee, vsize))?;
    Ok(format!(in alloc; "fee     {}  {} for {} vB\n", money, rate, vsize)?)
}

/// The line of the change.
#[tactic(auto, unfolding(crate::specs::Lines::change_line))]
pub fn change_line(alloc: Global, change: Option<u64>) -> Result<String, Memory>
    ensures { IfOk result (λ text. string_bytes text ≡ change_line change) }
{
    match change {
        None => Ok(format!(in alloc; "change  none\n")?),
        Some(change) => {
            let money = money_text(alloc, change)?;
            Ok(format!(in alloc; "change  {}\n", money)?)
        }
    }
}

/// What a search promises that came to its end, in a sentence.
#[tactic(auto, unfolding(crate::specs::Lines::best_sentence))]
fn best_sentence(way: Way) -> &'static str
    ensures { result.now ≡ best_sentence way }
{
    match way {
        Way::Fund =>
            "These coins are the best of what was searched, to its end, and the log proves it.",
        Way::Wide =>
            "These coins waste least of all choices without change of their row, needed or not, and the log proves it.",
        Way::Share =>
            "These coins are the lightest of their row that are worth the amounts, and the log proves it.",
    }
}

/// What a mark promises of a payment by this command, in a sentence.
#[tactic(auto, unfolding(crate::specs::Lines::mark_sentence))]
pub fn mark_sentence(way: Way, mark: Mark) -> &'static str
    ensures { result.now ≡ mark_sentence way mark }
{
    match mark {
        Mark::Exhausted => best_sentence(way),
        Mark::Drawn =>
            "These coins were drawn by the seed, and no search beside the draw found any that waste less.",
        Mark::Given => "These are exactly the coins that were listed: others may cost less.",
        Mark::Partial =>
            "The tries were used up: these coins are the best so far, and more tries may find better.",
    }
}

/// The line of the mark.
#[tactic(auto, unfolding(crate::specs::Lines::mark_line))]
pub fn mark_line(alloc: Global, way: Way, mark: Mark) -> Result<String, Memory>
    ensures { IfOk result (λ text. string_bytes text ≡ mark_line way mark) }
{
    Ok(format!(in alloc; "choice  {}\n", mark_sentence(way, mark))?)
}

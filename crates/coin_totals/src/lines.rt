//! What coins come to, as lines.

ghost use Rattle.std.specs.Prelude.{◌≡◌, IfOk, string_bytes};
ghost use Rattle.coin_totals.specs.Totals.{total_line, totals_text};

use crate::class::{CoinClass, word_of};
use crate::classes::ClassedCoin;
use crate::totals::total_of;
use fund_base::Memory;
use std::alloc::Global;

/// The line of a class.
#[tactic(auto, unfolding(crate::specs::Totals::total_line))]
fn total_line(alloc: Global, coins: &[ClassedCoin], class: CoinClass) -> Result<String, Memory>
    ensures { IfOk result (λ text. string_bytes text ≡ total_line coins.now class) }
{
    let total = total_of(class, coins);
    Ok(format!(in alloc;
        "total {} {} {}\n",
        word_of(class),
        total.count,
        total.value
    )?)
}

/// The lines of what coins come to: of each class but those that are gone the number of its coins, and what they are worth together in
/// satoshi. It refuses only when out of memory.
#[tactic(auto, unfolding(crate::specs::Totals::totals_text))]
pub fn totals_text(alloc: Global, coins: &[ClassedCoin]) -> Result<String, Memory>
    ensures { IfOk result (λ text. string_bytes text ≡ totals_text coins.now) }
{
    let confirmed = total_line(alloc, coins, CoinClass::Confirmed)?;
    let waiting = total_line(alloc, coins, CoinClass::Waiting)?;
    let taken_back = total_line(alloc, coins, CoinClass::Unsafe)?;
    let claimed = total_line(alloc, coins, CoinClass::Claimed)?;
    let locked = total_line(alloc, coins, CoinClass::Locked)?;
    let immature = total_line(alloc, coins, CoinClass::Immature)?;
    let mut text = confirmed;
    text.push_str(waiting.as_str())?;
    text.push_str(taken_back.as_str())?;
    text.push_str(claimed.as_str())?;
    text.push_str(locked.as_str())?;
    text.push_str(immature.as_str())?;
    Ok(text)
}

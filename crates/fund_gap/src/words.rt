//! What is missing, in a sentence.

ghost use Rattle.std.specs.Prelude.{◌≡◌, IfOk, string_bytes};
ghost use Rattle.fund_gap.specs.Words.{front_of, gap_text, middle_of, missing_text};

use crate::gap::Gap;
use fund_base::Memory;
use std::alloc::Global;

/// What the coins are that bring something.
#[derive(Clone, Copy)]
pub enum GapKind {
    /// Those that are listed.
    Listed,
    /// All that may be spent.
    Spendable,
    /// All that may be spent, by what they are worth: the recipients bear the fee.
    Worth,
}

fn front_of(kind: GapKind) -> &'static str
    ensures { result.now ≡ front_of kind }
{
    match kind {
        GapKind::Listed => "The listed coins bring ",
        GapKind::Spendable => "The coins that may be spent bring ",
        GapKind::Worth => "The coins that may be spent are worth ",
    }
}

fn middle_of(kind: GapKind) -> &'static str
    ensures { result.now ≡ middle_of kind }
{
    match kind {
        GapKind::Listed | GapKind::Spendable => " sat beyond their fees, and ",
        GapKind::Worth => " sat, and ",
    }
}

/// What is said of so many satoshi that are missing.
#[tactic(auto, unfolding(crate::specs::Words::missing_text))]
fn missing_text(alloc: Global, missing: u128) -> Result<String, Memory>
    ensures { IfOk result (λ text. string_bytes text ≡ missing_text missing) }
{
    if missing == 0 {
        return Ok(String::from_str(
            alloc,
            "that is enough, but no choice of them pays as asked.",
        )?);
    }
    Ok(format!(in alloc; "{} sat are missing.", missing)?)
}

/// What coins bring, what a payment needs and what is missing, in a sentence. It refuses only when out of memory.
#[tactic(auto, unfolding(crate::specs::Words::gap_text))]
pub fn gap_text(alloc: Global, kind: GapKind, gap: &Gap) -> Result<String, Memory>
    ensures { IfOk result (λ text. string_bytes text ≡ gap_text kind gap.now) }
{
    let missing = missing_text(alloc, gap.missing)?;
    Ok(format!(in alloc;
        "{}{}{}{} sat are needed: {}",
        front_of(kind),
        gap.brings,
        middle_of(kind),
        gap.needs,
        missing
    )?)
}

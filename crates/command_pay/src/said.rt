//! What is said of a payment whose fee is too great, that was not written, or whose change may be lost.

ghost use Rattle.std.specs.Prelude.{◌≡◌, IfOk, string_bytes};
ghost use Rattle.command_pay.specs.Said.{change_warning, high_fee_text, earlier_words, unread_warning, unwritten_text};

use fund_base::Memory;
use std::alloc::Global;

/// What is said of a fee that is above the greatest that is taken, both in satoshi.
#[tactic(auto, unfolding(crate::specs::Said::high_fee_text))]
pub fn high_fee_text(alloc: Global, fee: u64, most: u64) -> Result<String, Memory>
    ensures { IfOk result (λ text. string_bytes text ≡ high_fee_text fee most) }
{
    Ok(format!(in alloc;
        "The fee of {} sat is above {} sat, the greatest that is taken: give less for --fee-rate, or more for --max-fee.",
        fee, most
    )?)
}

/// What is said of the new files before one that was not written, where any is asked for.
fn earlier_words(any: bool) -> &'static str
    ensures { result.now ≡ earlier_words any }
{
    if any {
        " The files asked for before it, in the order request, log, report and PSBT, were written."
    } else {
        ""
    }
}

/// What is said of a new file that was not written; and of those that are asked for before it, where there are any.
#[tactic(auto, unfolding(crate::specs::Said::unwritten_text))]
pub fn unwritten_text(alloc: Global, name: &str, earlier_written: bool) -> Result<String, Memory>
    ensures { IfOk result (λ text. string_bytes text ≡ unwritten_text name.now earlier_written) }
{
    Ok(format!(in alloc;
        "The file {} was not written: it is there already, its folder is missing or closed to you, or the disk is full; name a new file. A part of it may stand there.{}",
        name,
        earlier_words(earlier_written)
    )?)
}

/// What is said where change goes to a script that the wallet doesn't watch.
#[tactic(auto, unfolding(crate::specs::Said::change_warning))]
pub fn change_warning() -> &'static str
    ensures { result.now ≡ change_warning }
{
    "warning The change script is not among the scripts of the wallet: change would be lost from sight, or be another's."
}

/// What is said of change, where the wallet file could not be read to look whether its script is watched.
#[tactic(auto, unfolding(crate::specs::Said::unread_warning))]
pub fn unread_warning() -> &'static str
    ensures { result.now ≡ unread_warning }
{
    "warning The wallet file could not be read again: look whether the change script is yours."
}

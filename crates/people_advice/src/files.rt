//! A new file that is there already.

ghost use Rattle.std.specs.Prelude.{◌≡◌, IfOk, string_bytes};
ghost use Rattle.people_advice.specs.Files.{earlier_words, there_text};

use fund_base::Memory;
use std::alloc::Global;

/// What is said of the new files before one that was not written, where any is asked for.
fn earlier_words(any: bool) -> &'static str
    ensures { result.now ≡ earlier_words any }
{
    if any {
        " The files asked for before it, in the order request, log, report and PSBT, were written."
    } else {
        ""
    }
}

/// What is said of a new file that was there before, so that it was not written; and of those that are asked for before it, where
/// there are any. It refuses only when out of memory.
#[tactic(auto, unfolding(crate::specs::Files::there_text))]
pub fn there_text(alloc: Global, name: &str, earlier_written: bool) -> Result<String, Memory>
    ensures { IfOk result (λ text. string_bytes text ≡ there_text name.now earlier_written) }
{
    Ok(format!(in alloc;
        "The file {} is there already, and stays as it was: name a new file.{}",
        name,
        earlier_words(earlier_written)
    )?)
}

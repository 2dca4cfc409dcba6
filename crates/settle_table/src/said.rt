//! What is said of a PSBT whose inputs aren't all final.

ghost use Rattle.std.specs.Prelude.{◌≡◌, IfOk, string_bytes};
ghost use Rattle.settle_table.specs.Said.{unfinished_text, unsigned_text};

use fund_base::Memory;
use std::alloc::Global;

/// What is said of the input of this index, from 0, that has neither a final script nor a final witness.
#[tactic(auto, unfolding(crate::specs::Said::unsigned_text))]
pub fn unsigned_text(alloc: Global, index: u32) -> Result<String, Memory>
    ensures { IfOk result (λ text. string_bytes text ≡ unsigned_text index) }
{
    Ok(format!(in alloc;
        "input {} isn't signed: the PSBT has neither its final script nor its final witness. Let the signer sign it and make it final.",
        index
    )?)
}

/// What is said of the input of this index, from 0, whose final witness is none.
#[tactic(auto, unfolding(crate::specs::Said::unfinished_text))]
pub fn unfinished_text(alloc: Global, index: u32) -> Result<String, Memory>
    ensures { IfOk result (λ text. string_bytes text ≡ unfinished_text index) }
{
    Ok(format!(in alloc;
        "input {} has a final witness that is none: its bytes aren't a number of items and each behind its length. Let the signer make the PSBT once more.",
        index
    )?)
}

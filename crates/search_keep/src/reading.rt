//! A saved position read back from its text.

ghost use Rattle.std.specs.Prelude.{◌≡◌, ◌-◌, length, IfErr, IfOk, MatchResult};
ghost use Rattle.search_keep.specs.declared.fault.SavedFault.TheVariants as faults;
ghost use Rattle.search_keep.specs.Reading.{saved_at};
ghost use Rattle.search_keep.specs.SavedText.{IsSavedText, PlainSaved};
ghost use Rattle.search_keep.specs.Reported.{IsSavedTextFault, Agrees};

use crate::fault::SavedFault;
use crate::lines::{read_position, read_start};
use crate::saved::Saved;
use closing_log::LineFault;
use std::alloc::Global;

/// The fault of a text whose reading stops where these bytes are left.
fn form(whole: &[u8], stop: &[u8]) -> SavedFault
    ensures { result ≡ faults.Form (length whole.now - length stop.now) }
{
    SavedFault::Form(whole.len().saturating_sub(stop.len()) as u64)
}

/// The position of the bytes, read line by line.
#[tactic(auto, using(crate::proofs::ToldLaws::tell_start, crate::proofs::ToldLaws::tell_position, crate::proofs::ToldLaws::tell_end))]
fn read_lines(alloc: Global, bytes: &[u8]) -> Result<Saved, SavedFault>
    ensures { Agrees bytes.now result (saved_at bytes.now) }
{
    let (start, rest) = match read_start(bytes) {
        Ok(read) => read,
        Err(stop) => return Err(form(bytes, stop)),
    };
    let (saved, rest) = match read_position(alloc, start, rest) {
        Ok(read) => read,
        Err(LineFault::Form(stop)) => return Err(form(bytes, stop)),
        Err(LineFault::Memory) => return Err(SavedFault::Memory),
    };
    match rest {
        [] => Ok(saved),
        _ => Err(form(bytes, rest)),
    }
}

/// The position of which the bytes are a text in either version, its digests in either case. [`SavedFault::Form`] exactly where they
/// are no saved text: at the first byte at which no text goes on as the bytes do, or at their length where they end
/// too early. No other fault comes but being out of memory.
#[tactic(auto, using(crate::proofs::ToldLaws::tells_found, crate::proofs::ToldLaws::tells_only, crate::proofs::ToldLaws::tells_fault))]
pub fn read_saved(alloc: Global, bytes: &[u8]) -> Result<Saved, SavedFault>
    // What is read is a position of which the bytes are a text, and such a text is read.
    ensures found { IfOk result (λ saved. IsSavedText bytes.now saved) }
    ensures only { (saved : PlainSaved) → IsSavedText bytes.now saved → MatchResult result (λ read. read ≡ saved) (λ e. e ≡ faults.Memory) }

    // Where else they leave the texts.
    ensures fault { IfErr result (IsSavedTextFault bytes.now) }
{
    read_lines(alloc, bytes)
}

//! PSBTs as text.

ghost use Rattle.std.specs.Prelude.{◌≡◌, ◌≢◌, List, ℕ, IfOk, IfErr, MatchResult, string_bytes};
ghost use Rattle.base64.specs.Engines.{standard};
ghost use Rattle.base64.specs.GeneralPurpose.{encode_of};
ghost use Rattle.fund_base.specs.Cursor.{IsBytes};
ghost use Rattle.psbt_codec.specs.Fault.{text_fault};
ghost use Rattle.psbt_codec.specs.PartialTransaction.{PartialTransaction};
ghost use Rattle.psbt_codec.specs.Text.{psbt_text, HasPsbtFault, IsPsbtTextIn};
ghost use Rattle.psbt_codec.specs.declared.fault.PsbtFault.TheVariants.{NotBase64, Memory as OutOfMemory};

use crate::fault::PsbtFault;
use crate::psbt::{Psbt, Versioned};
use crate::reading::read_versioned;
use crate::writing::write_psbt;
use base64::DecodeAllocError;
use base64::engine::general_purpose::STANDARD;
use fund_base::{Memory, are_bytes};
use std::alloc::Global;

/// The bytes in base64, with the standard alphabet and padding (RFC 4648, section 4).
pub fn to_text(alloc: Global, bytes: &[u8]) -> Result<Vec<u8>, Memory>
    ensures { IfOk result (λ text. text.items ≡ encode_of standard bytes.now) }
{
    let text = encoded(alloc, bytes)?;
    Ok(text.into_bytes())
}

/// The PSBT as text: its bytes, as [`write_psbt`] gives them for this version, in base64 with the standard alphabet and
/// padding (BIP 174, 'Specification'; RFC 4648, section 4).
pub fn write_text(alloc: Global, psbt: &Psbt, version: u32) -> Result<String, Memory>
    ensures { IfOk result (λ text. string_bytes text ≡ psbt_text version psbt.now) }
{
    let bytes = write_psbt(alloc, psbt, version)?;
    encoded(alloc, &bytes)
}

// The bytes in base64.
fn encoded(alloc: Global, bytes: &[u8]) -> Result<String, Memory>
    ensures { IfOk result (λ text. string_bytes text ≡ encode_of standard bytes.now) }
{
    let text = STANDARD.encode(alloc, bytes)?;
    Ok(text)
}

fn text_fault(fault: DecodeAllocError) -> PsbtFault
    ensures { result ≡ text_fault fault }
{
    match fault {
        DecodeAllocError::OutOfMemory => PsbtFault::Memory,
        DecodeAllocError::DecodeError(_) => PsbtFault::NotBase64,
    }
}

/// The bytes that the text is in base64, with the standard alphabet and padding (RFC 4648, section 4) and
/// no bit set after the last byte. [`PsbtFault::NotBase64`] exactly where it is no such text; no other
/// fault comes but out of memory.
pub fn from_text(alloc: Global, text: &[u8]) -> Result<Vec<u8>, PsbtFault>
    // What is read has this text, and the text of any bytes is read as them, memory aside.
    ensures found { IfOk result (λ bytes. text.now ≡ encode_of standard bytes.items) }
    ensures only { (bytes : List ℕ) → IsBytes bytes → text.now ≡ encode_of standard bytes → MatchResult result (λ read. read.items ≡ bytes) (λ e. e ≡ OutOfMemory) }
    ensures fault { IfErr result (λ e. e ≢ OutOfMemory → e ≡ NotBase64) }
{
    match STANDARD.decode(alloc, text) {
        Ok(bytes) => Ok(bytes),
        Err(fault) => Err(text_fault(fault)),
    }
}

/// The PSBT that the text is in base64, and its version. The fault is that of [`from_text`], or of
/// [`read_versioned`] for the bytes that the text is.
pub fn read_text(alloc: Global, text: &[u8]) -> Result<Versioned, PsbtFault>
    // What is read has this text in its version, and what has this text is read as it, memory aside.
    ensures found { IfOk result (λ v. IsPsbtTextIn v.version text.now v.psbt) }
    ensures only { (version : ℕ) (p : PartialTransaction) → IsPsbtTextIn version text.now p → MatchResult result (λ v. (v.version ≡ version) × (v.psbt ≡ p)) (λ e. e ≡ OutOfMemory) }
    ensures fault { IfErr result (λ e. e ≢ OutOfMemory → HasPsbtFault text.now e) }
{
    let bytes = from_text(alloc, text)?;
    are_bytes(&bytes);
    read_versioned(alloc, &bytes)
}

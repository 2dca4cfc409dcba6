//! The bytes of a PSBT file, made whole.

ghost use Rattle.std.specs.Prelude.{◌≡◌, ◌≢◌, ◌⊎◌, nat_eq, IfErr, IfOk, OnOk};
ghost use Rattle.std.specs.List.{starts_with};
ghost use Rattle.base64.specs.Engines.{standard};
ghost use Rattle.base64.specs.GeneralPurpose.{encode_of};
ghost use Rattle.fund_files.specs.Chain.{HasTexts, IsChain};
ghost use Rattle.psbt_codec.specs.Psbt.{IsPsbt, magic};
ghost use Rattle.command_complete.specs.Made.{IsCompletedFile, IsCompletedText, IsSpelled, line_of};
ghost use Rattle.command_complete.specs.Stops.{StopsAtFile, StopsAtPsbt, StopsAtText, stop_of_psbt};
ghost use Rattle.command_complete.specs.declared.stop.Refusal.TheVariants as refusals;
ghost use Rattle.command_complete.specs.declared.stop.Stop.TheVariants as stops;

use crate::psbt::complete_psbt;
use crate::stop::{Refusal, Stop};
use coin_book::Known;
use fund_base::{Memory, are_bytes};
use fund_files::Chain;
use psbt_codec::{Psbt, PsbtFault, Versioned, read_text, to_text, write_psbt, write_text};
use std::alloc::Global;

/// The bytes of a file without the line feed at their end, where one stands there.
pub fn line_of(file: &[u8]) -> &[u8]
    ensures { result.now ≡ line_of file.now }
{
    if file.is_empty() {
        return file;
    }
    let last = file.len() - 1;
    if file[last] == b'\n' {
        &file[..last]
    } else {
        file
    }
}

/// Why the command stops at a text with this fault.
fn psbt_stop(fault: PsbtFault) -> Stop
    ensures { result ≡ stop_of_psbt fault }
{
    match fault {
        PsbtFault::Memory => Stop::Memory,
        _ => Stop::Refused(Refusal::Psbt(fault)),
    }
}

/// That the one text of a PSBT is this text. It takes no memory.
fn check_spelling(spelling: &[u8], text: &[u8]) -> Result<(), Stop>
    ensures same { OnOk result (spelling.now ≡ text.now) }
    ensures other { IfErr result (λ stop. (stop ≡ stops.Refused refusals.OtherPairs) × (spelling.now ≢ text.now)) }
{
    if spelling != text {
        return Err(Stop::Refused(Refusal::OtherPairs));
    }
    Ok(())
}

/// The PSBT that a text is, and is the one text of in its version.
fn spelled(alloc: Global, text: &[u8]) -> Result<Versioned, Stop>
    ensures found { IfOk result (λ v. IsSpelled text.now v.version v.psbt) }
    ensures stop { IfErr result (StopsAtText text.now) }
{
    let read = match read_text(alloc, text) {
        Ok(read) => read,
        Err(fault) => return Err(psbt_stop(fault)),
    };
    let spelling = write_text(alloc, &read.psbt, read.version)?;
    match check_spelling(spelling.as_bytes(), text) {
        Ok(()) => Ok(read),
        Err(stop) => Err(stop),
    }
}

/// The one text of a PSBT in a version, which is read back as it in this version.
fn text_of(alloc: Global, psbt: &Psbt, version: u32) -> Result<Vec<u8>, Memory>
    requires psbt { IsPsbt psbt.now }
    requires version { (version ≡ 0) ⊎ (version ≡ 2) }
    ensures { IfOk result (λ text. IsSpelled text.items version psbt.now) }
{
    let bytes = write_psbt(alloc, psbt, version)?;
    are_bytes(&bytes);
    let text = to_text(alloc, &bytes)?;
    Ok(text)
}

/// What is printed of the text of a PSBT, made whole from a book; or why it is refused.
fn completed_text(alloc: Global, book: &Known<'_>, text: &[u8]) -> Result<Vec<u8>, Stop>
    requires { HasTexts book.now }
    ensures made { IfOk result (λ printed. IsCompletedText book.now text.now printed.items) }
    ensures stop { IfErr result (StopsAtPsbt book.now text.now) }
{
    let read = spelled(alloc, text)?;
    let completed = complete_psbt(alloc, book, &read.psbt)?;
    let mut text = text_of(alloc, &completed, read.version)?;
    match text.push(b'\n') {
        Ok(()) => Ok(text),
        Err(_) => Err(Stop::Memory),
    }
}

/// The same of a PSBT as bytes.
fn completed_bytes(alloc: Global, book: &Known<'_>, bytes: &[u8]) -> Result<Vec<u8>, Stop>
    requires { HasTexts book.now }
    ensures made { IfOk result (λ printed. IsCompletedText book.now (encode_of standard bytes.now) printed.items) }
    ensures stop { IfErr result (StopsAtPsbt book.now (encode_of standard bytes.now)) }
{
    let text = to_text(alloc, bytes)?;
    completed_text(alloc, book, &text)
}

/// Whether a file begins as the bytes of a PSBT do (BIP 174, 'Specification').
fn has_bytes(file: &[u8]) -> bool
    ensures { result ≡ starts_with nat_eq file.now magic }
{
    file.starts_with(b"psbt\xff")
}

/// What is printed of a PSBT file, which has the PSBT in base64 or as bytes, made whole from a book; or why it is refused.
fn completed_file(alloc: Global, book: &Known<'_>, file: &[u8]) -> Result<Vec<u8>, Stop>
    requires { HasTexts book.now }
    ensures made { IfOk result (λ printed. IsCompletedFile book.now file.now printed.items) }
    ensures stop { IfErr result (StopsAtFile book.now file.now) }
{
    if has_bytes(file) {
        return completed_bytes(alloc, book, file);
    }
    completed_text(alloc, book, line_of(file))
}

/// The same from the book that is held.
pub fn made(alloc: Global, held: &Chain, file: &[u8]) -> Result<Vec<u8>, Stop>
    requires { IsChain held.now }
    ensures made { IfOk result (λ text. IsCompletedFile held.now.book file.now text.items) }
    ensures stop { IfErr result (StopsAtFile held.now.book file.now) }
{
    let book = held.book.known();
    completed_file(alloc, &book, file)
}

//! The transaction that the final scripts and witnesses of a PSBT make.

ghost use Rattle.std.specs.Prelude.{◌≡◌, ◌≢◌, ◌==◌, IfErr, IfOk, MatchResult, length};
ghost use Rattle.psbt_codec.specs.Psbt.{IsReadable};
ghost use Rattle.psbt_codec.specs.declared.fault.PsbtFault.TheVariants.{Memory as OutOfMemory};
ghost use Rattle.signed_psbt.specs.Signed.{IsSignedFault, IsSignedPsbt, IsSignedText, IsSignedTextFault};
ghost use Rattle.signed_psbt.specs.declared.fault.SignedFault.TheVariants.{Psbt as NoPsbt};
ghost use Rattle.tx_codec.specs.Reading.{are_empty};
ghost use Rattle.tx_codec.specs.Transaction.{Transaction};
ghost use Rattle.tx_codec.specs.TransactionText.{IsTransaction};

use crate::fault::SignedFault;
use crate::inputs::final_inputs;
use crate::maps::value_at;
use fund_base::{Cursor, are_bytes};
use psbt_codec::{Psbt, from_text, read_psbt};
use std::alloc::Global;
use tx_codec::{Tx, TxIn, Witness};

/// How many bytes stand before the first map.
const MAGIC: usize = 5;

/// The type of the version in the global map.
const VERSION: u8 = 0xFB;

#[tactic(auto, using(tx_codec::proofs::Stacks::lists_len))]
fn is_empty(witness: &Witness) -> bool
    ensures { result ≡ (length witness.now == 0) }
{
    witness.as_slice().is_empty()
}

/// Whether no input has a witness.
fn are_empty(inputs: &[TxIn]) -> bool
    ensures { result ≡ are_empty inputs.now }
{
    inputs.iter().all(|input| is_empty(&input.witness))
}

/// The transaction that the maps of these bytes, which are this PSBT, make.
fn signed_of(alloc: Global, psbt: Psbt, bytes: &[u8]) -> Result<Tx, SignedFault>
    requires { IsReadable bytes.now psbt }
    ensures found { IfOk result (λ tx. IsSignedPsbt bytes.now tx) }
    ensures only { (tx : Transaction) → IsSignedPsbt bytes.now tx → MatchResult result (λ t. t ≡ tx) (λ e. e ≡ NoPsbt OutOfMemory) }
    ensures text { IfOk result IsTransaction }
    ensures fault { IfErr result (λ e. e ≢ NoPsbt OutOfMemory → IsSignedFault bytes.now e) }
{
    let Psbt { tx, spent: _ } = psbt;
    let mut cursor = Cursor::new(&bytes[MAGIC..]);
    let _version = value_at(&mut cursor, VERSION);
    let inputs = final_inputs(alloc, &tx.inputs, &mut cursor)?;
    let segwit = !are_empty(&inputs);
    let Tx {
        version,
        inputs: _,
        outputs,
        locktime,
        segwit: _,
    } = tx;
    Ok(Tx {
        version,
        inputs,
        outputs,
        locktime,
        segwit,
    })
}

/// The transaction of the PSBT that the bytes are, all of them, in version 0 (BIP 174) or 2 (BIP 370), with the final script
/// and the final witness of each input. Whether they are valid isn't checked.
///
/// [`SignedFault::Psbt`]: they are no PSBT, for the fault of [`psbt_codec::read_psbt`], which may be out of memory. Otherwise
/// the first input that isn't as it must be: [`SignedFault::Unsigned`] where it has neither, and [`SignedFault::Witness`]
/// where its final witness isn't one.
pub fn read_signed(alloc: Global, bytes: &[u8]) -> Result<Tx, SignedFault>
    // What is read is the transaction that the bytes hold, and where they hold one it is read, memory aside.
    ensures found { IfOk result (λ tx. IsSignedPsbt bytes.now tx) }
    ensures only { (tx : Transaction) → IsSignedPsbt bytes.now tx → MatchResult result (λ t. t ≡ tx) (λ e. e ≡ NoPsbt OutOfMemory) }
    ensures text { IfOk result IsTransaction }

    // Otherwise the fault is the first.
    ensures fault { IfErr result (λ e. e ≢ NoPsbt OutOfMemory → IsSignedFault bytes.now e) }
{
    let psbt = read_psbt(alloc, bytes)?;
    signed_of(alloc, psbt, bytes)
}

/// The same of a PSBT as text, in base64 with the standard alphabet and padding (RFC 4648, section 4).
pub fn read_signed_text(alloc: Global, text: &[u8]) -> Result<Tx, SignedFault>
    ensures found { IfOk result (λ tx. IsSignedText text.now tx) }
    ensures only { (tx : Transaction) → IsSignedText text.now tx → MatchResult result (λ t. t ≡ tx) (λ e. e ≡ NoPsbt OutOfMemory) }
    ensures text { IfOk result IsTransaction }
    ensures fault { IfErr result (λ e. e ≢ NoPsbt OutOfMemory → IsSignedTextFault text.now e) }
{
    let bytes = from_text(alloc, text)?;
    are_bytes(&bytes);
    read_signed(alloc, &bytes)
}

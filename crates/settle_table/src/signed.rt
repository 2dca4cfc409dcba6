//! The signed transaction of a file, in any of its forms.

ghost use Rattle.std.specs.Prelude.{◌≡◌, IfErr, IfOk, MatchResult};
ghost use Rattle.command_settle.specs.declared.stop.Stop.TheVariants as stops;
ghost use Rattle.tx_codec.specs.Transaction.{Transaction};
ghost use Rattle.tx_codec.specs.TransactionText.{IsTransaction};
ghost use Rattle.settle_table.specs.Forms.{Holds, HoldsAs};
ghost use Rattle.settle_table.specs.Stops.{StopsAt, StopsAtForm};
ghost use Rattle.settle_table.specs.declared.stop.Stop.TheVariants.{Settle};

use crate::forms::{Form, form_of};
use crate::stop::{Stop, psbt_stop};
use command_settle::{line_of, signed_tx};
use signed_psbt::{read_signed, read_signed_text};
use std::alloc::Global;
use tx_codec::Tx;

/// The transaction of a file in hex.
fn from_hex(alloc: Global, file: &[u8]) -> Result<Tx, Stop>
    ensures signed { IfOk result (HoldsAs Form.Hex file.now) }
    ensures only { (t : Transaction) → HoldsAs Form.Hex file.now t → MatchResult result (λ u. u ≡ t) (λ stop. stop ≡ Settle stops.Memory) }
    ensures text { IfOk result IsTransaction }
    ensures stop { IfErr result (StopsAtForm Form.Hex file.now) }
{
    match signed_tx(alloc, file) {
        Ok(tx) => Ok(tx),
        Err(stop) => Err(Stop::Settle(stop)),
    }
}

/// The transaction of the PSBT that a file has in base64, with or without a line feed at the end.
fn from_base64(alloc: Global, file: &[u8]) -> Result<Tx, Stop>
    ensures signed { IfOk result (HoldsAs Form.Base64 file.now) }
    ensures only { (t : Transaction) → HoldsAs Form.Base64 file.now t → MatchResult result (λ u. u ≡ t) (λ stop. stop ≡ Settle stops.Memory) }
    ensures text { IfOk result IsTransaction }
    ensures stop { IfErr result (StopsAtForm Form.Base64 file.now) }
{
    match read_signed_text(alloc, line_of(file)) {
        Ok(tx) => Ok(tx),
        Err(fault) => Err(psbt_stop(fault)),
    }
}

/// The transaction of the PSBT that a file is.
fn from_binary(alloc: Global, file: &[u8]) -> Result<Tx, Stop>
    ensures signed { IfOk result (HoldsAs Form.Binary file.now) }
    ensures only { (t : Transaction) → HoldsAs Form.Binary file.now t → MatchResult result (λ u. u ≡ t) (λ stop. stop ≡ Settle stops.Memory) }
    ensures text { IfOk result IsTransaction }
    ensures stop { IfErr result (StopsAtForm Form.Binary file.now) }
{
    match read_signed(alloc, file) {
        Ok(tx) => Ok(tx),
        Err(fault) => Err(psbt_stop(fault)),
    }
}

/// The signed transaction that a file holds: in hex, or as a PSBT whose inputs are all final, in base64 or as bytes.
pub(crate) fn signed_in(alloc: Global, file: &[u8]) -> Result<Tx, Stop>
    ensures signed { IfOk result (Holds file.now) }
    ensures only { (t : Transaction) → Holds file.now t → MatchResult result (λ u. u ≡ t) (λ stop. stop ≡ Settle stops.Memory) }
    ensures text { IfOk result IsTransaction }
    ensures stop { IfErr result (StopsAt file.now) }
{
    match form_of(file) {
        Form::Hex => from_hex(alloc, file),
        Form::Base64 => from_base64(alloc, file),
        Form::Binary => from_binary(alloc, file),
    }
}

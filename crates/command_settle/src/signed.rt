//! The signed transaction of a file.

ghost use Rattle.std.specs.Prelude.{◌≡◌, ◌≢◌, Err, IfErr, IfOk, Ok};
ghost use Rattle.tx_codec.specs.TransactionText.{IsTransaction};
ghost use Rattle.command_settle.specs.Files.{by_hex, line_of, signed_of};
ghost use Rattle.command_settle.specs.Stops.{StopsAs};
ghost use Rattle.command_settle.specs.declared.stop.Stop.TheVariants as stops;

use crate::stop::{Refusal, Stop};
use hex::FromHexError;
use std::alloc::Global;
use tx_codec::{Tx, TxFault, read_whole_tx};

/// The bytes of a file without the line feed at their end, where one stands there.
pub fn line_of(file: &[u8]) -> &[u8]
    ensures { result.now ≡ line_of file.now }
{
    if file.is_empty() {
        return file;
    }
    let last = file.len() - 1;
    if file[last] == b'\n' {
        &file[..last]
    } else {
        file
    }
}

/// Why the command stops at text that wasn't read as hex.
fn hex_stop(error: FromHexError) -> Stop
    ensures memory { error ≡ FromHexError.OutOfMemory → result ≡ stops.Memory }
    ensures other { error ≢ FromHexError.OutOfMemory → result ≡ stops.Refused Refusal.NotHex }
{
    match error {
        FromHexError::OutOfMemory => Stop::Memory,
        _ => Stop::Refused(Refusal::NotHex),
    }
}

/// Why the command stops at bytes that weren't read as a transaction.
fn tx_stop(fault: TxFault) -> Stop
    ensures memory { fault ≡ TxFault.Memory → result ≡ stops.Memory }
    ensures other { fault ≢ TxFault.Memory → result ≡ stops.Refused (Refusal.NotTx fault) }
{
    match fault {
        TxFault::Memory => Stop::Memory,
        _ => Stop::Refused(Refusal::NotTx(fault)),
    }
}

/// The transaction that the bytes are.
fn tx_of(alloc: Global, bytes: &[u8]) -> Result<Tx, Stop>
    ensures signed { IfOk result (λ t. by_hex (Ok bytes.now) ≡ Ok t) }
    ensures text { IfOk result IsTransaction }
    ensures stop { IfErr result (StopsAs (λ cause. by_hex (Ok bytes.now) ≡ Err cause)) }
{
    match read_whole_tx(alloc, bytes) {
        Ok(tx) => Ok(tx),
        Err(fault) => Err(tx_stop(fault)),
    }
}

/// The signed transaction that a file holds in hex, with or without a line feed at the end (BIP 144).
pub fn signed_tx(alloc: Global, file: &[u8]) -> Result<Tx, Stop>
    ensures signed { IfOk result (λ t. signed_of file.now ≡ Ok t) }
    ensures text { IfOk result IsTransaction }
    ensures stop { IfErr result (StopsAs (λ cause. signed_of file.now ≡ Err cause)) }
{
    match hex::decode(alloc, line_of(file)) {
        Ok(bytes) => tx_of(alloc, &bytes),
        Err(error) => Err(hex_stop(error)),
    }
}

//! Writing the new files.

ghost use Rattle.std.specs.Prelude.{OnOk, IsErrOf, IfErr, option_map, string_bytes};
ghost use Rattle.request_making.specs.Written.{request_bytes};
ghost use Rattle.payment_files.specs.Files.{HasAll, HasOwnNames, PutStops, StopsAt, contents, name_for};
ghost use Rattle.payment_files.specs.Written.{HasFileIf, IsStill, IsUnwritten};

use crate::file::{NewFile, PutFault};
use fund_base::Memory;
use fund_shelf::{Fault, Shelf};
use pay_words::Asked;
use std::alloc::Global;

/// Writes a file of these bytes where one is asked for. A failure leaves each other file as it was; and where memory is short, nothing is
/// written.
pub fn put_if<N: Shelf>(new_files: &mut N, name: &Option<String>, bytes: &[u8]) -> Result<(), Fault>
    ensures ok { OnOk result (HasFileIf N.tells (option_map string_bytes name.now) bytes.now (N.view new_files.old) (N.view new_files.new)) }
    ensures failed { IsErrOf result Fault.Failed → IsUnwritten N.tells (option_map string_bytes name.now) (N.view new_files.old) (N.view new_files.new) }
    ensures memory { IsErrOf result Fault.Memory → IsStill N.tells (N.view new_files.old) (N.view new_files.new) }
{
    match name {
        None => Ok(()),
        Some(name) => new_files.write_file(name.as_str(), bytes),
    }
}

/// Writes this new file of a payment where it is asked for, by its name.
fn put_new<N: Shelf>(
    new_files: &mut N,
    file: NewFile,
    name: &Option<String>,
    bytes: &[u8],
) -> Result<(), PutFault>
    ensures ok { OnOk result (HasFileIf N.tells (option_map string_bytes name.now) bytes.now (N.view new_files.old) (N.view new_files.new)) }
    ensures stop { IfErr result (StopsAt N.tells file (option_map string_bytes name.now) (N.view new_files.old) (N.view new_files.new)) }
{
    match put_if(new_files, name, bytes) {
        Ok(()) => Ok(()),
        Err(Fault::Failed) => Err(PutFault::Unwritten(file)),
        Err(Fault::Memory) => Err(PutFault::Memory),
    }
}

/// Writes the file of the request where it is asked for.
fn put_request<N: Shelf>(alloc: Global, asked: &Asked, new_files: &mut N) -> Result<(), PutFault>
    ensures ok { OnOk result (HasFileIf N.tells (name_for asked.now NewFile.Request) (request_bytes asked.now.payments.items asked.now.coins.items asked.now.settings) (N.view new_files.old) (N.view new_files.new)) }
    ensures stop { IfErr result (StopsAt N.tells NewFile.Request (name_for asked.now NewFile.Request) (N.view new_files.old) (N.view new_files.new)) }
{
    if asked.names.request.is_none() {
        return Ok(());
    }
    match asked.request(alloc) {
        Ok(text) => put_new(
            new_files,
            NewFile::Request,
            &asked.names.request,
            text.as_bytes(),
        ),
        Err(Memory) => Err(PutFault::Memory),
    }
}

/// Writes the new files of a payment with this log, this report and this PSBT, each where it is asked for. The first is the request of what
/// is asked; then come the log, the report and the PSBT. No two of them have one name. Those before one that isn't written stay
/// written, and those behind it are not.
pub fn put_files<N: Shelf>(
    alloc: Global,
    asked: &Asked,
    log: &[u8],
    report: &[u8],
    psbt: &[u8],
    new_files: &mut N,
) -> Result<(), PutFault>
    requires { HasOwnNames asked.now }
    ensures ok { OnOk result (HasAll N.tells asked.now (contents asked.now log.now report.now psbt.now) (N.view new_files.old) (N.view new_files.new)) }
    ensures stop { IfErr result (PutStops N.tells asked.now (contents asked.now log.now report.now psbt.now) (N.view new_files.old) (N.view new_files.new)) }
{
    put_request(alloc, asked, new_files)?;
    put_new(new_files, NewFile::Log, &asked.names.log, log)?;
    put_new(new_files, NewFile::Report, &asked.names.report, report)?;
    put_new(new_files, NewFile::Psbt, &asked.names.psbt, psbt)
}

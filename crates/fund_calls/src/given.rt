//! What is given to a call.

ghost use Rattle.std.specs.Prelude.{◌≡◌, IfOk, string_bytes};
ghost use Rattle.fund_shelf.specs.SureShelf.{view_of};
ghost use Rattle.fund_calls.specs.Given.{plain_given, shelf_of};

use fund_base::Memory;
use fund_shelf::SureShelf;
use std::alloc::Global;

/// The bytes of the files of a command. One that the command doesn't read may be empty.
#[derive(Clone, Copy)]
pub struct Given<'a> {
    /// The wallet file.
    pub wallet: &'a [u8],
    /// The block file.
    pub blocks: &'a [u8],
    /// The request file.
    pub request: &'a [u8],
    /// The report that is checked or settled.
    pub report: &'a [u8],
    /// The log that is checked with it.
    pub log: &'a [u8],
    /// The signed transaction that is settled, in hex.
    pub tx: &'a [u8],
}

/// A file of this name.
fn file_of(alloc: Global, name: &str, bytes: &[u8]) -> Result<(String, Vec<u8>), Memory>
    ensures name { IfOk result (λ file. string_bytes file.0 ≡ name.now) }
    ensures bytes { IfOk result (λ file. file.1.items ≡ bytes.now) }
{
    let name = String::from_str(alloc, name)?;
    let bytes = Vec::from_slice(alloc, bytes)?;
    Ok((name, bytes))
}

/// A shelf of these files.
pub(crate) fn shelf_of(alloc: Global, given: &Given) -> Result<SureShelf, Memory>
    ensures { IfOk result (λ shelf. view_of shelf ≡ shelf_of (plain_given given.now)) }
{
    let wallet = file_of(alloc, "wallet", given.wallet)?;
    let blocks = file_of(alloc, "blocks", given.blocks)?;
    let request = file_of(alloc, "request", given.request)?;
    let report = file_of(alloc, "report", given.report)?;
    let log = file_of(alloc, "checked", given.log)?;
    let tx = file_of(alloc, "tx", given.tx)?;
    let files = vec![in alloc; wallet, blocks, request, report, log, tx]?;
    Ok(SureShelf::new(alloc, files))
}

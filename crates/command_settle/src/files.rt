//! The files, read one by one.

ghost use Rattle.std.specs.Prelude.{◌≡◌, ◌≢◌, [], ◌∷◌, Err, IfErr, IfOk};
ghost use Rattle.fund_shelf.specs.Causes.{Asks, OnlyReads};
ghost use Rattle.fund_files.specs.Contents.{HasRequest, HasWallet};
ghost use Rattle.wallet_text.specs.WalletRules.{IsWallet};
ghost use Rattle.command_settle.specs.Asked.{AsksFiles};
ghost use Rattle.command_settle.specs.Files.{AreFiles, IsReport, IsTx};
ghost use Rattle.command_settle.specs.Names.{plain_names};
ghost use Rattle.command_settle.specs.Stops.{IsFileStop, StopsAtReport, StopsAtRequest, StopsAtTx, StopsAtWallet, StopsFor, file_stop_of};

use crate::names::SettleNames;
use crate::stop::{Refusal, SettleFile, Stop};
use fund_files::{Stop as FileStop, read_asked, wallet_from};
use fund_shelf::{ReadError, Shelf, read_whole};
use request_text::Request;
use std::alloc::Global;
use wallet_text::Wallet;

/// The greatest length of a report, in bytes.
const REPORT_LIMIT: usize = 67_108_864;

/// The greatest length of the file of a transaction, in bytes.
const TX_LIMIT: usize = 1_048_576;

/// What the files hold: the report and the transaction as bytes.
#[derive(Drop)]
pub struct Files {
    /// The wallet.
    pub wallet: Wallet,
    /// The request.
    pub request: Request,
    /// The bytes of the report.
    pub report: Vec<u8>,
    /// The bytes of the file of the transaction.
    pub tx: Vec<u8>,
}

/// Why the command stops at the wallet or at the request.
fn file_stop(file: SettleFile, stop: FileStop) -> Stop
    ensures { result ≡ file_stop_of file stop }
{
    match stop {
        FileStop::Read(_) => Stop::Read(file),
        FileStop::Refused(refusal) => Stop::Refused(Refusal::File(refusal)),
        FileStop::Memory => Stop::Memory,
    }
}

/// The wallet of the file of this name.
fn read_wallet<H: Shelf>(alloc: Global, name: &str, shelf: &mut H) -> Result<Wallet, Stop>
    ensures wallet { H.tells → IfOk result (HasWallet ((H.view shelf.old).files name.now)) }
    ensures rules { IfOk result IsWallet }
    ensures frame { OnlyReads H.tells (H.view shelf.old) (H.view shelf.new) }
    ensures stop { IfErr result (StopsAtWallet H.tells name.now (H.view shelf.old) (H.view shelf.new)) }
    ensures asked { H.tells → Asks (name.now ∷ []) (H.view shelf.old).asked (H.view shelf.new).asked }
    ensures all_read { result ≢ Err (Stop.Read SettleFile.Wallet) → (H.view shelf.new).reads ≡ (H.view shelf.old).reads }
{
    match wallet_from(alloc, shelf, name) {
        Ok(wallet) => Ok(wallet),
        Err(stop) => Err(file_stop(SettleFile::Wallet, stop)),
    }
}

/// The request of the file of this name.
fn read_request<H: Shelf>(alloc: Global, name: &str, shelf: &mut H) -> Result<Request, Stop>
    ensures request { H.tells → IfOk result (HasRequest ((H.view shelf.old).files name.now)) }
    ensures frame { OnlyReads H.tells (H.view shelf.old) (H.view shelf.new) }
    ensures stop { IfErr result (StopsAtRequest H.tells name.now (H.view shelf.old) (H.view shelf.new)) }
    ensures asked { H.tells → Asks (name.now ∷ []) (H.view shelf.old).asked (H.view shelf.new).asked }
    ensures all_read { result ≢ Err (Stop.Read SettleFile.Request) → (H.view shelf.new).reads ≡ (H.view shelf.old).reads }
{
    match read_asked(alloc, name, shelf) {
        Ok(request) => Ok(request),
        Err(stop) => Err(file_stop(SettleFile::Request, stop)),
    }
}

/// The bytes of the report, which has this name and at most 67,108,864 bytes.
fn read_report_file<H: Shelf>(alloc: Global, name: &str, shelf: &mut H) -> Result<Vec<u8>, Stop>
    ensures bytes { H.tells → IfOk result (λ bytes. IsReport ((H.view shelf.old).files name.now) bytes.items) }
    ensures frame { OnlyReads H.tells (H.view shelf.old) (H.view shelf.new) }
    ensures stop { IfErr result (StopsAtReport H.tells name.now (H.view shelf.old) (H.view shelf.new)) }
    ensures asked { H.tells → Asks (name.now ∷ []) (H.view shelf.old).asked (H.view shelf.new).asked }
    ensures all_read { result ≢ Err (Stop.Read SettleFile.Report) → (H.view shelf.new).reads ≡ (H.view shelf.old).reads }
{
    match read_whole(alloc, shelf, name, REPORT_LIMIT) {
        Ok(bytes) => Ok(bytes),
        Err(ReadError::Failed) => Err(Stop::Read(SettleFile::Report)),
        Err(ReadError::TooLong) => Err(Stop::Refused(Refusal::LongReport)),
        Err(ReadError::Memory) => Err(Stop::Memory),
    }
}

/// The bytes of the file of the transaction, which has this name and at most 1,048,576 bytes.
fn read_tx_file<H: Shelf>(alloc: Global, name: &str, shelf: &mut H) -> Result<Vec<u8>, Stop>
    ensures bytes { H.tells → IfOk result (λ bytes. IsTx ((H.view shelf.old).files name.now) bytes.items) }
    ensures frame { OnlyReads H.tells (H.view shelf.old) (H.view shelf.new) }
    ensures stop { IfErr result (StopsAtTx H.tells name.now (H.view shelf.old) (H.view shelf.new)) }
    ensures asked { H.tells → Asks (name.now ∷ []) (H.view shelf.old).asked (H.view shelf.new).asked }
    ensures all_read { result ≢ Err (Stop.Read SettleFile.Tx) → (H.view shelf.new).reads ≡ (H.view shelf.old).reads }
{
    match read_whole(alloc, shelf, name, TX_LIMIT) {
        Ok(bytes) => Ok(bytes),
        Err(ReadError::Failed) => Err(Stop::Read(SettleFile::Tx)),
        Err(ReadError::TooLong) => Err(Stop::Refused(Refusal::LongTx)),
        Err(ReadError::Memory) => Err(Stop::Memory),
    }
}

/// The files: the wallet, then the request, the report and the transaction. Behind one that isn't read or is refused none is
/// read; the contents of the last two aren't looked at.
pub fn read_files<H: Shelf>(
    alloc: Global,
    names: &SettleNames,
    shelf: &mut H,
) -> Result<Files, Stop>
    ensures rules { IfOk result (λ x. IsWallet x.wallet) }
    ensures files { H.tells → IfOk result (λ x. AreFiles (H.view shelf.old).files (plain_names names.now) x.wallet x.request x.report.items x.tx.items) }
    ensures frame { OnlyReads H.tells (H.view shelf.old) (H.view shelf.new) }
    ensures stop { IfErr result (StopsFor H.tells (plain_names names.now) (H.view shelf.old) (H.view shelf.new)) }
    ensures form_unseen { H.tells → IfErr result IsFileStop }
    ensures asks { H.tells → AsksFiles (plain_names names.now) (H.view shelf.old) (H.view shelf.new) }
    ensures all_read { ((file : SettleFile) → result ≢ Err (Stop.Read file)) → (H.view shelf.new).reads ≡ (H.view shelf.old).reads }
{
    let wallet = read_wallet(alloc, names.wallet, shelf)?;
    let request = read_request(alloc, names.request, shelf)?;
    let report = read_report_file(alloc, names.report, shelf)?;
    let tx = read_tx_file(alloc, names.tx, shelf)?;
    Ok(Files {
        wallet,
        request,
        report,
        tx,
    })
}

//! The wallet file, the block file and the request file, read one by one.

ghost use Rattle.std.specs.Prelude.{◌≡◌, ◌≢◌, ◌≤◌, ◌<◌, [], ◌∷◌, true, length, Ok, Err, IfOk, IfErr, OnOk};
ghost use Rattle.fund_shelf.specs.Causes.{Asks, OnlyReads, Rose};
ghost use Rattle.request_text.specs.RequestText.{request_of};
ghost use Rattle.wallet_text.specs.WalletRules.{IsWallet};
ghost use Rattle.wallet_text.specs.WalletText.{wallet_of};
ghost use Rattle.fund_files.specs.Joined.{IsChainOf};
ghost use Rattle.fund_files.specs.Cause.{FileCause, TooLong};
ghost use Rattle.fund_files.specs.Contents.{HasRequest};
ghost use Rattle.fund_files.specs.FileStops.{IsAskedFault, IsWalletCause, StopsAsked, StopsAt, StopsChain, is_of_wallet, read_stop_of};

use crate::blocks::whole_book_from;
use crate::chain::Chain;
use crate::refusal::{File, FileRefusal};
use crate::stop::Stop;
use crate::wallet_book::wallet_book_from;
use crate::whole_chain::WholeChain;
use fund_shelf::{ReadError, Shelf, read_whole};
use request_text::{Request, RequestFault, read_request};
use std::alloc::Global;
use wallet_text::{Wallet, WalletFault, read_wallet};

/// The greatest length of a wallet file, in bytes.
pub const WALLET_LIMIT: usize = 16_777_216;

/// The greatest length of a request file, in bytes.
pub const REQUEST_LIMIT: usize = 1_048_576;

/// Why the reading stops at a file that wasn't read whole.
fn read_stop(file: File, error: ReadError) -> Stop
    ensures stop { result ≡ read_stop_of file error }
    ensures memory { result ≡ Stop.Memory → error ≡ ReadError.Memory }
{
    match error {
        ReadError::Failed => Stop::Read(file),
        ReadError::TooLong => Stop::Refused(FileRefusal::TooLong(file)),
        ReadError::Memory => Stop::Memory,
    }
}

/// The bytes of a file, which has this name and at most `limit` bytes; a longer one is refused.
pub fn read_input<H: Shelf>(
    alloc: Global,
    shelf: &mut H,
    file: File,
    name: &str,
    limit: usize,
) -> Result<Vec<u8>, Stop>
    requires { limit ≤ 1073741824 }
    ensures bytes { H.tells → IfOk result (λ bytes. bytes.items ≡ (H.view shelf.old).files name.now) }
    ensures fits { H.tells → OnOk result (length ((H.view shelf.old).files name.now) ≤ limit) }
    ensures frame { OnlyReads H.tells (H.view shelf.old) (H.view shelf.new) }
    ensures stop { IfErr result (StopsAt file (Rose ((H.view shelf.old).reads name.now) ((H.view shelf.new).reads name.now)) (λ cause. (cause ≡ TooLong file) × (H.tells → limit < length ((H.view shelf.old).files name.now)))) }
    ensures unfailed { result ≢ Err (Stop.Read file) → (H.view shelf.new).reads ≡ (H.view shelf.old).reads }
    ensures asked { H.tells → Asks (name.now ∷ []) (H.view shelf.old).asked (H.view shelf.new).asked }
{
    match read_whole(alloc, shelf, name, limit) {
        Ok(bytes) => Ok(bytes),
        Err(error) => Err(read_stop(file, error)),
    }
}

/// Why the reading stops at a wallet file with this fault.
pub fn wallet_stop(fault: WalletFault) -> Stop
    ensures refused { result ≢ Stop.Memory → (fault ≢ WalletFault.Memory) × (result ≡ Stop.Refused (FileRefusal.BadWallet fault)) }
    ensures memory { result ≡ Stop.Memory → fault ≡ WalletFault.Memory }
{
    match fault {
        WalletFault::Memory => Stop::Memory,
        fault => Stop::Refused(FileRefusal::BadWallet(fault)),
    }
}

/// The wallet of the file `name`, alone. It is refused for its length before its form; no file is written, and no other is asked for.
pub fn wallet_from<H: Shelf>(alloc: Global, shelf: &mut H, name: &str) -> Result<Wallet, Stop>
    ensures form { H.tells → IfOk result (λ w. wallet_of ((H.view shelf.old).files name.now) ≡ Ok w) }
    ensures rules { IfOk result IsWallet }
    ensures fits { H.tells → OnOk result (length ((H.view shelf.old).files name.now) ≤ WALLET_LIMIT) }
    ensures frame { OnlyReads H.tells (H.view shelf.old) (H.view shelf.new) }
    ensures stop { IfErr result (StopsAt File.Wallet (Rose ((H.view shelf.old).reads name.now) ((H.view shelf.new).reads name.now)) (λ cause. H.tells → IsWalletCause ((H.view shelf.old).files name.now) cause)) }
    ensures unfailed { result ≢ Err (Stop.Read File.Wallet) → (H.view shelf.new).reads ≡ (H.view shelf.old).reads }
    ensures asked { H.tells → Asks (name.now ∷ []) (H.view shelf.old).asked (H.view shelf.new).asked }
{
    let bytes = read_input(alloc, shelf, File::Wallet, name, WALLET_LIMIT)?;
    match read_wallet(alloc, &bytes) {
        Ok(wallet) => Ok(wallet),
        Err(fault) => Err(wallet_stop(fault)),
    }
}

/// The wallet of the file `wallet`, which is read first, and the book of it and of the blocks of the file `blocks`, which
/// stand behind the wallet's; and where that chain ends. A file that is refused leaves the next unread. A file is refused
/// for its length before its form, and for its form before the coins of both files are; none is written.
///
/// The block file is read twice, so that no more memory is needed than the wallet takes: once to find the coins, and once to
/// find what spends them. If it changes in between, so that a coin was missed, it is read a third time.
pub fn read_chain<H: Shelf>(
    alloc: Global,
    wallet: &str,
    blocks: &str,
    shelf: &mut H,
) -> Result<Chain, Stop>
    ensures held { IfOk result (λ k. IsChainOf H.tells ((H.view shelf.old).files wallet.now) ((H.view shelf.old).files blocks.now) k) }
    ensures frame { OnlyReads H.tells (H.view shelf.old) (H.view shelf.new) }
    ensures stop { IfErr result (StopsChain H.tells wallet.now blocks.now (H.view shelf.old) (H.view shelf.new)) }

    // A count of failed reads rises only where one of the two files wasn't read.
    ensures unfailed { result ≢ Err (Stop.Read File.Wallet) → result ≢ Err (Stop.Read File.Blocks) → (H.view shelf.new).reads ≡ (H.view shelf.old).reads }

    // It asks for the wallet file, and then for the block file. Where the wallet file isn't read or is refused, it asks
    // for no other.
    ensures asked { H.tells → Asks (wallet.now ∷ blocks.now ∷ []) (H.view shelf.old).asked (H.view shelf.new).asked }
    ensures wallet_alone { H.tells → IfErr result (λ stop. is_of_wallet stop ≡ true → Asks (wallet.now ∷ []) (H.view shelf.old).asked (H.view shelf.new).asked) }
    ensures refused_alone { H.tells → (cause : FileCause) → IsWalletCause ((H.view shelf.old).files wallet.now) cause → Asks (wallet.now ∷ []) (H.view shelf.old).asked (H.view shelf.new).asked }
{
    let wallet = wallet_from(alloc, shelf, wallet)?;
    let read = wallet_book_from(alloc, shelf, blocks, &wallet, false)?;
    Ok(Chain {
        wallet,
        book: read.book,
        tip: read.tip,
    })
}

/// What [`read_chain`] reads, with a book that keeps all that the chain spends. The block file is read once.
pub fn read_whole_chain<H: Shelf>(
    alloc: Global,
    wallet: &str,
    blocks: &str,
    shelf: &mut H,
) -> Result<WholeChain, Stop>
    ensures held { IfOk result (λ k. IsChainOf H.tells ((H.view shelf.old).files wallet.now) ((H.view shelf.old).files blocks.now) k) }
    ensures frame { OnlyReads H.tells (H.view shelf.old) (H.view shelf.new) }
    ensures stop { IfErr result (StopsChain H.tells wallet.now blocks.now (H.view shelf.old) (H.view shelf.new)) }

    // A count of failed reads rises only where one of the two files wasn't read.
    ensures unfailed { result ≢ Err (Stop.Read File.Wallet) → result ≢ Err (Stop.Read File.Blocks) → (H.view shelf.new).reads ≡ (H.view shelf.old).reads }

    // It asks for the wallet file, and then for the block file. Where the wallet file isn't read or is refused, it asks
    // for no other.
    ensures asked { H.tells → Asks (wallet.now ∷ blocks.now ∷ []) (H.view shelf.old).asked (H.view shelf.new).asked }
    ensures wallet_alone { H.tells → IfErr result (λ stop. is_of_wallet stop ≡ true → Asks (wallet.now ∷ []) (H.view shelf.old).asked (H.view shelf.new).asked) }
    ensures refused_alone { H.tells → (cause : FileCause) → IsWalletCause ((H.view shelf.old).files wallet.now) cause → Asks (wallet.now ∷ []) (H.view shelf.old).asked (H.view shelf.new).asked }
{
    let wallet = wallet_from(alloc, shelf, wallet)?;
    let (book, tip) = whole_book_from(alloc, shelf, blocks, &wallet)?;
    Ok(WholeChain { wallet, book, tip })
}

/// Why the reading stops at a request file with this fault.
pub fn request_stop(fault: RequestFault) -> Stop
    ensures refused { result ≢ Stop.Memory → (fault ≢ RequestFault.Memory) × (result ≡ Stop.Refused (FileRefusal.BadRequest fault)) }
    ensures memory { result ≡ Stop.Memory → fault ≡ RequestFault.Memory }
{
    match fault {
        RequestFault::Memory => Stop::Memory,
        fault => Stop::Refused(FileRefusal::BadRequest(fault)),
    }
}

/// The request.
fn request_from<H: Shelf>(alloc: Global, shelf: &mut H, name: &str) -> Result<Request, Stop>
    ensures form { H.tells → IfOk result (λ r. request_of ((H.view shelf.old).files name.now) ≡ Ok r) }
    ensures fits { H.tells → OnOk result (length ((H.view shelf.old).files name.now) ≤ REQUEST_LIMIT) }
    ensures frame { OnlyReads H.tells (H.view shelf.old) (H.view shelf.new) }
    ensures stop { IfErr result (StopsAt File.Request (Rose ((H.view shelf.old).reads name.now) ((H.view shelf.new).reads name.now)) (λ cause. H.tells → IsAskedFault ((H.view shelf.old).files name.now) cause)) }
    ensures unfailed { result ≢ Err (Stop.Read File.Request) → (H.view shelf.new).reads ≡ (H.view shelf.old).reads }
    ensures asked { H.tells → Asks (name.now ∷ []) (H.view shelf.old).asked (H.view shelf.new).asked }
{
    let bytes = read_input(alloc, shelf, File::Request, name, REQUEST_LIMIT)?;
    match read_request(alloc, &bytes) {
        Ok(request) => Ok(request),
        Err(fault) => Err(request_stop(fault)),
    }
}

/// The request of the file `name`. It is refused for its length before its form; no file is written.
pub fn read_asked<H: Shelf>(alloc: Global, name: &str, shelf: &mut H) -> Result<Request, Stop>
    ensures asked { H.tells → IfOk result (HasRequest ((H.view shelf.old).files name.now)) }
    ensures frame { OnlyReads H.tells (H.view shelf.old) (H.view shelf.new) }
    ensures stop { IfErr result (StopsAsked H.tells name.now (H.view shelf.old) (H.view shelf.new)) }

    // A count of failed reads rises only where the file wasn't read, and it alone is asked for.
    ensures unfailed { result ≢ Err (Stop.Read File.Request) → (H.view shelf.new).reads ≡ (H.view shelf.old).reads }
    ensures asked_for { H.tells → Asks (name.now ∷ []) (H.view shelf.old).asked (H.view shelf.new).asked }
{
    request_from(alloc, shelf, name)
}

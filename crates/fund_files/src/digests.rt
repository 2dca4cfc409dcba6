//! The same files, with the SHA-256 of the bytes that were read of each.

ghost use Rattle.std.specs.Prelude.{◌≡◌, ◌≢◌, ◌≤◌, [], ◌∷◌, true, length, Ok, Err, IfOk, IfErr, OnOk};
ghost use Rattle.fund_shelf.specs.Causes.{Asks, OnlyReads, Rose};
ghost use Rattle.request_text.specs.RequestText.{request_of};
ghost use Rattle.sha2.specs.Sha256.{sha256};
ghost use Rattle.wallet_text.specs.WalletRules.{IsWallet};
ghost use Rattle.wallet_text.specs.WalletText.{wallet_of};
ghost use Rattle.fund_files.specs.Joined.{IsChainOf};
ghost use Rattle.fund_files.specs.Cause.{FileCause};
ghost use Rattle.fund_files.specs.Contents.{HasRequest};
ghost use Rattle.fund_files.specs.Digests.{AreDigests};
ghost use Rattle.fund_files.specs.FileStops.{IsAskedFault, IsWalletCause, StopsAsked, StopsAt, StopsChain, is_of_wallet};

use crate::chain::Chain;
use crate::files::{REQUEST_LIMIT, WALLET_LIMIT, read_input, request_stop, wallet_stop};
use crate::refusal::File;
use crate::stop::Stop;
use crate::wallet_book::wallet_book_from;
use fund_shelf::Shelf;
use request_text::{Request, read_request};
use sha2::{Digest, Sha256};
use std::alloc::Global;
use wallet_text::{Wallet, read_wallet};

/// The SHA-256 of a wallet file and of a block file.
#[derive(Clone, Copy)]
pub struct ChainDigests {
    /// That of the wallet file.
    pub wallet: [u8; 32],
    /// That of the block file.
    pub blocks: [u8; 32],
}

/// The SHA-256 of these bytes.
fn digest_of(bytes: &[u8]) -> [u8; 32]
    ensures { result ≡ sha256 bytes.now }
{
    Sha256::digest(bytes)
}

/// The wallet, and the digest of its file.
fn wallet_with_digest<H: Shelf>(
    alloc: Global,
    shelf: &mut H,
    name: &str,
) -> Result<(Wallet, [u8; 32]), Stop>
    ensures form { H.tells → IfOk result (λ r. wallet_of ((H.view shelf.old).files name.now) ≡ Ok r.0) }
    ensures digest { H.tells → IfOk result (λ r. r.1 ≡ sha256 ((H.view shelf.old).files name.now)) }
    ensures rules { IfOk result (λ r. IsWallet r.0) }
    ensures fits { H.tells → OnOk result (length ((H.view shelf.old).files name.now) ≤ WALLET_LIMIT) }
    ensures frame { OnlyReads H.tells (H.view shelf.old) (H.view shelf.new) }
    ensures stop { IfErr result (StopsAt File.Wallet (Rose ((H.view shelf.old).reads name.now) ((H.view shelf.new).reads name.now)) (λ cause. H.tells → IsWalletCause ((H.view shelf.old).files name.now) cause)) }
    ensures unfailed { result ≢ Err (Stop.Read File.Wallet) → (H.view shelf.new).reads ≡ (H.view shelf.old).reads }
    ensures asked { H.tells → Asks (name.now ∷ []) (H.view shelf.old).asked (H.view shelf.new).asked }
{
    let bytes = read_input(alloc, shelf, File::Wallet, name, WALLET_LIMIT)?;
    match read_wallet(alloc, &bytes) {
        Ok(wallet) => {
            let digest = digest_of(&bytes);
            Ok((wallet, digest))
        }
        Err(fault) => Err(wallet_stop(fault)),
    }
}

/// What [`read_chain`](crate::read_chain) reads, and the SHA-256 of both files, from the bytes that it was read from.
pub fn read_chain_with_digests<H: Shelf>(
    alloc: Global,
    wallet: &str,
    blocks: &str,
    shelf: &mut H,
) -> Result<(Chain, ChainDigests), Stop>
    ensures held { IfOk result (λ r. IsChainOf H.tells ((H.view shelf.old).files wallet.now) ((H.view shelf.old).files blocks.now) r.0) }
    ensures digests { H.tells → IfOk result (λ r. AreDigests ((H.view shelf.old).files wallet.now) ((H.view shelf.old).files blocks.now) r.1) }
    ensures frame { OnlyReads H.tells (H.view shelf.old) (H.view shelf.new) }
    ensures stop { IfErr result (StopsChain H.tells wallet.now blocks.now (H.view shelf.old) (H.view shelf.new)) }

    // A count of failed reads rises only where one of the two files wasn't read.
    ensures unfailed { result ≢ Err (Stop.Read File.Wallet) → result ≢ Err (Stop.Read File.Blocks) → (H.view shelf.new).reads ≡ (H.view shelf.old).reads }

    // It asks for the wallet file, and then for the block file. Where the wallet file isn't read or is refused, it asks
    // for no other.
    ensures asked { H.tells → Asks (wallet.now ∷ blocks.now ∷ []) (H.view shelf.old).asked (H.view shelf.new).asked }
    ensures wallet_alone { H.tells → IfErr result (λ stop. is_of_wallet stop ≡ true → Asks (wallet.now ∷ []) (H.view shelf.old).asked (H.view shelf.new).asked) }
    ensures refused_alone { H.tells → (cause : FileCause) → IsWalletCause ((H.view shelf.old).files wallet.now) cause → Asks (wallet.now ∷ []) (H.view shelf.old).asked (H.view shelf.new).asked }
{
    let (wallet, wallet_digest) = wallet_with_digest(alloc, shelf, wallet)?;
    let read = wallet_book_from(alloc, shelf, blocks, &wallet, true)?;
    match read.digest {
        Some(blocks_digest) => {
            let digests = ChainDigests {
                wallet: wallet_digest,
                blocks: blocks_digest,
            };
            let (book, tip) = (read.book, read.tip);
            Ok((Chain { wallet, book, tip }, digests))
        }
        // the digest was asked for
        None => Err(Stop::Memory),
    }
}

/// The request, and the digest of its file.
fn request_with_digest<H: Shelf>(
    alloc: Global,
    shelf: &mut H,
    name: &str,
) -> Result<(Request, [u8; 32]), Stop>
    ensures form { H.tells → IfOk result (λ r. request_of ((H.view shelf.old).files name.now) ≡ Ok r.0) }
    ensures digest { H.tells → IfOk result (λ r. r.1 ≡ sha256 ((H.view shelf.old).files name.now)) }
    ensures fits { H.tells → OnOk result (length ((H.view shelf.old).files name.now) ≤ REQUEST_LIMIT) }
    ensures frame { OnlyReads H.tells (H.view shelf.old) (H.view shelf.new) }
    ensures stop { IfErr result (StopsAt File.Request (Rose ((H.view shelf.old).reads name.now) ((H.view shelf.new).reads name.now)) (λ cause. H.tells → IsAskedFault ((H.view shelf.old).files name.now) cause)) }
    ensures unfailed { result ≢ Err (Stop.Read File.Request) → (H.view shelf.new).reads ≡ (H.view shelf.old).reads }
    ensures asked { H.tells → Asks (name.now ∷ []) (H.view shelf.old).asked (H.view shelf.new).asked }
{
    let bytes = read_input(alloc, shelf, File::Request, name, REQUEST_LIMIT)?;
    match read_request(alloc, &bytes) {
        Ok(request) => {
            let digest = digest_of(&bytes);
            Ok((request, digest))
        }
        Err(fault) => Err(request_stop(fault)),
    }
}

/// What [`read_asked`](crate::read_asked) reads, and the SHA-256 of the file, from the bytes that it was read from.
pub fn read_asked_with_digest<H: Shelf>(
    alloc: Global,
    name: &str,
    shelf: &mut H,
) -> Result<(Request, [u8; 32]), Stop>
    ensures asked { H.tells → IfOk result (λ r. HasRequest ((H.view shelf.old).files name.now) r.0) }
    ensures digest { H.tells → IfOk result (λ r. r.1 ≡ sha256 ((H.view shelf.old).files name.now)) }
    ensures frame { OnlyReads H.tells (H.view shelf.old) (H.view shelf.new) }
    ensures stop { IfErr result (StopsAsked H.tells name.now (H.view shelf.old) (H.view shelf.new)) }

    // A count of failed reads rises only where the file wasn't read, and it alone is asked for.
    ensures unfailed { result ≢ Err (Stop.Read File.Request) → (H.view shelf.new).reads ≡ (H.view shelf.old).reads }
    ensures asked_for { H.tells → Asks (name.now ∷ []) (H.view shelf.old).asked (H.view shelf.new).asked }
{
    request_with_digest(alloc, shelf, name)
}

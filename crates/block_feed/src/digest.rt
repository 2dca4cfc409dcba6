//! The digest of a file that is read in pieces, where one is asked for.

ghost use Rattle.std.specs.Prelude.{◌≡◌, ℕ, List, IfOk, is_some};
ghost use Rattle.fund_base.specs.Writer.{Feeds};
ghost use Rattle.block_feed.specs.Digest.{HasTaken, IsDigest};

use sha2::{Digest, Sha256};
use std::alloc::AllocError;

/// Takes more bytes, where a digest is asked for.
pub fn take_in(hasher: &mut Option<Sha256>, bytes: &[u8])
    ensures taken { Feeds HasTaken hasher.old hasher.new bytes.now }
    ensures asked_for { is_some hasher.new ≡ is_some hasher.old }
{
    match hasher.take() {
        Some(mut taking) => {
            taking.update(bytes);
            *hasher = Some(taking);
        }
        None => {}
    }
}

/// Another that has taken the same bytes.
pub fn copy_of(hasher: &Option<Sha256>) -> Result<Option<Sha256>, AllocError>
    ensures { IfOk result (λ copy. copy ≡ hasher.now) }
{
    match hasher {
        Some(taking) => {
            let copy = taking.clone()?;
            Ok(Some(copy))
        }
        None => Ok(None),
    }
}

/// The digest of the bytes that were taken.
pub fn digest_of(hasher: Option<Sha256>) -> Option<[u8; 32]>
    ensures { (bytes : List ℕ) → HasTaken hasher bytes → IsDigest hasher bytes result }
{
    match hasher {
        Some(taking) => Some(taking.finalize()),
        None => None,
    }
}

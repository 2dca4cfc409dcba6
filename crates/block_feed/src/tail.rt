//! The end of a block file: nothing, or zero bytes alone.

ghost use Rattle.std.specs.Prelude.{◌≡◌, ◌≢◌, ◌≤◌, ◌==◌, ℕ, length, nat_lt, None, IfOk, is_some, IsTrue, OnOk, IsErrOf, Err};
ghost use Rattle.std.specs.List.{list_all};
ghost use Rattle.fund_base.specs.Writer.{Feeds};
ghost use Rattle.block_feed.specs.Digest.{HasTaken};
ghost use Rattle.block_feed.specs.Feed.{Finds, seen_from};
ghost use Rattle.fund_shelf.specs.Causes.{ReadsOne};
ghost use Rattle.block_feed.specs.Reading.{ended_at};
ghost use Rattle.block_feed.specs.declared.fault.FeedFault.TheVariants.{Tx};
ghost use Rattle.tx_codec.specs.declared.fault.TxFault.TheVariants.{Memory as NoMemory};

use crate::digest::take_in;
use crate::fault::FeedFault;
use crate::parts::{is_longer, is_zero, piece_at};
use fund_shelf::{Fault, Shelf};
use sha2::Sha256;
use std::alloc::Global;

/// Whether nothing or zero bytes alone stand in the file `name` from this place on within the limit. Where they do,
/// `hasher` takes them.
fn is_tail<H: Shelf>(
    alloc: Global,
    shelf: &mut H,
    name: &str,
    place: u64,
    hasher: &mut Option<Sha256>,
) -> Result<bool, Fault>
    requires { place ≤ 1073741824 }
    ensures tail { H.tells → IfOk result (λ zeros. zeros ≡ list_all (λ b. b == 0) (seen_from ((H.view shelf.old).files name.now) place)) }
    ensures taken { H.tells → IfOk result (λ zeros. IsTrue zeros → Feeds HasTaken hasher.old hasher.new (seen_from ((H.view shelf.old).files name.now) place)) }
    ensures asked_for { is_some hasher.new ≡ is_some hasher.old }
    ensures frame { ReadsOne H.tells (IsErrOf result Fault.Failed) name.now (H.view shelf.old) (H.view shelf.new) }
{
    let mut at = place;
    'scanning: loop {
        let piece = piece_at(alloc, shelf, name, at)?;
        if piece.is_empty() {
            return Ok(true);
        }
        if !is_zero(&piece) {
            return Ok(false);
        }
        take_in(hasher, &piece);
        at += piece.len() as u64;
    }
}

/// Ok where the file `name` ends at this place, or has zero bytes alone from there on; `hasher` then takes these. Its
/// first eight bytes there, or all that there are, are zero.
pub fn end_at<H: Shelf>(
    alloc: Global,
    shelf: &mut H,
    name: &str,
    place: u64,
    hasher: &mut Option<Sha256>,
) -> Result<(), FeedFault>
    requires { place ≤ 1073741824 }
    ensures gives { H.tells → let file = (H.view shelf.old).files name.now in Finds (λ _. None) result (ended_at (nat_lt 1073741824 (length file)) place (seen_from file place)) }
    ensures taken { H.tells → OnOk result (Feeds HasTaken hasher.old hasher.new (seen_from ((H.view shelf.old).files name.now) place)) }
    ensures asked_for { is_some hasher.new ≡ is_some hasher.old }
    ensures never_memory { (at : ℕ) → result ≢ Err (Tx at NoMemory) }
    ensures frame { ReadsOne H.tells (IsErrOf result FeedFault.Read) name.now (H.view shelf.old) (H.view shelf.new) }
{
    let zeros = is_tail(alloc, shelf, name, place, hasher)?;
    if !zeros {
        return Err(FeedFault::Magic(place));
    }
    let longer = is_longer(shelf, name)?;
    if longer {
        return Err(FeedFault::Limit);
    }
    Ok(())
}

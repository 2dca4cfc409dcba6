//! The words with the amount in place of `max`.

ghost use Rattle.std.specs.Prelude.{◌≡◌, ◌≢◌, ◌<◌, Err, IfErr, IfOk, MatchOption, None, Ok, Some, ℕ, length, map, string_bytes, true};
ghost use Rattle.fund_shelf.specs.Causes.{OnlyReads};
ghost use Rattle.fund_files.specs.declared.refusal.File.{File};
ghost use Rattle.fund_files.specs.declared.stop.Stop.TheVariants.{Read};
ghost use Rattle.pay_words.specs.declared.asked.Names.{Names};
ghost use Rattle.max_words.specs.Filled.{IsFilled, IsNotFilled};
ghost use Rattle.max_words.specs.Words.{has_others, max_at};
ghost use Rattle.max_words.specs.declared.fault.MaxFault.TheVariants.{Others, Stopped};

use crate::amount::amount_for;
use crate::asking::asked_for;
use crate::fault::{MaxFault, stopped};
use crate::words::{filled, max_at};
use fund_base::Memory;
use fund_files::read_chain;
use fund_shelf::Shelf;
use pay_words::Asked;
use std::alloc::Global;

/// The words with an amount, in satoshi, in place of `max`, which stands at this place: the most that the listed coins pay.
fn fill_at<H: Shelf>(
    alloc: Global,
    words: &[String],
    place: usize,
    drawn: [u8; 32],
    shelf: &mut H,
) -> Result<Vec<String>, MaxFault>
    requires { place < length words.now }
    ensures others { has_others words.now ≡ true → result ≡ Err (Others place) }
    ensures filled { IfOk result (λ v. IsFilled H.tells (H.view shelf.old).files drawn words.now place (map string_bytes v.items)) }
    ensures refused { IfErr result (IsNotFilled H.tells (H.view shelf.old) (H.view shelf.new) drawn words.now place) }
    ensures frame { OnlyReads H.tells (H.view shelf.old) (H.view shelf.new) }
    ensures unfailed { ((names : Names) (file : File) → result ≢ Err (Stopped names (Read file))) → (H.view shelf.new).reads ≡ (H.view shelf.old).reads }
{
    let asked = asked_for(alloc, words, place, drawn)?;
    let read = read_chain(
        alloc,
        asked.names.wallet.as_str(),
        asked.names.blocks.as_str(),
        shelf,
    );
    let held = match read {
        Ok(held) => held,
        Err(stop) => return Err(stopped(asked.names, stop)),
    };
    let amount = amount_for(alloc, &held, &asked)?;
    let words = filled(alloc, words, place, amount)?;
    Ok(words)
}

/// The words with an amount, in satoshi, in place of the first `max` behind a recipient; none where no recipient gets that. The amount is
/// the most that the listed coins pay to the one recipient. The wallet is read, and then the blocks. Where there is no such amount, as
/// where a listed coin may not be spent, it is 21,000,000 bitcoin, which no coins pay beyond a fee. So the payment that is then asked for
/// is refused for what is wrong.
///
/// The faults are told in the order of [`MaxFault`]. Each is told with its own cause, memory aside, and none leaves anything written.
pub fn fill_max<H: Shelf>(
    alloc: Global,
    words: &[String],
    drawn: [u8; 32],
    shelf: &mut H,
) -> Result<Option<Vec<String>>, MaxFault>
    ensures none { max_at words.now ≡ None → result ≡ Ok None }
    ensures others { (place : ℕ) → max_at words.now ≡ Some place → has_others words.now ≡ true → result ≡ Err (Others place) }
    // The words are those of a payment of the most that the listed coins pay.
    ensures filled { (place : ℕ) → max_at words.now ≡ Some place → IfOk result (λ o. MatchOption o ⊥ (λ v. IsFilled H.tells (H.view shelf.old).files drawn words.now place (map string_bytes v.items))) }
    // A fault has its cause, and a count of failed reads rises only where one of the two files wasn't read.
    ensures refused { (place : ℕ) → max_at words.now ≡ Some place → IfErr result (IsNotFilled H.tells (H.view shelf.old) (H.view shelf.new) drawn words.now place) }
    ensures unfailed { ((names : Names) (file : File) → result ≢ Err (Stopped names (Read file))) → (H.view shelf.new).reads ≡ (H.view shelf.old).reads }
    ensures frame { OnlyReads H.tells (H.view shelf.old) (H.view shelf.new) }
{
    match max_at(words) {
        Some(place) => {
            let words = fill_at(alloc, words, place, drawn, shelf)?;
            Ok(Some(words))
        }
        None => Ok(None),
    }
}

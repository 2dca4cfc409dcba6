//! The words of a sweep.

ghost use Rattle.std.specs.Prelude.{◌≡◌, ◌≢◌, Err, List, None, Some, String, map, string_bytes, ℕ};
ghost use Rattle.std.specs.declared.alloc.Global.{Global as Heap};
ghost use Rattle.fund_base.specs.Parsing.{YieldsAll};
ghost use Rattle.pay_words.specs.Asked.{asked_in, plain_asked};
ghost use Rattle.pay_words.specs.declared.fault.WordFault.TheVariants.{Memory as OutOfMemory, Twice, Unknown};
ghost use Rattle.sweep_words.specs.Words.{foreign_at, said_of, second_at};

use crate::foreign::{foreign_at, second_at};
use crate::saying::said_of;
use pay_words::{Asked, WordFault, read_pay};
use std::alloc::Global;

/// What the words behind `sweep` ask for, or their first fault. They are flags of `pay`, with one recipient, behind which no amount
/// has to stand: what is asked for is then its dust threshold, below which no output is relayed. An amount that stands there is the
/// least that is taken. [`WordFault::Unknown`] comes first, for a flag that says nothing of a payment of all coins, as
/// `--coin`; then [`WordFault::Twice`] for a second recipient; and then the faults of `pay`.
///
/// The seed stands in the request, and is of no use there.
pub fn read_sweep(alloc: Global, words: &[String], seed: [u8; 32]) -> Result<Asked, WordFault>
    ensures foreign { (place : ℕ) → foreign_at words.now ≡ Some place → result ≡ Err (Unknown place) }
    ensures twice { (place : ℕ) → foreign_at words.now ≡ None → second_at words.now ≡ Some place → result ≡ Err (Twice place) }
    // Otherwise they are read as words of `pay` whose recipient has the least that it takes behind it.
    ensures asks { foreign_at words.now ≡ None → second_at words.now ≡ None → result ≢ Err OutOfMemory → (said : List (String Heap)) × (map string_bytes said ≡ said_of words.now) × YieldsAll OutOfMemory plain_asked result (asked_in seed said) }
{
    if let Some(place) = foreign_at(words) {
        return Err(WordFault::Unknown(place));
    }
    if let Some(place) = second_at(words) {
        return Err(WordFault::Twice(place));
    }
    let said = said_of(alloc, words)?;
    let asked = read_pay(alloc, said.as_slice(), seed)?;
    Ok(asked)
}

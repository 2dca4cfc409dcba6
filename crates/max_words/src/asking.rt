//! What words ask for whose recipient gets all.

ghost use Rattle.std.specs.Prelude.{◌≡◌, ◌<◌, ◌≢◌, Err, IfErr, List, String, false, length, map, string_bytes, true};
ghost use Rattle.std.specs.declared.alloc.Global.{Global as Heap};
ghost use Rattle.fund_base.specs.Parsing.{YieldsAll};
ghost use Rattle.pay_words.specs.Asked.{asked_in, plain_asked};
ghost use Rattle.max_words.specs.Filled.{IsNotAsked};
ghost use Rattle.max_words.specs.Words.{IsOfWords, filled, has_others, is_manual, taken_by, taken_of, word_fault};
ghost use Rattle.max_words.specs.declared.fault.MaxFault.TheVariants.{Memory as OutOfMemory, Others};

use crate::fault::MaxFault;
use crate::words::{filled, has_others};
use fund_base::MAX_MONEY;
use pay_words::{Asked, WordFault, read_pay};
use request_text::Method;
use std::alloc::Global;

/// Whether coins are listed alone.
fn is_manual(method: Method) -> bool
    ensures { result ≡ is_manual method }
{
    matches!(method, Method::Manual)
}

/// Why the words ask for no payment, once an amount stands in them.
fn word_fault(fault: WordFault) -> MaxFault
    ensures value { result ≡ word_fault fault }
    ensures of_words { IsOfWords result }
{
    match fault {
        WordFault::Memory => MaxFault::Memory,
        fault => MaxFault::Words(fault),
    }
}

/// What is asked for, where listed coins pay it alone.
fn taken_by(place: usize, asked: Asked) -> Result<Asked, MaxFault>
    ensures value { YieldsAll OutOfMemory plain_asked result (taken_by place (plain_asked asked)) }
    ensures of_words { IfErr result IsOfWords }
{
    if !is_manual(asked.settings.method) {
        return Err(MaxFault::NotManual(place));
    }
    if asked.coins.is_empty() {
        return Err(MaxFault::NoCoins(place));
    }
    Ok(asked)
}

/// What these words ask for, with an amount at this place; or their first fault.
fn read_filled(
    alloc: Global,
    said: &[String],
    place: usize,
    drawn: [u8; 32],
) -> Result<Asked, MaxFault>
    ensures value { YieldsAll OutOfMemory plain_asked result (taken_of place (asked_in drawn said.now)) }
    ensures of_words { IfErr result IsOfWords }
{
    match read_pay(alloc, said, drawn) {
        Ok(asked) => taken_by(place, asked),
        Err(fault) => Err(word_fault(fault)),
    }
}

/// What the words ask for with all the money that there can be in place of `max`, which stands at this place; or their first fault:
/// [`MaxFault::Others`], then those of the words, [`MaxFault::NotManual`] and [`MaxFault::NoCoins`].
pub fn asked_for(
    alloc: Global,
    words: &[String],
    place: usize,
    drawn: [u8; 32],
) -> Result<Asked, MaxFault>
    requires { place < length words.now }
    ensures others { has_others words.now ≡ true → result ≡ Err (Others place) }
    ensures refused { IfErr result (IsNotAsked drawn words.now place) }
    ensures asks { has_others words.now ≡ false → result ≢ Err OutOfMemory → (said : List (String Heap)) × (map string_bytes said ≡ filled words.now place 2_100_000_000_000_000) × YieldsAll OutOfMemory plain_asked result (taken_of place (asked_in drawn said)) }
{
    if has_others(words) {
        return Err(MaxFault::Others(place));
    }
    let said = filled(alloc, words, place, MAX_MONEY)?;
    let asked = read_filled(alloc, said.as_slice(), place, drawn)?;
    Ok(asked)
}

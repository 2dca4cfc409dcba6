//! What is said of a PSBT file that is refused.

ghost use Rattle.std.specs.Prelude.{◌≡◌, ◌++◌, ◌∷◌, codes};
ghost use Rattle.std.specs.Fmt.{decimal};
ghost use Rattle.command_end.specs.Coin.{coin_text};
ghost use Rattle.command_end.specs.Parts.{parts_text};
ghost use Rattle.command_complete.specs.Words.{input_fault_words, refusal_words};

use crate::fault::CompleteFault;
use crate::stop::Refusal;
use command_end::{Part, psbt_fault_parts};
use fund_base::OutPoint;

/// An input by its index and the outpoint that it spends, behind a word.
fn input_parts<'a>(word: &'static str, index: u64, coin: &'a OutPoint) -> [Part<'a>; 2]
    ensures { parts_text result ≡ word.now ++ (decimal index ++ (32 ∷ coin_text coin.now)) }
{
    [Part::Number(word, index), Part::Coin(" ", coin)]
}

/// What is wrong with an input: the variant's name, the input's index and the outpoint that it spends.
#[tactic(auto, unfolding(crate::specs::Words::input_fault_words))]
fn input_fault_parts(fault: &CompleteFault) -> [Part; 2]
    ensures { parts_text result ≡ input_fault_words fault.now }
{
    match fault {
        CompleteFault::Missing(index, coin) => input_parts("Missing ", *index, coin),
        CompleteFault::OtherOutput(index, coin) => input_parts("OtherOutput ", *index, coin),
        CompleteFault::Memory => [Part::Text("Memory"), Part::Nothing],
    }
}

/// Parts behind the words that name the file.
fn behind<'a>(parts: [Part<'a>; 2]) -> [Part<'a>; 3]
    ensures { parts_text result ≡ codes "input psbt " ++ parts_text parts.entry }
{
    let [first, second] = parts;
    [Part::Text("input psbt "), first, second]
}

/// What the refusal of a PSBT file says behind the word `fault`.
#[tactic(auto, unfolding(crate::specs::Words::refusal_words))]
pub fn refusal_parts(refusal: &Refusal) -> [Part; 3]
    ensures { parts_text result ≡ refusal_words refusal.now }
{
    match refusal {
        Refusal::Psbt(fault) => behind(psbt_fault_parts(*fault)),
        Refusal::OtherPairs => behind([Part::Text("OtherPairs"), Part::Nothing]),
        Refusal::Input(fault) => behind(input_fault_parts(fault)),
    }
}

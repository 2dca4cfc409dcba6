//! The sentences of faults.

ghost use Rattle.std.specs.Prelude.{◌≡◌, option_copied};
ghost use Rattle.max_words.specs.Sentences.{max_place, max_sentence};

use crate::fault::MaxFault;
use pay_words::word_sentence;

/// What to do about words whose recipient gets all; none where the files stop it, of which their own lines tell.
#[tactic(auto, unfolding(crate::specs::Sentences::max_sentence))]
pub fn max_sentence(fault: &MaxFault) -> Option<&'static str>
    ensures { option_copied result ≡ max_sentence fault.now }
{
    match fault {
        MaxFault::Others(_) => Some(
            "max is for one recipient alone: give an amount here, or leave out the other recipients.",
        ),
        MaxFault::NotManual(_) => Some(
            "max goes with --method manual alone: give that beside it, and each coin by --coin.",
        ),
        MaxFault::NoCoins(_) => Some(
            "max is what listed coins are worth: list each by --coin; ninelace sweep pays all coins.",
        ),
        MaxFault::Words(fault) => Some(word_sentence(fault)),
        MaxFault::Stopped(_, _) => None,
        MaxFault::Memory => Some(
            "The machine has too little memory: try again with less beside it.",
        ),
    }
}

/// The place of the recipient that a fault is about, if it is about one.
pub fn max_place(fault: &MaxFault) -> Option<usize>
    ensures { result ≡ max_place fault.now }
{
    match fault {
        MaxFault::Others(place) | MaxFault::NotManual(place) | MaxFault::NoCoins(place) => {
            Some(*place)
        }
        _ => None,
    }
}

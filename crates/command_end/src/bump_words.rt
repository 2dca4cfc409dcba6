//! The words of why a payment isn't replaced.

ghost use Rattle.std.specs.Prelude.{◌≡◌};
ghost use Rattle.command_end.specs.Parts.{part_text, parts_text};
ghost use Rattle.command_end.specs.Words.{bump_fault_words, found_words, state_words};

use crate::parts::Part;
use fee_bump::BumpFault;
use payment_states::State;

/// The state of a payment by its name and its field.
#[tactic(auto, unfolding(crate::specs::Words::state_words))]
fn state_part(state: &State) -> Part
    ensures { part_text result ≡ state_words state.now }
{
    match state {
        State::Confirmed(height) => Part::Number("Confirmed ", u64::from(*height)),
        State::Conflicted(txid) => Part::Hash("Conflicted ", txid.bytes()),
        State::Abandoned => Part::Text("Abandoned"),
        State::Replaced(txid) => Part::Hash("Replaced ", txid.bytes()),
        State::Pending => Part::Text("Pending"),
    }
}

/// The state of a payment, or `None` where there is no payment.
#[tactic(auto, unfolding(crate::specs::Words::found_words))]
fn found_part(found: &Option<State>) -> Part
    ensures { part_text result ≡ found_words found.now }
{
    match found {
        Some(state) => state_part(state),
        None => Part::Text("None"),
    }
}

/// Why a payment isn't replaced, as the fault line says it after the word `fault`: `input bump`, the variant's name and its
/// fields, which are a state or `None`, a coin, a count, or a fee in satoshi and a size in virtual bytes.
#[tactic(auto, unfolding(crate::specs::Words::bump_fault_words))]
pub fn bump_fault_parts(fault: &BumpFault) -> [Part; 2]
    ensures { parts_text result ≡ bump_fault_words fault.now }
{
    match fault {
        BumpFault::NotPending(found) => [Part::Text("input bump NotPending "), found_part(found)],
        BumpFault::NotSignalling => [Part::Text("input bump NotSignalling"), Part::Nothing],
        BumpFault::ForeignInput(coin) => {
            [Part::Coin("input bump ForeignInput ", coin), Part::Nothing]
        }
        BumpFault::TooManyEvicted(n) => {
            [
                Part::Number("input bump TooManyEvicted ", *n),
                Part::Nothing,
            ]
        }
        BumpFault::RateBelowIncrement => {
            [Part::Text("input bump RateBelowIncrement"), Part::Nothing]
        }
        BumpFault::RateNotHigher(fee, vsize) => [
            Part::Number("input bump RateNotHigher ", *fee),
            Part::Number(" ", *vsize),
        ],
        BumpFault::Memory => [Part::Text("memory"), Part::Nothing],
    }
}

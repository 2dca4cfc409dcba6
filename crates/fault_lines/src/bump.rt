//! The words of why a payment isn't replaced.

ghost use Rattle.std.specs.Prelude.{◌≡◌, option_copied};
ghost use Rattle.fault_lines.specs.Sentences.{not_pending_sentence};
ghost use Rattle.fault_lines.specs.Lines.{bump_line, state_line};

use crate::bump_sentences::bump_sentence;
use crate::coin::no_coin;
use crate::word::{begins, behind};
use fee_bump::BumpFault;
use fund_base::Txid;
use payment_states::State;

/// The sentence of a payment that isn't there, or of one of this state.
#[tactic(auto, unfolding(crate::specs::Sentences::bump_sentence))]
fn found_sentence(found: Option<State>) -> &'static str
    ensures { result.now ≡ not_pending_sentence found }
{
    bump_sentence(&BumpFault::NotPending(found))
}

/// The sentence of a payment that doesn't wait, by the words of its state. None where it has none.
#[tactic(auto, unfolding(crate::specs::Lines::state_line))]
pub fn state_line(words: &[u8]) -> Option<&'static str>
    ensures { option_copied result ≡ state_line words.now }
{
    if begins(words, b"None") {
        Some(found_sentence(None))
    } else if begins(words, b"Confirmed ") {
        Some(found_sentence(Some(State::Confirmed(0))))
    } else if begins(words, b"Conflicted ") {
        Some(found_sentence(Some(State::Conflicted(Txid([0; 32])))))
    } else if begins(words, b"Abandoned") {
        Some(found_sentence(Some(State::Abandoned)))
    } else if begins(words, b"Replaced ") {
        Some(found_sentence(Some(State::Replaced(Txid([0; 32])))))
    } else if begins(words, b"Pending") {
        Some(found_sentence(Some(State::Pending)))
    } else {
        None
    }
}

/// The sentence of why a payment isn't replaced, by its words. None where it has none.
#[tactic(auto, unfolding(crate::specs::Lines::bump_line))]
pub fn bump_line(words: &[u8]) -> Option<&'static str>
    ensures { option_copied result ≡ bump_line words.now }
{
    if let Some(rest) = behind(words, b"NotPending ") {
        state_line(rest)
    } else if begins(words, b"NotSignalling") {
        Some(bump_sentence(&BumpFault::NotSignalling))
    } else if begins(words, b"ForeignInput ") {
        Some(bump_sentence(&BumpFault::ForeignInput(no_coin())))
    } else if begins(words, b"TooManyEvicted ") {
        Some(bump_sentence(&BumpFault::TooManyEvicted(0)))
    } else if begins(words, b"RateBelowIncrement") {
        Some(bump_sentence(&BumpFault::RateBelowIncrement))
    } else if begins(words, b"RateNotHigher ") {
        Some(bump_sentence(&BumpFault::RateNotHigher(0, 0)))
    } else {
        None
    }
}

//! The sentences of why a payment isn't replaced.

ghost use Rattle.std.specs.Prelude.{◌≡◌};
ghost use Rattle.fault_lines.specs.Sentences.{bump_sentence, not_pending_sentence, state_sentence};

use crate::stop::{Stop, stop_sentence};
use fee_bump::BumpFault;
use payment_states::State;

/// The sentence of a payment that doesn't wait, by its state.
#[tactic(auto, unfolding(crate::specs::Sentences::state_sentence))]
fn state_sentence(state: &State) -> &'static str
    ensures { result.now ≡ state_sentence state.now }
{
    match state {
        State::Confirmed(_) =>
            "The payment that bump names is confirmed, so nothing can replace it: leave bump out of the request.",
        State::Conflicted(_) =>
            "A confirmed transaction spends a coin of the payment that bump names: it can not confirm any more, so leave bump out and pay anew.",
        State::Abandoned =>
            "The payment that bump names was abandoned in the wallet file: leave bump out and pay anew, or take the txid out of abandoned.",
        State::Replaced(_) =>
            "A later payment of pending replaces the one that bump names: name the later one, or take it out of pending if it was never sent.",
        State::Pending => "The payment that bump names waits for a block.",
    }
}

/// The sentence of a payment that isn't there, or doesn't wait.
#[tactic(auto, unfolding(crate::specs::Sentences::not_pending_sentence))]
fn not_pending_sentence(found: &Option<State>) -> &'static str
    ensures { result.now ≡ not_pending_sentence found.now }
{
    match found {
        Some(state) => state_sentence(state),
        None =>
            "No transaction of pending has the txid in bump: copy the txid again, or put the payment and its parents into pending.",
    }
}

/// What to do where a payment isn't replaced: the sentence of each fault.
#[tactic(auto, unfolding(crate::specs::Sentences::bump_sentence))]
pub fn bump_sentence(fault: &BumpFault) -> &'static str
    ensures { result.now ≡ bump_sentence fault.now }
{
    match fault {
        BumpFault::NotPending(found) => not_pending_sentence(found),
        BumpFault::NotSignalling =>
            "The payment that bump names does not signal that it may be replaced, nor does an ancestor that waits: nodes may refuse another, so wait for it.",
        BumpFault::ForeignInput(_) =>
            "The payment that bump names, or one that spends its outputs, spends a coin that the wallet does not know: add its script or its transaction.",
        BumpFault::TooManyEvicted(_) =>
            "More than 100 waiting payments would be replaced together: replace one of the later ones, or wait.",
        BumpFault::RateBelowIncrement =>
            "The rate is below 1 satoshi per virtual byte: nodes relay no replacement at such a rate, so give 1000 or more.",
        BumpFault::RateNotHigher(_, _) =>
            "The rate is not above that of the payment that bump names: multiply its fee by 1000, divide by its size, and give more than that.",
        BumpFault::Memory => stop_sentence(Stop::Memory),
    }
}

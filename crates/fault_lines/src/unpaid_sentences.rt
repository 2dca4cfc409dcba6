//! The sentences of reports without a payment.

ghost use Rattle.std.specs.Prelude.{◌≡◌};
ghost use Rattle.fault_lines.specs.Sentences.{none_sentence, unfinished_sentence};

/// What to do where a report says that the coins do not pay.
#[tactic(auto, unfolding(crate::specs::Sentences::none_sentence))]
pub fn none_sentence() -> &'static str
    ensures { result.now ≡ none_sentence }
{
    "The coins do not pay this: too few, too dear at this rate, or not listed; pay less, give a lower rate, or --zero-conf for own outputs that wait."
}

/// What to do where a report says that the tries are used up.
#[tactic(auto, unfolding(crate::specs::Sentences::unfinished_sentence))]
pub fn unfinished_sentence() -> &'static str
    ensures { result.now ≡ unfinished_sentence }
{
    "The tries were used up before the search was done, and no payment was made: give more --tries, or another --method where no flag asks for this one."
}

//! Why a request that is in order isn't paid by `wide`, `share` or `sweep`.

ghost use Rattle.std.specs.Prelude.{◌≡◌, option_copied};
ghost use Rattle.fault_lines.specs.Lines.{unsuited_line};
ghost use Rattle.fault_lines.specs.Sentences.{unsuited_sentence};

use crate::word::begins;

/// Why a request that is in order isn't paid by `wide`, `share` or `sweep`, besides the faults of every plan.
#[derive(Clone, Copy, PartialEq, Eq)]
pub enum Unsuited {
    /// `wide` takes a request of the method `changeless` that lists no coins and replaces no payment.
    NotWide,
    /// `share` takes a request of the method `weight` that lists no coins and replaces no payment.
    NotShare,
    /// `sweep` takes a request with one recipient that lists no coins and replaces no payment.
    NotSweep,
    /// Of `share`: the recipient of this index is the first that is below its share of the fee and its dust threshold
    /// together. An index above 4,294,967,295 is given as that.
    ShareDust(u32),
    /// Of `sweep`: the payment of all coins has this weight, in weight units, and more than 400,000.
    TooHeavy(u64),
}

/// What to do where `wide`, `share` or `sweep` doesn't pay a request that is in order.
#[tactic(auto, unfolding(crate::specs::Sentences::unsuited_sentence))]
pub fn unsuited_sentence(fault: Unsuited) -> &'static str
    ensures { result.now ≡ unsuited_sentence fault }
{
    match fault {
        Unsuited::NotWide =>
            "The wide search takes a request whose method is changeless, without coins and bump: write it so, or use fund.",
        Unsuited::NotShare =>
            "Recipients bear the fee of a request whose method is weight, without coins and bump: write it so, or use fund.",
        Unsuited::NotSweep =>
            "A sweep takes a request of one recipient, without coins and bump: write it so, or use fund.",
        Unsuited::ShareDust(_) =>
            "The amount of the recipient at this index, less its share of the fee, is less than nodes relay: pay more, or give a lower rate.",
        Unsuited::TooHeavy(_) =>
            "A payment of all coins weighs above 400,000 weight units, and nodes do not relay it: lock some coins, and pay these later.",
    }
}

/// The sentence of why `wide`, `share` or `sweep` doesn't pay, by its words. None where it has none.
#[tactic(auto, unfolding(crate::specs::Lines::unsuited_line))]
pub fn unsuited_line(words: &[u8]) -> Option<&'static str>
    ensures { option_copied result ≡ unsuited_line words.now }
{
    if begins(words, b"NotWide") {
        Some(unsuited_sentence(Unsuited::NotWide))
    } else if begins(words, b"NotShare") {
        Some(unsuited_sentence(Unsuited::NotShare))
    } else if begins(words, b"NotSweep") {
        Some(unsuited_sentence(Unsuited::NotSweep))
    } else if begins(words, b"ShareDust ") {
        Some(unsuited_sentence(Unsuited::ShareDust(0)))
    } else if begins(words, b"TooHeavy ") {
        Some(unsuited_sentence(Unsuited::TooHeavy(0)))
    } else {
        None
    }
}

//! The sentences of rules that a signed transaction breaks.

ghost use Rattle.std.specs.Prelude.{◌≡◌};
ghost use Rattle.fault_lines.specs.Sentences.{differing_sentence, settle_sentence};

use settle_check::{Differing, SettleFault};

/// What to do where a signed transaction is another payment: the sentence of each difference.
#[tactic(auto, unfolding(crate::specs::Sentences::differing_sentence))]
pub fn differing_sentence(part: &Differing) -> &'static str
    ensures { result.now ≡ differing_sentence part.now }
{
    match part {
        Differing::Version =>
            "Do not send it: its version is not that of the payment; sign the PSBT of the report, or give the report of this transaction.",
        Differing::Locktime =>
            "Do not send it: its lock time is not that of the payment; sign the PSBT of the report, or give the report of this transaction.",
        Differing::Count =>
            "Do not send it: it has other inputs or outputs than the payment; sign the PSBT of the report, or give the report of this transaction.",
        Differing::Input(_) =>
            "Do not send it: the input at this index is not that of the payment; sign the PSBT of the report, or give the report of this transaction.",
        Differing::Output(_) =>
            "Do not send it: the output at this index is not that of the payment; sign the PSBT of the report, or give the report of this transaction.",
    }
}

/// What to do where a signed transaction isn't told to settle a payment: the sentence of each rule that is broken.
#[tactic(auto, unfolding(crate::specs::Sentences::settle_sentence))]
pub fn settle_sentence(fault: &SettleFault) -> &'static str
    ensures { result.now ≡ settle_sentence fault.now }
{
    match fault {
        SettleFault::Report(_) =>
            "The report leaves its form at this place: give it as it was written; those of wide, share and sweep are not read.",
        SettleFault::NotFunded =>
            "The report is of no payment: give one whose first line begins with funded.",
        SettleFault::Psbt(_) =>
            "The PSBT of the report was cut or changed: give the report as it was written.",
        SettleFault::NoValue(_) =>
            "The PSBT of the report does not show what the input at this index spends: give the report as it was written.",
        SettleFault::Foreign(_) =>
            "The input at this index spends from a script that the wallet file does not list: give the wallet file of the payment.",
        SettleFault::Differs(part) => differing_sentence(part),
        SettleFault::Unsigned(_) =>
            "The input at this index, counted from 0, is not signed: sign it, make the PSBT final, and give the whole transaction.",
        SettleFault::Heavier(_, _, _) =>
            "The input at this index weighs more than the wallet file declares: write the last number as the weight of its script, and fund anew.",
        SettleFault::TooHeavy(_) =>
            "The transaction weighs above 400,000 weight units, and nodes do not relay it: fund anew, from fewer coins.",
        SettleFault::BelowRate(_, _) =>
            "The fee is less than the rate of the request asks for this size: give the request of the payment, or fund anew.",
    }
}

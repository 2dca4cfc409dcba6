//! Laws of PSBTs that are made whole. A call of any of them does nothing.

ghost use Rattle.std.specs.Prelude.{◌≡◌, All};
ghost use Rattle.coin_book.specs.History.{History};
ghost use Rattle.fund_files.specs.Chain.{HasTexts};
ghost use Rattle.fund_payment.specs.Report.{psbt_of};
ghost use Rattle.fund_plan.specs.Selection.{PlainFunded};
ghost use Rattle.payment_states.specs.Makers.{HasMaker};
ghost use Rattle.psbt_codec.specs.PartialTransaction.{PartialTransaction};
ghost use Rattle.psbt_codec.specs.Psbt.{IsPsbt};
ghost use Rattle.request_text.specs.PlainRequest.{PlainRequest};
ghost use Rattle.wallet_text.specs.declared.wallet.Watch.{Watch};
ghost use Rattle.command_complete.specs.Completed.{IsCompleted, known_of};
ghost use Rattle.command_complete.specs.Faults.{IsFirstFault};
ghost use Rattle.command_complete.specs.declared.fault.CompleteFault.{CompleteFault};

/// The law of outcomes: from a book a PSBT is made whole in one way at most, or for one fault at most it isn't, and not both.
pub fn completed_psbts_are_one()
    ensures one { (h : History) (p q r : PartialTransaction) → IsCompleted h p q → IsCompleted h p r → q ≡ r }
    ensures first { (h : History) (p : PartialTransaction) (e f : CompleteFault) → IsFirstFault h (known_of p) e → IsFirstFault h (known_of p) f → e ≡ f }
    ensures apart { (h : History) (p q : PartialTransaction) (e : CompleteFault) → IsCompleted h p q → IsFirstFault h (known_of p) e → ⊥ }
{}

/// The law of PSBTs: what a PSBT is made whole as is a PSBT.
pub fn completions_are_psbts()
    ensures { (h : History) (p q : PartialTransaction) → IsPsbt p → IsCompleted h p q → IsPsbt q }
{}

/// The law of repeats: what was made whole once stays as it is, from whatever book it is made whole again.
pub fn completed_stay()
    ensures stays { (h g : History) (p q : PartialTransaction) → IsCompleted h p q → IsCompleted g q q }
    ensures same { (h g : History) (p q r : PartialTransaction) → IsCompleted h p q → IsCompleted g q r → r ≡ q }
{}

/// The law of payments: the PSBT of a payment is made whole from a history that has the transactions which made its coins. So
/// it is never refused.
pub fn payments_are_made_whole()
    ensures { (h : History) (r : PlainRequest) (change : Watch) (f : PlainFunded) → HasTexts h → All (HasMaker h) f.coins → (q : PartialTransaction) × IsCompleted h (psbt_of h r change f) q }
{}

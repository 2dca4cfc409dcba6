//! Laws of payments that were signed. A call of any of them does nothing.

ghost use Rattle.std.specs.Prelude.{ℕ, ℤ, ◌≡◌, ◌∷◌, ◌↔◌, List, [], replicate, true};
ghost use Rattle.fund_plan.specs.Answer.{IsPayment};
ghost use Rattle.fund_plan.specs.Pays.{payment_of};
ghost use Rattle.fund_plan.specs.Selection.{PlainFunded};
ghost use Rattle.fund_steps.specs.Plan.{PlainPlan};
ghost use Rattle.settle_check.specs.Broken.{IsSettleFault};
ghost use Rattle.settle_check.specs.Settled.{AreSigned, AreWithin, IsSamePayment, Settles, true_weight_of};
ghost use Rattle.settle_check.specs.declared.fault.SettleFault.TheVariants.{BelowRate, Heavier, TooHeavy, Unsigned};
ghost use Rattle.tx_codec.specs.Transaction.{Transaction};
ghost use Rattle.fee_rates.specs.Fee.{vsize_of};
ghost use Rattle.tx_codec.specs.Weight.{weight_of};
ghost use Rattle.tx_codec.specs.TransactionText.{IsTransaction};
ghost use Rattle.tx_codec.specs.declared.tx.TxOut.{TxOut};
ghost use Rattle.settle_laws.specs.Coins.{AreOf};
ghost use Rattle.settle_laws.specs.Worked.{worked_declared, worked_input, worked_payment, worked_signed, worked_spent};

/// The law of settling: a payment that was found settles at its request's rate wherever it is the same payment, and each input
/// is signed and weighs at most what its coin declares. It is then never above the greatest weight, and its fee is never below
/// what the rate asks. A call does nothing.
pub fn payments_settle_at_their_rate()
    ensures settles { (p : PlainPlan) (f : PlainFunded) (spent : List TxOut) (declared : List ℕ) (signed : Transaction) → IsPayment p f → AreOf f.coins spent declared → IsTransaction signed →
        Settles (payment_of p.request p.change f) spent declared signed p.request.rate
        ↔ (IsSamePayment (payment_of p.request p.change f) signed × AreSigned signed.inputs × AreWithin declared signed) }
    ensures light { (p : PlainPlan) (f : PlainFunded) (spent : List TxOut) (declared : List ℕ) (signed : Transaction) (weight : ℕ) → IsPayment p f → AreOf f.coins spent declared → IsTransaction signed →
        IsSettleFault (payment_of p.request p.change f) spent declared signed p.request.rate (TooHeavy weight) → ⊥ }
    ensures rate { (p : PlainPlan) (f : PlainFunded) (spent : List TxOut) (declared : List ℕ) (signed : Transaction) (fee : ℤ) (needed : ℕ) → IsPayment p f → AreOf f.coins spent declared → IsTransaction signed →
        IsSettleFault (payment_of p.request p.change f) spent declared signed p.request.rate (BelowRate fee needed) → ⊥ }
{}

/// The worked payment, of a coin that declares 272 weight units: with a signature of 71 bytes or of 72 it settles, and weighs 437
/// weight units or 438, which is 110 virtual bytes; its input weighs 271 or 272. With one of 73 bytes the input is too heavy, and
/// without any it isn't signed. A call does nothing.
pub fn settles_the_worked_payment()
    ensures lighter { Settles worked_payment worked_spent worked_declared (worked_signed 71) 10_000 }
    ensures lighter_weighs { (weight_of (worked_signed 71) ≡ 437) × (vsize_of 437 ≡ 110) × (true_weight_of true (worked_input (replicate 71 48 ∷ replicate 33 2 ∷ [])) ≡ 271) }
    ensures as_declared { Settles worked_payment worked_spent worked_declared (worked_signed 72) 10_000 }
    ensures as_declared_weighs { (weight_of (worked_signed 72) ≡ 438) × (vsize_of 438 ≡ 110) × (true_weight_of true (worked_input (replicate 72 48 ∷ replicate 33 2 ∷ [])) ≡ 272) }
    ensures heavier { IsSettleFault worked_payment worked_spent worked_declared (worked_signed 73) 10_000 (Heavier 0 272 273) }
    ensures bare { IsSettleFault worked_payment worked_spent worked_declared worked_payment 10_000 (Unsigned 0) }
{}

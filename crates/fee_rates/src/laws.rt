//! Laws of fees and sizes. A call of any of them does nothing.

ghost use Rattle.std.specs.Prelude.{ℕ, ◌≡◌, ◌+◌, ◌*◌, ◌≤◌, ◌++◌, List, length, sum, sum_by};
ghost use Rattle.std.specs.Int.{w64, to_le_bytes};
ghost use Rattle.fund_base.specs.CompactSize.{prefixed};
ghost use Rattle.fee_rates.specs.Fee.{fee_of, vsize_of, input_fee_of};
ghost use Rattle.fee_rates.specs.Output.{output_size_of};
ghost use Rattle.fee_rates.specs.Terms.{TermsAgree, terms_of};
ghost use Rattle.fee_rates.specs.declared.terms.PaymentLoad.{PaymentLoad};
ghost use Rattle.fee_rates.specs.declared.terms.Rates.{Rates};

/// The law of higher rates: a higher rate, a larger size and a greater weight have no lower fee.
#[tactic(auto, using(crate::proofs::FeeLaws::fee_below, crate::proofs::FeeLaws::vsize_below))]
pub fn fee_rises()
    ensures fee { (r s a b : ℕ) → r ≤ s → a ≤ b → fee_of r a ≤ fee_of s b }
    ensures vsize { (a b : ℕ) → a ≤ b → vsize_of a ≤ vsize_of b }
{}

/// The law of parts: a whole has no higher fee than its two parts have together, and no larger virtual size.
#[tactic(auto, using(crate::proofs::FeeLaws::fee_parts, crate::proofs::FeeLaws::vsize_parts))]
pub fn fee_splits()
    ensures fee { (r a b : ℕ) → fee_of r (a + b) ≤ fee_of r a + fee_of r b }
    ensures vsize { (a b : ℕ) → vsize_of (a + b) ≤ vsize_of a + vsize_of b }
{}

/// The law of a payment's parts: a payment whose parts each pay their own fee pays that of its whole weight. Without
/// change the parts are the base and the inputs, and with change also the change output, four weight units a byte.
#[tactic(auto, using(crate::proofs::FeeLaws::payment_parts, crate::proofs::FeeLaws::change_parts))]
pub fn fee_of_parts()
    ensures plain { (r base : ℕ) (weights : List ℕ) →
        input_fee_of r (base + sum weights) ≤ input_fee_of r base + sum_by (input_fee_of r) weights }
    ensures change { (r base size : ℕ) (weights : List ℕ) →
        input_fee_of r (base + sum weights + 4 * size) ≤ input_fee_of r base + sum_by (input_fee_of r) weights + fee_of r size }
{}

/// The law of many parts: a size and others together have no higher fee than each of them by itself.
#[tactic(auto, using(crate::proofs::FeeLaws::sizes_parts))]
pub fn fee_of_all()
    ensures { (r size : ℕ) (sizes : List ℕ) → fee_of r (size + sum sizes) ≤ fee_of r size + sum_by (fee_of r) sizes }
{}

/// The law of output sizes: the size of an output is the length of its text, whatever its value.
#[tactic(auto, using(crate::proofs::CompactLaws::output_text_length))]
pub fn output_text_size()
    ensures { (value : ℕ) (script : List ℕ) → length (to_le_bytes w64 value ++ prefixed script) ≡ output_size_of script }
{}

/// The law of terms: the payments without change and those with one meet with no gap between them, the change that is
/// aimed at is no less than the least one, and a payment without presets chooses a coin. A target above
/// 1,000,000,000,000,000,000 counts as that. The least change is the least amount that is more than its spending costs and
/// no dust. Coins are within a limit exactly where the payment weighs at
/// most 400,000 weight units.
pub fn terms_meet()
    ensures { (r : Rates) (l : PaymentLoad) → TermsAgree r l (terms_of r l) }
{}

//! What the faults of a transaction's text say of the text.

ghost use Rattle.std.specs.Prelude.{◌≡◌, ℕ, List, ◌++◌, Err};
ghost use Rattle.tx_codec.specs.Truncation.{IsCut, BeginsNone, IsPart, IsCutOff};
ghost use Rattle.tx_codec.specs.Reading.{tx_at, legacy_tx_at};
ghost use Rattle.tx_codec.specs.TransactionText.{IsLegacy, IsTransaction};
ghost use Rattle.tx_codec.specs.declared.fault.TxFault.{TxFault};

/// The law of faults: [`crate::TxFault::Truncated`] stands for missing bytes, and each other fault for wrong ones. A
/// transaction's text whose last part is missing is Truncated. Where the fault is another, no text that begins with the
/// bytes begins with a transaction, and whatever stands after them, the fault is the same. A call does nothing.
pub fn faults_are_final()
    ensures part { (bytes : List ℕ) → IsPart IsTransaction bytes → IsCutOff (tx_at (record { rest = bytes; place = 0 })) }
    ensures none { (bytes : List ℕ) (fault : TxFault) → tx_at (record { rest = bytes; place = 0 }) ≡ Err fault → (IsCut fault → ⊥) → BeginsNone IsTransaction bytes }
    ensures same { (bytes more : List ℕ) (fault : TxFault) → tx_at (record { rest = bytes; place = 0 }) ≡ Err fault → (IsCut fault → ⊥) → tx_at (record { rest = bytes ++ more; place = 0 }) ≡ Err fault }
{}

/// The law of faults, of transactions in the legacy form. A call does nothing.
pub fn legacy_faults_are_final()
    ensures part { (bytes : List ℕ) → IsPart IsLegacy bytes → IsCutOff (legacy_tx_at (record { rest = bytes; place = 0 })) }
    ensures none { (bytes : List ℕ) (fault : TxFault) → legacy_tx_at (record { rest = bytes; place = 0 }) ≡ Err fault → (IsCut fault → ⊥) → BeginsNone IsLegacy bytes }
    ensures same { (bytes more : List ℕ) (fault : TxFault) → legacy_tx_at (record { rest = bytes; place = 0 }) ≡ Err fault → (IsCut fault → ⊥) → legacy_tx_at (record { rest = bytes ++ more; place = 0 }) ≡ Err fault }
{}

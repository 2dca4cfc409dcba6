//! Laws of the faults of transactions. A call of any of them does nothing.

ghost use Rattle.std.specs.Prelude.{ℕ, ◌≡◌, ◌⊎◌, ◌↔◌, List, Err};
ghost use Rattle.fund_base.specs.Cursor.{At, IsBytes};
ghost use Rattle.fund_base.specs.Parsing.{whole_of};
ghost use Rattle.tx_codec.specs.Reading.{tx_at, legacy_tx_at};
ghost use Rattle.tx_codec.specs.Transaction.{Transaction};
ghost use Rattle.tx_codec.specs.TransactionText.{IsTransaction, text_of};
ghost use Rattle.tx_codec.specs.declared.fault.TxFault.{TxFault};
ghost use Rattle.tx_codec.specs.declared.fault.TxFault.TheVariants.{Trailing};
ghost use Rattle.tx_laws.specs.First.{IsTxFault, IsTxFaultFrom, IsLegacyFault};

/// The law of a transaction's faults: reading has a fault exactly where the first field that isn't as it must be has it.
/// Which fields come behind which bytes, and what each must be, is said of the bytes alone.
pub fn judges_transaction_fields()
    ensures front { (at : At) (fault : TxFault) → IsBytes at.rest → (tx_at at ≡ Err fault) ↔ IsTxFaultFrom at.place at.rest fault }
    ensures whole { (bytes : List ℕ) (fault : TxFault) → IsBytes bytes → (whole_of Trailing (tx_at (record { rest = bytes; place = 0 })) ≡ Err fault) ↔ IsTxFault bytes fault }
    ensures legacy { (bytes : List ℕ) (fault : TxFault) → IsBytes bytes → (whole_of Trailing (legacy_tx_at (record { rest = bytes; place = 0 })) ≡ Err fault) ↔ IsLegacyFault bytes fault }
{}

/// The law of one verdict: any bytes are the text of a transaction or have a fault, never both, and never two faults. It
/// speaks of no reader. A call does nothing.
pub fn texts_have_one_verdict()
    ensures either { (bytes : List ℕ) → IsBytes bytes → ((tx : Transaction) × IsTransaction tx × (bytes ≡ text_of tx)) ⊎ ((fault : TxFault) × IsTxFault bytes fault) }
    ensures never_both { (bytes : List ℕ) (tx : Transaction) (fault : TxFault) → IsBytes bytes → IsTransaction tx → bytes ≡ text_of tx → IsTxFault bytes fault → ⊥ }
    ensures one { (bytes : List ℕ) (first second : TxFault) → IsBytes bytes → IsTxFault bytes first → IsTxFault bytes second → first ≡ second }
{}

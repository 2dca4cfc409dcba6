//! Laws of the faults of PSBTs. A call of any of them does nothing.

ghost use Rattle.std.specs.Prelude.{ℕ, ◌≡◌, ◌⊎◌, ◌↔◌, List, Err};
ghost use Rattle.fund_base.specs.Cursor.{IsBytes};
ghost use Rattle.psbt_codec.specs.PartialTransaction.{PartialTransaction};
ghost use Rattle.psbt_codec.specs.Psbt.{IsReadable};
ghost use Rattle.psbt_codec.specs.Reading.{read_of};
ghost use Rattle.psbt_codec.specs.declared.fault.PsbtFault.{PsbtFault};
ghost use Rattle.psbt_laws.specs.First.{IsPsbtFault};

/// The law of a PSBT's faults: reading has a fault exactly where the first field that isn't as it must be has it. Which
/// fields come behind which bytes, and what each must be, is said of the bytes alone.
pub fn judges_psbt_fields()
    ensures fault { (bytes : List ℕ) (fault : PsbtFault) → IsBytes bytes → (read_of bytes ≡ Err fault) ↔ IsPsbtFault bytes fault }
{}

/// The law of one verdict: any bytes are a PSBT of some payment or have a fault, never both, and never two faults. It
/// speaks of no reader. A call does nothing.
pub fn psbts_have_one_verdict()
    ensures either { (bytes : List ℕ) → IsBytes bytes → ((p : PartialTransaction) × IsReadable bytes p) ⊎ ((fault : PsbtFault) × IsPsbtFault bytes fault) }
    ensures never_both { (bytes : List ℕ) (p : PartialTransaction) (fault : PsbtFault) → IsBytes bytes → IsReadable bytes p → IsPsbtFault bytes fault → ⊥ }
    ensures one { (bytes : List ℕ) (first second : PsbtFault) → IsBytes bytes → IsPsbtFault bytes first → IsPsbtFault bytes second → first ≡ second }
{}

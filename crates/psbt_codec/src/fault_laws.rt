//! What the faults of a PSBT's bytes say of the bytes.

ghost use Rattle.std.specs.Prelude.{◌≡◌, ℕ, List, ◌++◌, Err};
ghost use Rattle.psbt_codec.specs.Truncation.{IsCut, BeginsNone, IsPart, IsCutOff};
ghost use Rattle.psbt_codec.specs.Reading.{read_of};
ghost use Rattle.psbt_codec.specs.declared.fault.PsbtFault.{PsbtFault};

/// The law of faults: [`crate::PsbtFault::Truncated`] stands for missing bytes, as does [`crate::PsbtFault::Magic`]
/// where the bytes are a first part of the magic, and each other fault for wrong ones. The bytes of a PSBT whose last
/// part is missing have one of these two. Where the fault is another, no bytes that begin with these are a PSBT, and
/// whatever stands after them, the fault is the same. A call does nothing.
pub fn faults_are_final()
    ensures part { (bytes : List ℕ) → IsPart bytes → IsCutOff bytes (read_of bytes) }
    ensures none { (bytes : List ℕ) (fault : PsbtFault) → read_of bytes ≡ Err fault → (IsCut bytes fault → ⊥) → BeginsNone bytes }
    ensures same { (bytes more : List ℕ) (fault : PsbtFault) → read_of bytes ≡ Err fault → (IsCut bytes fault → ⊥) → read_of (bytes ++ more) ≡ Err fault }
{}

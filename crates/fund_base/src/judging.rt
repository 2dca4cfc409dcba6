//! The law of the faults of a CompactSize.

ghost use Rattle.std.specs.Prelude.{◌≡◌, ◌⊎◌, ◌↔◌, Err};
ghost use Rattle.fund_base.specs.CompactSize.{IsCut, IsLong};
ghost use Rattle.fund_base.specs.Cursor.{At, IsBytes, compact_at};
ghost use Rattle.fund_base.specs.declared.cursor.CutFault.{CutFault};
ghost use Rattle.fund_base.specs.declared.cursor.CutFault.TheVariants.{Truncated, LongCompact};

/// The law of the faults of [`Cursor::compact`](crate::Cursor::compact), told by spellings. It is refused as cut off
/// exactly where the bytes that are left end within a spelling, and as long exactly where they begin with one that isn't
/// the shortest of its number. It has no other fault, and each lies where the number begins. A call does nothing.
pub fn judges_compact()
    ensures truncated { (at : At) → IsBytes at.rest → (compact_at at ≡ Err (Truncated at.place)) ↔ IsCut at.rest }
    ensures long { (at : At) → IsBytes at.rest → (compact_at at ≡ Err (LongCompact at.place)) ↔ IsLong at.rest }
    ensures others { (at : At) (fault : CutFault) → IsBytes at.rest → compact_at at ≡ Err fault → (fault ≡ Truncated at.place) ⊎ (fault ≡ LongCompact at.place) }
{}

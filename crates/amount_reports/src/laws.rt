//! What holds of these reports and their texts, whatever the code does.

ghost use Rattle.std.specs.Prelude.{◌≡◌, ℕ, List};
ghost use Rattle.amount_reports.specs.SharedText.{IsSharedText, PlainShared};
ghost use Rattle.amount_reports.specs.SweptText.{IsSweptText, PlainSwept};

/// The law of texts: a text has one report of each kind. A call does nothing.
pub fn texts_have_one_report()
    ensures swept { (bytes : List ℕ) (a b : PlainSwept) → IsSweptText bytes a → IsSweptText bytes b → a ≡ b }
    ensures shared { (bytes : List ℕ) (a b : PlainShared) → IsSharedText bytes a → IsSharedText bytes b → a ≡ b }
{}

//! What holds of reports by the wide search, whatever the code does.

ghost use Rattle.std.specs.Prelude.{◌≡◌, ℕ, List};
ghost use Rattle.fund_report.specs.PlainFunded.{PlainFunded};
ghost use Rattle.wide_report.specs.WideText.{IsWideText};

/// The law of reports by the wide search: a text is the report of one payment. A call does nothing.
pub fn wide_texts_have_one_payment()
    ensures { (bytes : List ℕ) (a b : PlainFunded) → IsWideText bytes a → IsWideText bytes b → a ≡ b }
{}

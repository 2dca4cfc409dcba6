//! What holds of logs and their texts, whatever the code does.

ghost use Rattle.std.specs.Prelude.{◌≡◌, ℕ, List};
ghost use Rattle.closing_log.specs.Exact.{IsFirstFault};
ghost use Rattle.closing_log.specs.Log.{PlainLog};
ghost use Rattle.closing_log.specs.LogText.{CanBeWritten, IsCount, IsLogText, IsSized, text_of};

/// A text has one log; and what is written of a log that can be written is a text of it.
pub fn texts_have_one_log()
    ensures one { (bytes : List ℕ) (a b : PlainLog) → IsLogText bytes a → IsLogText bytes b → a ≡ b }
    ensures written { (log : PlainLog) → CanBeWritten log → IsSized log → IsLogText (text_of log) log }
    ensures can { (bytes : List ℕ) (log : PlainLog) → IsLogText bytes log → CanBeWritten log }
{}

/// Bytes leave the texts at one place, and so many sections stand before it.
pub fn faults_have_one_place()
    ensures place { (bytes : List ℕ) (p q : ℕ) → IsFirstFault IsLogText bytes p → IsFirstFault IsLogText bytes q → p ≡ q }
    ensures count { (bytes : List ℕ) (place m n : ℕ) → IsCount bytes place m → IsCount bytes place n → m ≡ n }
{}

//! Laws of PSBT files that are made whole. A call of any of them does nothing.

ghost use Rattle.std.specs.Prelude.{◌≡◌, ℕ, List};
ghost use Rattle.coin_book.specs.History.{History};
ghost use Rattle.command_end.specs.Names.{Sources};
ghost use Rattle.command_complete.specs.Outcome.{ComesTo, Outcome};
ghost use Rattle.command_complete.specs.Made.{IsCompletedFile};
ghost use Rattle.command_complete.specs.Numbers.{HasNumbers};
ghost use Rattle.command_complete.specs.Words.{refusal_words};
ghost use Rattle.command_complete.specs.declared.stop.Refusal.{Refusal};

/// The law of outcomes: the files of a PSBT come to one outcome at most, so that a refusal with its cause and a PSBT made whole
/// shut each other out.
pub fn completions_have_one_outcome()
    ensures { (files : List ℕ → List ℕ) (s : Sources) (name : List ℕ) (a b : Outcome) → ComesTo files s name a → ComesTo files s name b → a ≡ b }
{}

/// The law of repeats: what is printed of a PSBT made whole is a PSBT file that is made whole as itself, from whatever book, and
/// as nothing else.
pub fn completed_files_stay()
    ensures stays { (h g : History) (file text : List ℕ) → IsCompletedFile h file text → IsCompletedFile g text text }
    ensures same { (h g : History) (file text other : List ℕ) → IsCompletedFile h file text → IsCompletedFile g text other → other ≡ text }
{}

/// The law of the words of refusals: two that are printed alike are the same, with the same fields. It asks that their numbers
/// have 128 bits at most, and their hashes 32 bytes, as those of every refusal do.
pub fn refusals_are_told_apart()
    ensures { (a b : Refusal) → HasNumbers a → HasNumbers b → refusal_words a ≡ refusal_words b → a ≡ b }
{}

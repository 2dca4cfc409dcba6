//! What holds of saved positions and their texts, whatever the code does.

ghost use Rattle.std.specs.Prelude.{◌≡◌, ℕ, List};
ghost use Rattle.closing_log.specs.Exact.{IsFirstFault};
ghost use Rattle.pick_problem.specs.Problem.{IsProblem, PlainProblem};
ghost use Rattle.pick_problem.specs.Standing.{position_of};
ghost use Rattle.pick_problem.specs.Walk.{walk};
ghost use Rattle.search_keep.specs.Resumed.{CanStand, IsSavedWalk, open_position};
ghost use Rattle.search_keep.specs.SavedText.{CanBeSaved, HasNumbers, IsSavedText, IsSized, PlainSaved, text_of};

/// A text has one position; and what is written of a position that can be saved is a text of it.
pub fn texts_have_one_position()
    ensures one { (bytes : List ℕ) (a b : PlainSaved) → IsSavedText bytes a → IsSavedText bytes b → a ≡ b }
    ensures written { (saved : PlainSaved) → CanBeSaved saved → IsSized saved → IsSavedText (text_of saved) saved }
    ensures can { (bytes : List ℕ) (saved : PlainSaved) → IsSavedText bytes saved → CanBeSaved saved }
    ensures numbers { (bytes : List ℕ) (saved : PlainSaved) → IsSavedText bytes saved → HasNumbers saved }
{}

/// Bytes leave the texts at one place.
pub fn faults_have_one_place()
    ensures { (bytes : List ℕ) (p q : ℕ) → IsFirstFault IsSavedText bytes p → IsFirstFault IsSavedText bytes q → p ≡ q }
{}

/// What is saved of a search after n tries from its start, which isn't done, with its letters: taken as an open position
/// it is where the search stood, and a search of the problem may stand there.
pub fn saved_walks_can_go_on()
    ensures position { (saved : PlainSaved) (p : PlainProblem) (letters : List ℕ) (n : ℕ) →
        IsSavedWalk saved letters (walk p n) → open_position saved letters ≡ position_of (walk p n) }
    ensures can { (saved : PlainSaved) (p : PlainProblem) (letters : List ℕ) (n : ℕ) → IsProblem p →
        IsSavedWalk saved letters (walk p n) → CanStand saved p letters }
{}

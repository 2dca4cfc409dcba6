//! Laws of whole logs of one wide search, and of their pieces. A call of any of them does nothing.

ghost use Rattle.std.specs.Prelude.{◌≡◌, ◌↔◌, ◌⊎◌, ℕ, List, Option};
ghost use Rattle.std.specs.List.{concat};
ghost use Rattle.wide_check.specs.Feeding.{EndsWell, PlainWideChecker, Takes, begun, fed};
ghost use Rattle.wide_check.specs.Sections.{LettersHave, PiecesEndWell, PiecesHave, SectionHas};
ghost use Rattle.wide_check.specs.declared.fault.WideFault.{WideFault};
ghost use Rattle.wide_check.specs.Wide.{IsWideFit, IsWideProblem};
ghost use Rattle.wide_check.specs.WideLetters.{IsWideAcceptedText};
ghost use Rattle.pick_problem.specs.Problem.{PlainProblem};

/// The law of checkers: one accepts exactly the logs that are accepted. `new` returns a checker for the answer, `feed` takes
/// all letters, and `end` finds all well. Any other log has one fault, and a log that is accepted has none; `AnswerNotMet`
/// never comes.
pub fn wide_sections_are_judged()
    ensures accepted { (p : PlainProblem) (answer : Option (List ℕ)) (letters : List ℕ) →
        (IsWideAcceptedText p answer letters ↔ (IsWideFit p answer × Takes (begun p answer) letters × EndsWell (fed (begun p answer) letters))) }
    ensures apart { (p : PlainProblem) (answer : Option (List ℕ)) (letters : List ℕ) (f : WideFault) →
        IsWideAcceptedText p answer letters → SectionHas p answer letters f → ⊥ }
    ensures one { (p : PlainProblem) (answer : Option (List ℕ)) (letters : List ℕ) (f g : WideFault) →
        SectionHas p answer letters f → SectionHas p answer letters g → f ≡ g }
    ensures some { (p : PlainProblem) (answer : Option (List ℕ)) (letters : List ℕ) →
        IsWideAcceptedText p answer letters ⊎ ((f : WideFault) × SectionHas p answer letters f) }
    ensures met { (p : PlainProblem) (answer : Option (List ℕ)) (letters : List ℕ) →
        IsWideProblem p → SectionHas p answer letters WideFault.AnswerNotMet → ⊥ }
{}

/// The law of pieces: however a log is cut, `feed` of each piece and `end` answer Ok exactly where the whole log is
/// accepted, and else with the fault of the whole, at its place since the start.
pub fn wide_pieces_are_the_whole()
    ensures accepted { (p : PlainProblem) (answer : Option (List ℕ)) (pieces : List (List ℕ)) →
        ((IsWideFit p answer × PiecesEndWell (begun p answer) pieces) ↔ IsWideAcceptedText p answer (concat pieces)) }
    ensures fault { (c : PlainWideChecker) (pieces : List (List ℕ)) (f : WideFault) →
        (PiecesHave c pieces f ↔ LettersHave c (concat pieces) f) }
{}

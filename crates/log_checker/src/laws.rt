//! Laws of sections, which are whole logs of one search, and of their pieces. A call of any of them does nothing.

ghost use Rattle.std.specs.Prelude.{◌≡◌, ◌↔◌, ◌⊎◌, ℕ, List, Option};
ghost use Rattle.std.specs.List.{concat};
ghost use Rattle.log_checker.specs.Feeding.{EndsWell, PlainChecker, Takes, begun, fed};
ghost use Rattle.log_checker.specs.Sections.{LettersHave, PiecesEndWell, PiecesHave, SectionHas};
ghost use Rattle.log_checker.specs.declared.fault.LogFault.{LogFault};
ghost use Rattle.pick_problem.specs.Admissible.{IsFit};
ghost use Rattle.pick_problem.specs.Letters.{IsAcceptedText};
ghost use Rattle.pick_problem.specs.Problem.{IsProblem, PlainProblem};

/// The law of checkers: one accepts exactly the logs that are accepted. It can be made for the answer, `feed` takes all
/// letters, and `end` finds all well. Any other log has one fault, and a log that is accepted has none; and that an
/// answer wasn't met is never the fault.
pub fn sections_are_judged()
    ensures accepted { (p : PlainProblem) (answer : Option (List ℕ)) (letters : List ℕ) →
        (IsAcceptedText p answer letters ↔ (IsFit p answer × Takes (begun p answer) letters × EndsWell (fed (begun p answer) letters))) }
    ensures apart { (p : PlainProblem) (answer : Option (List ℕ)) (letters : List ℕ) (f : LogFault) →
        IsAcceptedText p answer letters → SectionHas p answer letters f → ⊥ }
    ensures one { (p : PlainProblem) (answer : Option (List ℕ)) (letters : List ℕ) (f g : LogFault) →
        SectionHas p answer letters f → SectionHas p answer letters g → f ≡ g }
    ensures some { (p : PlainProblem) (answer : Option (List ℕ)) (letters : List ℕ) →
        IsAcceptedText p answer letters ⊎ ((f : LogFault) × SectionHas p answer letters f) }
    ensures met { (p : PlainProblem) (answer : Option (List ℕ)) (letters : List ℕ) →
        IsProblem p → SectionHas p answer letters LogFault.AnswerNotMet → ⊥ }
{}

/// The law of pieces: however a log is cut, `feed` of each piece and `end` answer Ok exactly where the whole log is
/// accepted, and else with the fault of the whole, at its place since the start.
pub fn pieces_are_the_whole()
    ensures accepted { (p : PlainProblem) (answer : Option (List ℕ)) (pieces : List (List ℕ)) →
        ((IsFit p answer × PiecesEndWell (begun p answer) pieces) ↔ IsAcceptedText p answer (concat pieces)) }
    ensures fault { (c : PlainChecker) (pieces : List (List ℕ)) (f : LogFault) →
        (PiecesHave c pieces f ↔ LettersHave c (concat pieces) f) }
{}

//! Laws of the letters of a closing log, which may be any bytes, and of acceptance by steps. A call of any of them does
//! nothing.

ghost use Rattle.std.specs.Prelude.{◌≡◌, ◌↔◌, ◌++◌, ℕ, true, List, Option};
ghost use Rattle.pick_problem.specs.ClosingTree.{IsAccepted, IsAnswered};
ghost use Rattle.pick_problem.specs.Letters.{AreTaken, IsAcceptedText, StopsAt, led, letters_of, read};
ghost use Rattle.pick_problem.specs.Problem.{PlainProblem};
ghost use Rattle.pick_problem.specs.Steps.{AreAllowed, State, after_all, root};
ghost use Rattle.pick_problem.specs.declared.token.Token.{Token};

/// Letters in pieces: two pieces are taken together exactly where the first one is, and the second one from where it
/// leads; and together they lead to where the second leads from there. Bytes are taken exactly where they are the
/// letters of tokens whose steps are all allowed.
pub fn letters_in_pieces()
    ensures taken { (p : PlainProblem) (answer : Option (List ℕ)) (s : State) (xs ys : List ℕ) →
        (AreTaken p answer s (xs ++ ys) ↔ (AreTaken p answer s xs × AreTaken p answer (led p answer s xs) ys)) }
    ensures leads { (p : PlainProblem) (answer : Option (List ℕ)) (s : State) (xs ys : List ℕ) →
        led p answer s (xs ++ ys) ≡ led p answer (led p answer s xs) ys }
    ensures tokens { (p : PlainProblem) (answer : Option (List ℕ)) (s : State) (letters : List ℕ) →
        (AreTaken p answer s letters ↔ ((letters ≡ letters_of (read letters)) × AreAllowed p answer s (read letters))) }
{}

/// Letters stop at one place: the first that isn't taken is determined by what stands before it. Those that are taken
/// don't stop.
pub fn letters_stop_once()
    ensures one { (p : PlainProblem) (answer : Option (List ℕ)) (s : State) (letters : List ℕ) (x y : StopsAt p answer s letters) →
        (x.front ≡ y.front) × (x.letter ≡ y.letter) }
    ensures taken { (p : PlainProblem) (answer : Option (List ℕ)) (s : State) (letters : List ℕ) →
        AreTaken p answer s letters → StopsAt p answer s letters → ⊥ }
{}

/// A log is accepted exactly where from the root all its steps are allowed, they close the tree, and an answer is
/// admissible and was met. The same of the letters that write it.
pub fn accepted_by_steps()
    ensures tokens { (p : PlainProblem) (answer : Option (List ℕ)) (tokens : List Token) →
        (IsAccepted p answer tokens ↔ (AreAllowed p answer root tokens × ((after_all p answer root tokens).closed ≡ true) × IsAnswered p answer (after_all p answer root tokens).met)) }
    ensures letters { (p : PlainProblem) (answer : Option (List ℕ)) (letters : List ℕ) →
        (IsAcceptedText p answer letters ↔ (AreTaken p answer root letters × ((led p answer root letters).closed ≡ true) × IsAnswered p answer (led p answer root letters).met)) }
{}

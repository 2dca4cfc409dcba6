//! Laws of wide trees, and of their steps and letters. A call of any of them does nothing.

ghost use Rattle.std.specs.Prelude.{◌≡◌, ◌↔◌, ◌++◌, ℕ, true, Bool, List, Option};
ghost use Rattle.pick_problem.specs.Problem.{PlainProblem};
ghost use Rattle.wide_check.specs.Wide.{IsWide, IsWideBest, IsWideProblem};
ghost use Rattle.wide_check.specs.WideLetters.{AreTaken, IsWideAcceptedText, StopsAt, led, letters_of, read};
ghost use Rattle.wide_check.specs.WideSoFar.{SoFar};
ghost use Rattle.wide_check.specs.WideSteps.{AreAllowed, IsAllowed, IsClosedBySteps, WideState, after, after_all, root};
ghost use Rattle.wide_check.specs.WideTree.{IsAnswered, IsRootTree, IsWideAccepted};
ghost use Rattle.wide_check.specs.declared.token.WideToken.{WideToken};

/// The law of steps: from the root the steps of the tokens are all allowed, and the last one closes the tree, exactly
/// where the tokens are the root's tree; and both meet the answer, or neither does.
pub fn law_of_wide_steps()
    ensures { (p : PlainProblem) (answer : Option (List ℕ)) (tokens : List WideToken) (met : Bool) →
        (IsClosedBySteps p answer tokens met ↔ IsRootTree p answer tokens met) }
{}

/// Soundness: the answer of a log that is accepted is the best, and without an answer there is no selection.
pub fn wide_accepted_is_best()
    ensures { (p : PlainProblem) (answer : Option (List ℕ)) (tokens : List WideToken) →
        IsWideProblem p → IsWideAccepted p answer tokens → IsWideBest p answer }
{}

/// What each allowed step keeps, from the root on: each selection is beaten by the answer, or still lies in the open part;
/// then, if the answer was met, it comes after it. So after a closed tree an answer that is a selection was met, and is the
/// best.
pub fn wide_steps_keep_what_is_known()
    ensures begins { (p : PlainProblem) (answer : Option (List ℕ)) → SoFar p answer root }
    ensures steps { (p : PlainProblem) (answer : Option (List ℕ)) (s : WideState) (token : WideToken) →
        IsWideProblem p → IsAllowed p answer s token → SoFar p answer s → SoFar p answer (after p answer s token) }
    ensures ends { (p : PlainProblem) (answer : Option (List ℕ)) (s : WideState) →
        s.closed ≡ true → SoFar p answer s → IsAnswered p answer s.met → IsWideBest p answer }
    ensures met { (p : PlainProblem) (best : List ℕ) (s : WideState) →
        s.closed ≡ true → SoFar p (Some best) s → IsWide p best → s.met ≡ true }
{}

/// Letters in pieces: two pieces joined are taken exactly where the first is taken, and the second from where it leads. They
/// end where the second ends. Bytes are taken exactly where they are the
/// letters of tokens whose steps are all allowed.
pub fn wide_letters_in_pieces()
    ensures taken { (p : PlainProblem) (answer : Option (List ℕ)) (s : WideState) (xs ys : List ℕ) →
        (AreTaken p answer s (xs ++ ys) ↔ (AreTaken p answer s xs × AreTaken p answer (led p answer s xs) ys)) }
    ensures leads { (p : PlainProblem) (answer : Option (List ℕ)) (s : WideState) (xs ys : List ℕ) →
        led p answer s (xs ++ ys) ≡ led p answer (led p answer s xs) ys }
    ensures tokens { (p : PlainProblem) (answer : Option (List ℕ)) (s : WideState) (letters : List ℕ) →
        (AreTaken p answer s letters ↔ ((letters ≡ letters_of (read letters)) × AreAllowed p answer s (read letters))) }
{}

/// Letters stop at one place: the first that isn't taken is determined by what stands before it. Those that are taken
/// don't stop.
pub fn wide_letters_stop_once()
    ensures one { (p : PlainProblem) (answer : Option (List ℕ)) (s : WideState) (letters : List ℕ) (x y : StopsAt p answer s letters) →
        (x.front ≡ y.front) × (x.letter ≡ y.letter) }
    ensures taken { (p : PlainProblem) (answer : Option (List ℕ)) (s : WideState) (letters : List ℕ) →
        AreTaken p answer s letters → StopsAt p answer s letters → ⊥ }
{}

/// A log is accepted exactly where from the root all its steps are allowed, they close the tree, and an answer is a
/// selection and was met. The same of the letters that write it.
pub fn accepted_by_wide_steps()
    ensures tokens { (p : PlainProblem) (answer : Option (List ℕ)) (tokens : List WideToken) →
        (IsWideAccepted p answer tokens ↔ (AreAllowed p answer root tokens × ((after_all p answer root tokens).closed ≡ true) × IsAnswered p answer (after_all p answer root tokens).met)) }
    ensures letters { (p : PlainProblem) (answer : Option (List ℕ)) (letters : List ℕ) →
        (IsWideAcceptedText p answer letters ↔ (AreTaken p answer root letters × ((led p answer root letters).closed ≡ true) × IsAnswered p answer (led p answer root letters).met)) }
{}

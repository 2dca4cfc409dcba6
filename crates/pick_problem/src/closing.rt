//! Laws of closing trees and of the walk. A call of any of them does nothing.

ghost use Rattle.std.specs.Prelude.{◌≡◌, ◌↔◌, ◌+◌, ◌*◌, ◌^◌, ◌<◌, ◌≤◌, ℕ, Bool, true, false, List, ◌++◌, length, Option};
ghost use Rattle.pick_problem.specs.Admissible.{IsAdmissible};
ghost use Rattle.pick_problem.specs.Best.{IsBest};
ghost use Rattle.pick_problem.specs.ClosingTree.{IsAccepted, IsAnswered, IsRootTree};
ghost use Rattle.pick_problem.specs.Problem.{IsProblem, PlainProblem};
ghost use Rattle.pick_problem.specs.SoFar.{SoFar};
ghost use Rattle.pick_problem.specs.Steps.{AreAllowed, IsAllowed, IsClosedBySteps, State, after, root};
ghost use Rattle.pick_problem.specs.Walk.{IsPosition, Walk, after_tries, start, walk};
ghost use Rattle.pick_problem.specs.declared.token.Token.{Token};

/// The law of steps: from the root the steps of the tokens are all allowed, and the last one closes the tree, exactly
/// where the tokens are the root's tree; and the answer is met by the one where it is met by the other.
pub fn law_of_steps()
    ensures { (p : PlainProblem) (answer : Option (List ℕ)) (tokens : List Token) (met : Bool) →
        (IsClosedBySteps p answer tokens met ↔ IsRootTree p answer tokens met) }
{}

/// Soundness: the answer of a log that is accepted is the best, and without an answer no selection is admissible.
pub fn accepted_is_best()
    ensures { (p : PlainProblem) (answer : Option (List ℕ)) (tokens : List Token) →
        IsProblem p → IsAccepted p answer tokens → IsBest p answer }
{}

/// Tries in pieces are tries: n tries and then m more are n + m tries, from wherever a walk stands, and so from the
/// start. A walk that is done stays as it is, and one that isn't has made each try. Tries only append tokens.
pub fn tries_add_up()
    ensures anywhere { (p : PlainProblem) (w : Walk) (n m : ℕ) →
        after_tries p (after_tries p w n) m ≡ after_tries p w (n + m) }
    ensures start { (p : PlainProblem) (n m : ℕ) → after_tries p (walk p n) m ≡ walk p (n + m) }
    ensures done { (p : PlainProblem) (w : Walk) (n : ℕ) → w.done ≡ true → after_tries p w n ≡ w }
    ensures made { (p : PlainProblem) (w : Walk) (n : ℕ) →
        (after_tries p w n).done ≡ false → (after_tries p w n).tries ≡ w.tries + n }
    ensures appends { (p : PlainProblem) (w : Walk) (n : ℕ) →
        (more : List Token) × ((after_tries p w n).tokens ≡ w.tokens ++ more) }
{}

/// What each allowed step keeps, from the root on: every admissible selection is still open, and comes after the answer
/// where that was met, or the answer beats it. So after a closed tree an admissible answer was met, and is the best.
pub fn steps_keep_what_is_known()
    ensures begins { (p : PlainProblem) (answer : Option (List ℕ)) → IsProblem p → SoFar p answer root }
    ensures steps { (p : PlainProblem) (answer : Option (List ℕ)) (s : State) (token : Token) →
        IsProblem p → IsAllowed p answer s token → SoFar p answer s → SoFar p answer (after p answer s token) }
    ensures ends { (p : PlainProblem) (answer : Option (List ℕ)) (s : State) →
        IsProblem p → s.closed ≡ true → SoFar p answer s → IsAnswered p answer s.met → IsBest p answer }
    ensures met { (p : PlainProblem) (best : List ℕ) (s : State) →
        IsProblem p → s.closed ≡ true → SoFar p (Some best) s → IsAdmissible p best → s.met ≡ true }
{}

/// Completeness: the tokens of a walk from the start that is done are accepted with its best, which is the best; it
/// has none only where no selection is admissible. After any number of tries the tokens are steps that are allowed for
/// the best so far.
pub fn finished_is_accepted()
    ensures accepted { (p : PlainProblem) (n : ℕ) →
        IsProblem p → (walk p n).done ≡ true → IsAccepted p (walk p n).best (walk p n).tokens }
    ensures so_far { (p : PlainProblem) (n : ℕ) →
        IsProblem p → AreAllowed p (walk p n).best root (walk p n).tokens }
    ensures best { (p : PlainProblem) (n : ℕ) → IsProblem p → (walk p n).done ≡ true → IsBest p (walk p n).best }
{}

/// From where a walk may stand, a try leads to where it may stand, and each walk begins so.
pub fn positions_stay()
    ensures start { (p : PlainProblem) → IsProblem p → IsPosition p (start p) }
    ensures tries { (p : PlainProblem) (w : Walk) (n : ℕ) →
        IsProblem p → IsPosition p w → IsPosition p (after_tries p w n) }
{}

/// What a walk writes and takes at most: from the start n tries write at most 3 n + 1 tokens, and from anywhere two
/// more for each chosen place; a pool of k items takes fewer than 2^k tries, and with 2^k - 1 granted it is done.
pub fn walks_are_bounded()
    ensures tokens { (p : PlainProblem) (n : ℕ) → length (walk p n).tokens ≤ 3 * n + 1 }
    ensures more { (p : PlainProblem) (w : Walk) (n : ℕ) →
        length (after_tries p w n).tokens ≤ length w.tokens + 2 * length w.stack + 3 * n + 1 }
    ensures tries { (p : PlainProblem) (n : ℕ) → IsProblem p → (walk p n).tries < 2 ^ length p.items }
    ensures ends { (p : PlainProblem) (n : ℕ) →
        IsProblem p → 2 ^ length p.items ≤ n + 1 → (walk p n).done ≡ true }
{}

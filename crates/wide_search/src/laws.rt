//! Laws of the walk of a wide search. A call of any of them does nothing.

ghost use Rattle.std.specs.Prelude.{◌≡◌, ◌+◌, ◌*◌, ◌^◌, ◌<◌, ◌≤◌, ℕ, true, false, List, ◌++◌, length};
ghost use Rattle.pick_problem.specs.Problem.{PlainProblem};
ghost use Rattle.wide_check.specs.Wide.{IsWideBest, IsWideFit, IsWideProblem};
ghost use Rattle.wide_check.specs.WideSteps.{AreAllowed, root};
ghost use Rattle.wide_check.specs.WideTree.{IsWideAccepted};
ghost use Rattle.wide_check.specs.declared.token.WideToken.{WideToken};
ghost use Rattle.wide_search.specs.WideWalk.{Walk, after_tries, walk};

/// The law of finished walks: once a walk from the start is done, its best is the best of all lists in the window (see
/// [`crate::Wide`]), or it has none and there is none. Its tokens are then accepted with that. After any number of tries the tokens are steps that
/// are allowed for the best so far, which is a list in the window.
pub fn wide_finished_is_accepted()
    ensures accepted { (p : PlainProblem) (n : ℕ) →
        IsWideProblem p → (walk p n).done ≡ true → IsWideAccepted p (walk p n).best (walk p n).tokens }
    ensures so_far { (p : PlainProblem) (n : ℕ) →
        IsWideProblem p → AreAllowed p (walk p n).best root (walk p n).tokens }
    ensures fit { (p : PlainProblem) (n : ℕ) → IsWideProblem p → IsWideFit p (walk p n).best }
    ensures best { (p : PlainProblem) (n : ℕ) →
        IsWideProblem p → (walk p n).done ≡ true → IsWideBest p (walk p n).best }
{}

/// The law of pieces: n tries and then m more are n + m tries, from wherever a walk stands, and so from the start. A walk
/// that is done stays as it is, and one that isn't has made each try. Tries only append tokens.
pub fn wide_tries_add_up()
    ensures anywhere { (p : PlainProblem) (w : Walk) (n m : ℕ) →
        after_tries p (after_tries p w n) m ≡ after_tries p w (n + m) }
    ensures start { (p : PlainProblem) (n m : ℕ) → after_tries p (walk p n) m ≡ walk p (n + m) }
    ensures done { (p : PlainProblem) (w : Walk) (n : ℕ) → w.done ≡ true → after_tries p w n ≡ w }
    ensures made { (p : PlainProblem) (w : Walk) (n : ℕ) →
        (after_tries p w n).done ≡ false → (after_tries p w n).tries ≡ w.tries + n }
    ensures appends { (p : PlainProblem) (w : Walk) (n : ℕ) →
        (more : List WideToken) × ((after_tries p w n).tokens ≡ w.tokens ++ more) }
{}

/// The law of bounds: from the start n tries write at most 4 n + 1 tokens. That bound holds too with the tries really made
/// as n. A pool of k items takes fewer than 2^k tries, and with 2^k - 1 granted the walk is done.
pub fn wide_walks_are_bounded()
    ensures tokens { (p : PlainProblem) (n : ℕ) → length (walk p n).tokens ≤ 4 * n + 1 }
    ensures made { (p : PlainProblem) (n : ℕ) → length (walk p n).tokens ≤ 4 * (walk p n).tries + 1 }
    ensures tries { (p : PlainProblem) (n : ℕ) → IsWideProblem p → (walk p n).tries < 2 ^ length p.items }
    ensures ends { (p : PlainProblem) (n : ℕ) →
        IsWideProblem p → 2 ^ length p.items ≤ n + 1 → (walk p n).done ≡ true }
{}

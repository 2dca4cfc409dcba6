//! Laws of walks that go on from where another one stood. A call of any of them does nothing.

ghost use Rattle.std.specs.Prelude.{◌≡◌, ◌+◌, ◌-◌, ◌≤◌, ℕ, List};
ghost use Rattle.pick_problem.specs.Problem.{PlainProblem};
ghost use Rattle.pick_problem.specs.Standing.{afresh, grafted, position_of, walk_at};
ghost use Rattle.pick_problem.specs.Walk.{Walk, after_tries};
ghost use Rattle.pick_problem.specs.declared.position.Position.{Position};
ghost use Rattle.pick_problem.specs.declared.token.Token.{Token};

/// A position is all of a walk but its tokens: the walk that stands at a walk's position, with its tokens, is that
/// walk, and it stands at the position whatever its tokens are.
pub fn positions_are_walks()
    ensures walk { (w : Walk) → walk_at (position_of w) w.tokens ≡ w }
    ensures position { (q : Position) (tokens : List Token) → position_of (walk_at q tokens) ≡ q }
{}

/// Tries don't depend on what was written and tried before: after other tokens and tries a walk goes on the same. So
/// what tries append is what they would write afresh, and where they lead from a position is a matter of that alone.
pub fn tries_do_not_look_back()
    ensures grafted { (p : PlainProblem) (tokens : List Token) (tries : ℕ) (w : Walk) (n : ℕ) →
        after_tries p (grafted tokens tries w) n ≡ grafted tokens tries (after_tries p w n) }
    ensures afresh { (p : PlainProblem) (w : Walk) (n : ℕ) →
        after_tries p w n ≡ grafted w.tokens w.tries (after_tries p (afresh w) n) }
    ensures position { (p : PlainProblem) (q : Position) (tokens others : List Token) (n : ℕ) →
        position_of (after_tries p (walk_at q tokens) n) ≡ position_of (after_tries p (walk_at q others) n) }
{}

/// No more tries are made than are granted, and with as many granted as were made a walk stands there too.
pub fn tries_are_within()
    ensures least { (p : PlainProblem) (w : Walk) (n : ℕ) → w.tries ≤ (after_tries p w n).tries }
    ensures most { (p : PlainProblem) (w : Walk) (n : ℕ) → (after_tries p w n).tries ≤ w.tries + n }
    ensures as_many { (p : PlainProblem) (w : Walk) (n : ℕ) →
        after_tries p w ((after_tries p w n).tries - w.tries) ≡ after_tries p w n }
{}

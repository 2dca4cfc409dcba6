//! Laws of the best selection without change among those that may hold unneeded items. A call of any of them does nothing.

ghost use Rattle.std.specs.Prelude.{◌≡◌, ◌↔◌, ◌⊎◌, ◌≤ℤ◌, ℕ, IsTrue, List, None, Option, Some};
ghost use Rattle.pick_problem.specs.Admissible.{IsAdmissible};
ghost use Rattle.pick_problem.specs.Best.{IsBest};
ghost use Rattle.pick_problem.specs.Problem.{PlainProblem};
ghost use Rattle.wide_check.specs.Wide.{IsMetBefore, IsWide, IsWideBest, IsWideProblem, is_met_before, waste_of};

/// The law of order: being met before is lexical order. A list comes before those that go on from it, and before those with a
/// greater place where the two first differ. It is irreflexive, transitive and total, and the test of it is right.
pub fn met_before_is_an_order()
    ensures irreflexive { (a : List ℕ) → IsMetBefore a a → ⊥ }
    ensures transitive { (a b c : List ℕ) → IsMetBefore a b → IsMetBefore b c → IsMetBefore a c }
    ensures total { (a b : List ℕ) → IsMetBefore a b ⊎ ((a ≡ b) ⊎ IsMetBefore b a) }
    ensures test { (a b : List ℕ) → (IsTrue (is_met_before a b) ↔ IsMetBefore a b) }
{}

/// The law of the best selection: a problem has one at most, and not both one and none.
pub fn one_wide_best()
    ensures { (p : PlainProblem) (a b : Option (List ℕ)) → IsWideBest p a → IsWideBest p b → a ≡ b }
{}

/// The law of both searches without change: a wide one looks among more selections than the usual one, so its best wastes
/// no more. It finds one exactly where the usual one does.
pub fn wide_wastes_no_more()
    ensures more { (p : PlainProblem) (q : List ℕ) → IsWideProblem p → IsAdmissible p q → IsWide p q }
    ensures waste { (p : PlainProblem) (usual wide : List ℕ) → IsWideProblem p → IsBest p (Some usual) → IsWideBest p (Some wide) →
        waste_of p wide ≤ℤ waste_of p usual }
    ensures none { (p : PlainProblem) → IsWideProblem p → (IsBest p None ↔ IsWideBest p None) }
{}

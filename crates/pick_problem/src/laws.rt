//! Laws of selections. A call of any of them does nothing.

ghost use Rattle.std.specs.Prelude.{◌≡◌, ◌+◌, ◌*◌, ◌<◌, ◌≤◌, ◌⊎◌, ◌↔◌, ◌<ℤ◌, ℕ, List, Option, length};
ghost use Rattle.pick_problem.specs.Admissible.{IsAdmissible, IsPart, NeedsEach};
ghost use Rattle.pick_problem.specs.Best.{ComesBefore, IsBest};
ghost use Rattle.pick_problem.specs.Digest.{problem_bytes};
ghost use Rattle.pick_problem.specs.Problem.{IsProblem, PlainProblem, Rising, value_of, weight_of};
ghost use Rattle.pick_problem.specs.Score.{IsBelow, score_of};
ghost use Rattle.pick_problem.specs.Waste.{changeless_waste};
ghost use Rattle.pick_problem.specs.declared.item.Kind.TheVariants.{Changeless, Lean};

/// The law of order: coming before is a strict total order of rising lists. None comes before itself, what comes before
/// what comes before a list comes before it, and of two that differ one comes before the other.
#[tactic(auto, using(crate::proofs::OrderLaws::before_irreflexive, crate::proofs::OrderLaws::before_transitive, crate::proofs::OrderLaws::before_total))]
pub fn before_is_an_order()
    ensures irreflexive { (a : List ℕ) → ComesBefore a a → ⊥ }
    ensures transitive { (a b c : List ℕ) → ComesBefore a b → ComesBefore b c → ComesBefore a c }
    ensures total { (n : ℕ) (a b : List ℕ) → Rising n 0 a → Rising n 0 b → ComesBefore a b ⊎ ((a ≡ b) ⊎ ComesBefore b a) }
{}

/// The law of the best selection: a problem has one at most, and not both one and none.
#[tactic(auto, using(crate::proofs::BestLaws::one_best_is))]
pub fn one_best()
    ensures { (p : PlainProblem) (a b : Option (List ℕ)) → IsBest p a → IsBest p b → a ≡ b }
{}

/// The law of parts: a part of an admissible selection without change, with some of its places left out, doesn't reach
/// `lo`. Each item of a list of places is needed exactly where no such part of it reaches `lo`.
pub fn parts_fall_short()
    ensures admissible { (p : PlainProblem) (q part : List ℕ) →
        p.kind ≡ Changeless → IsAdmissible p q → IsPart part q → length part < length q → value_of p part < p.lo }
    ensures needed { (p : PlainProblem) (q : List ℕ) →
        (NeedsEach p q ↔ ((part : List ℕ) → IsPart part q → length part < length q → value_of p part < p.lo)) }
{}

/// The law of windows: where no selection without change is admissible, there is none from `lo` to `hi` within the
/// limit of weight at all, since each of those has an admissible part.
pub fn windows_hold_admissible_parts()
    ensures { (p : PlainProblem) (q : List ℕ) → IsProblem p → p.kind ≡ Changeless → Rising (length p.items) 0 q →
        p.lo ≤ value_of p q → value_of p q ≤ p.hi → weight_of p q ≤ p.most_weight → (part : List ℕ) × IsPart part q × IsAdmissible p part }
{}

/// The law of scores: a lower one is looked for. Without change that is less waste, as [`crate::waste`] computes it
/// from the cost and from what the value is above `lo`; with change less weight, or the same weight and less value.
pub fn lower_scores_are_better()
    ensures changeless { (p : PlainProblem) (q r : List ℕ) → p.kind ≡ Changeless → p.lo ≤ value_of p q → p.lo ≤ value_of p r →
        (IsBelow (score_of p q) (score_of p r) ↔ (changeless_waste p q <ℤ changeless_waste p r)) }
    ensures lean { (p : PlainProblem) (q r : List ℕ) → p.kind ≡ Lean →
        (IsBelow (score_of p q) (score_of p r) ↔ ((weight_of p q < weight_of p r) ⊎ ((weight_of p q ≡ weight_of p r) × (value_of p q < value_of p r)))) }
{}

/// The law of digests: the bytes of which one is taken tell the problem, so no two problems have the same. They are 29
/// bytes and 24 for each item.
pub fn digest_bytes_tell_problems()
    ensures tell { (p q : PlainProblem) → IsProblem p → IsProblem q → problem_bytes p ≡ problem_bytes q → p ≡ q }
    ensures length { (p : PlainProblem) → length (problem_bytes p) ≡ 29 + 24 * length p.items }
{}

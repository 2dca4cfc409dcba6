//! Laws of orders and draws. A call of any of them does nothing.

ghost use Rattle.std.specs.Prelude.{◌≡◌, ◌-◌, ◌%◌, ◌==◌, ◌<◌, ◌≤◌, ◌⊎◌, ◌↔◌, ℕ, List, ◌∷◌, [], ◌++◌, length, slice_index, Contains, All};
ghost use Rattle.std.specs.List.{count_by, range_with_len};
ghost use Rattle.std.specs.List.Sorted.{IsPermutation};
ghost use Rattle.pick_problem.specs.Problem.{IsProblem, PlainProblem, Rising};
ghost use Rattle.random_draw.specs.Draw.{draw_of, first_dropped, kept_with, one_less, with_place};
ghost use Rattle.random_draw.specs.Laws.{Finds, GoesFirst, StaysOf};
ghost use Rattle.random_draw.specs.Order.{order_of, word};

/// The law of orders: one, which a seed and a number of places make alone, holds each place once and nothing else. The
/// place that comes last is what the first word leaves when it is divided by the number of places.
#[tactic(auto, using(crate::proofs::OrderLaws::order_moves, crate::proofs::LawsOfOrders::last_entry))]
pub fn orders_hold_each_place_once()
    ensures same { (seed : List ℕ) (n : ℕ) → IsPermutation (range_with_len 0 n) (order_of seed n) }
    ensures once { (seed : List ℕ) (n j : ℕ) → j < n → count_by (λ k. k == j) (order_of seed n) ≡ 1 }
    ensures none { (seed : List ℕ) (n j : ℕ) → n ≤ j → count_by (λ k. k == j) (order_of seed n) ≡ 0 }
    ensures last { (seed : List ℕ) (n : ℕ) → 0 < n → slice_index (order_of seed n) (n - 1) ≡ word seed 0 % n }
{}

/// The law of dropping: of any places the one that is dropped first is worth less than each other one, or as much, and
/// is the greater one. Of rising places of a pool it is the last one.
#[tactic(auto, using(crate::proofs::LawsOfDraws::first_among, crate::proofs::LawsOfDraws::first_before, crate::proofs::Trimming::one_less_last))]
pub fn the_least_valuable_goes_first()
    ensures among { (p : PlainProblem) (j : ℕ) (js : List ℕ) → Contains (j ∷ js) (first_dropped p j js) }
    ensures first { (p : PlainProblem) (j : ℕ) (js : List ℕ) → All (λ r. (r ≡ first_dropped p j js) ⊎ GoesFirst p (first_dropped p j js) r) (j ∷ js) }
    ensures last { (p : PlainProblem) → IsProblem p → (ks : List ℕ) (x : ℕ) → Rising (length p.items) 0 (ks ++ x ∷ []) → one_less p (ks ++ x ∷ []) ≡ ks }
{}

/// The law of adding: a place that is added comes among those that are kept. Then as many of them stay as aren't too
/// heavy, the most valuable first; on a tie the smaller place stays.
#[tactic(auto, using(crate::proofs::LawsOfDraws::place_among, crate::proofs::LawsOfDraws::stays_with))]
pub fn the_most_valuable_stay()
    ensures added { (kept : List ℕ) (j k : ℕ) → (Contains (with_place j kept) k ↔ ((k ≡ j) ⊎ Contains kept k)) }
    ensures stay { (p : PlainProblem) → IsProblem p → (kept : List ℕ) (j : ℕ) → Rising (length p.items) 0 (with_place j kept) → StaysOf p (with_place j kept) (kept_with p kept j) }
{}

/// The law of draws: one ends at the first time that what is kept reaches `lo`, and finds that; it finds nothing where
/// that never comes.
#[tactic(auto, using(crate::proofs::LawsOfDraws::draw_finds))]
pub fn draws_end_at_the_first_time()
    ensures { (p : PlainProblem) (seed : List ℕ) → Finds p [] (order_of seed (length p.items)) (draw_of p seed) }
{}

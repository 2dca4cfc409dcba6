//! Laws of runs from the start. A call of any of them does nothing.

ghost use Rattle.std.specs.Prelude.{◌≡◌, ◌+◌, ◌^◌, ◌<◌, ◌≤◌, ◌⊎◌, ◌++◌, [], ◌∷◌, ℕ, List, length, true};
ghost use Rattle.std.specs.List.{AllZip};
ghost use Rattle.closing_log.specs.Log.{PlainSection};
ghost use Rattle.request_text.specs.declared.request.Method.TheVariants.{Manual};
ghost use Rattle.search_run.specs.Kept.{Along, IsDueAt, comes_to, first_search};
ghost use Rattle.search_run.specs.Answer.{AreWhole};
ghost use Rattle.search_run.specs.Run.{results_in_column, run};
ghost use Rattle.search_run.specs.Searched.{searches};
ghost use Rattle.search_run.specs.Stands.{IsFromStart};
ghost use Rattle.search_run.specs.Step.{AreSteps, PlainStep};
ghost use Rattle.fund_steps.specs.Basis.{Basis};
ghost use Rattle.fund_steps.specs.Searches.{is_given, steps_of};
ghost use Rattle.run_laws.specs.AtHand.{IsAtHand};
ghost use Rattle.run_laws.specs.Sections.{IsNamed};
ghost use Rattle.run_laws.specs.Tries.{tries_needed};

/// Where a run from the start stands: each finished search has its section, accepted with its best; the walk is one from its
/// beginning; and a search of k items that is open has made fewer than 2^k - 1 tries.
pub fn runs_stand_from_the_start()
    ensures stand { (seed : List ℕ) (steps : List PlainStep) (n : ℕ) → AreSteps steps → IsFromStart seed steps (run seed steps n) }
    ensures few { (seed : List ℕ) (steps : List PlainStep) (n : ℕ) (x : PlainStep) (rest : List PlainStep) → AreSteps steps →
        (run seed steps n).left ≡ x ∷ rest → (run seed steps n).walk.tries + 1 < 2 ^ length x.problem.items }
{}

/// A run that is given 2^k - 1 tries for each search of k items comes to its end, whatever its draws.
pub fn enough_tries_end_a_run()
    ensures { (seed : List ℕ) (steps : List PlainStep) (n : ℕ) → AreSteps steps → tries_needed (searches steps) ≤ n + length (searches steps) →
        (run seed steps n).left ≡ [] }
{}

/// Where nothing is searched for the method is `manual`, or the coins that each payment spends bring all that is needed.
pub fn all_else_is_searched_for()
    ensures { (b : Basis) → steps_of b ≡ [] → (b.request.method ≡ Manual) ⊎ (is_given b ≡ true) }
{}

/// Which section of a kept log is due does not hang on its answers, but for its end: the sections are those of the first searches
/// of the steps, in their order, and the search that is gone on with is the next one.
pub fn kept_sections_stand_in_order()
    ensures order { (seed : List ℕ) (steps : List PlainStep) (closed : List PlainSection) → Along IsDueAt seed (first_search seed steps) closed →
        (front : List PlainStep) × (rest : List PlainStep) × (searches steps ≡ front ++ rest) × AllZip IsNamed front closed }
    ensures next { (seed : List ℕ) (steps : List PlainStep) (closed : List PlainSection) (x : PlainStep) (left : List PlainStep) → Along IsDueAt seed (first_search seed steps) closed →
        (comes_to seed (first_search seed steps) closed).left ≡ x ∷ left → (front : List PlainStep) × (rest : List PlainStep) × (searches steps ≡ front ++ x ∷ rest) × AllZip IsNamed front closed }
{}

/// What there is to take of a run from the start that is open is of the column at which it stands, and no column before it has
/// a result.
pub fn at_hand_is_of_the_column()
    ensures { (seed : List ℕ) (steps : List PlainStep) (n : ℕ) (x : PlainStep) (rest : List PlainStep) → AreSteps steps → AreWhole steps →
        (run seed steps n).left ≡ x ∷ rest → IsAtHand seed steps (run seed steps n) (results_in_column seed (run seed steps n) (x ∷ rest)) }
{}

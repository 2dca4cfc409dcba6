//! Laws of runs and of their answer. A call of any of them does nothing.

ghost use Rattle.std.specs.Prelude.{◌≡◌, ◌↔◌, ◌+◌, ◌≤◌, [], ◌∷◌, ◌++◌, ℕ, List, Option, Some, None, Bool, false, true};
ghost use Rattle.pick_problem.specs.Walk.{Walk, after_tries};
ghost use Rattle.std.specs.List.{AllByRecursion};
ghost use Rattle.search_run.specs.Answer.{AreWhole, HasNone, IsAnswer, IsFirstTaken};
ghost use Rattle.search_run.specs.Found.{IsTaken, PlainFound, taken};
ghost use Rattle.search_run.specs.Kept.{Along, first_search};
ghost use Rattle.search_run.specs.Leads.{Leads, at_walk, behind};
ghost use Rattle.search_run.specs.Run.{Past, Stand, end_of, go_on, made, over, run, tried};
ghost use Rattle.search_run.specs.Searched.{AreSectionsOf};
ghost use Rattle.search_run.specs.Stands.{IsEndOf, IsMadeAt, IsStand};
ghost use Rattle.search_run.specs.Step.{AreSteps, PlainStep};

/// Tries in pieces are tries: going on with k tries and then with m more is going on with k + m, from wherever a run
/// stands. A run with nothing left stays as it is, whatever it is given.
pub fn runs_add_up()
    ensures pieces { (seed : List ℕ) (s : Stand) (k m : ℕ) → go_on seed (go_on seed s k) m ≡ go_on seed s (k + m) }
    ensures over { (seed : List ℕ) (s : Stand) (m : ℕ) → s.left ≡ [] → go_on seed s m ≡ over s.past }
{}

/// A run with a step left has made each try that it was given, and its walk isn't done. No run makes more.
pub fn unfinished_runs_have_tried()
    ensures tries { (seed : List ℕ) (s : Stand) (m : ℕ) (x : PlainStep) (rest : List PlainStep) →
        (go_on seed s m).left ≡ x ∷ rest → (go_on seed s m).past.tries ≡ s.past.tries + m }
    ensures going { (seed : List ℕ) (s : Stand) (m : ℕ) (x : PlainStep) (rest : List PlainStep) →
        (go_on seed s m).left ≡ x ∷ rest → (go_on seed s m).walk.done ≡ false }
    ensures most { (seed : List ℕ) (s : Stand) (m : ℕ) → (go_on seed s m).past.tries ≤ s.past.tries + m }
{}

/// Of results in their order one is taken where there are any: the one of least waste, of these that of most coins, of
/// these the first.
pub fn one_result_is_taken()
    ensures one { (results : List PlainFound) (f : PlainFound) → (taken results ≡ Some f ↔ IsTaken results f) }
    ensures none { (results : List PlainFound) → (taken results ≡ None ↔ results ≡ []) }
{}

/// Steps have one answer at most.
pub fn one_answer()
    ensures { (seed : List ℕ) (steps : List PlainStep) (a b : Option PlainFound) →
        IsAnswer seed steps a → IsAnswer seed steps b → a ≡ b }
{}

/// A run from the start that comes to its end has the answer, of all that there is to find.
pub fn ended_runs_have_the_answer()
    ensures { (seed : List ℕ) (steps : List PlainStep) (n : ℕ) → AreSteps steps → AreWhole steps →
        (run seed steps n).left ≡ [] → IsAnswer seed steps (taken (run seed steps n).past.found) }
{}

/// Each section of a run from the start is that of the search to which the run comes there; its letters are accepted
/// with its answer, and this is the best.
pub fn sections_are_accepted()
    ensures { (seed : List ℕ) (steps : List PlainStep) (n : ℕ) → AreSteps steps →
        Along IsMadeAt seed (first_search seed steps) (run seed steps n).past.closed }
{}

/// Each result that an end tells of, one that is taken for want of tries too, is one of a step, and admissible for its
/// problem.
pub fn results_are_admissible()
    ensures { (seed : List ℕ) (steps : List PlainStep) (take : Bool) (s : Stand) → AreSteps steps →
        IsStand seed steps s → IsEndOf steps (end_of take seed s) }
{}

/// The pieces of which a run is made: tries of the walk at which it stands lead on by as many as are made, and passing
/// a step whose walk is done leads on by none. Pieces one behind the other lead on by all their tries. So a run that
/// stops between two of them, whatever the reason, goes on as if it hadn't.
pub fn pieces_lead()
    ensures none { (seed : List ℕ) (s : Stand) → Leads seed s 0 s }
    ensures behind { (seed : List ℕ) (x : PlainStep) (rest : List PlainStep) (w : Walk) (before : List ℕ) (past : Past) →
        w.done ≡ true → Leads seed (at_walk x rest w before past) 0 (behind seed x rest w before past) }
    ensures walk { (seed : List ℕ) (x : PlainStep) (rest : List PlainStep) (w : Walk) (before : List ℕ) (past : Past) (n : ℕ) →
        Leads seed (at_walk x rest w before past) (made w (after_tries x.problem w n))
        (at_walk x rest (after_tries x.problem w n) before (tried past (made w (after_tries x.problem w n)))) }
    ensures more { (seed : List ℕ) (a b c : Stand) (k n : ℕ) → Leads seed a k b → Leads seed b n c →
        Leads seed a (k + n) c }
{}

/// The log of a run from the start that comes to its end: there is a section for each search up to and with the column
/// from which the answer is taken, in their order, or for each search where none has a result. Its answer is the best of the
/// search's problem, and its letters are accepted with that.
pub fn logs_have_each_search()
    ensures answered { (seed : List ℕ) (steps : List PlainStep) (n : ℕ) (f : PlainFound) → AreSteps steps →
        (run seed steps n).left ≡ [] → (h : IsFirstTaken seed steps f) → AreSectionsOf (h.front ++ h.column) (run seed steps n).past.closed }
    ensures none { (seed : List ℕ) (steps : List PlainStep) (n : ℕ) → AreSteps steps →
        (run seed steps n).left ≡ [] → AllByRecursion (HasNone seed) steps → AreSectionsOf steps (run seed steps n).past.closed }
{}

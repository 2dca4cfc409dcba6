//! Small runs, worked out by hand. A call of any of them does nothing.

ghost use Rattle.std.specs.Prelude.{◌≡◌, ◌++◌, ℕ, List, [], ◌∷◌, Some, None, true, false, codes};
ghost use Rattle.closing_log.specs.declared.log.Stage.TheVariants as stage;
ghost use Rattle.search_run.specs.Examples.{exact_pair, kept_at, light, light_log, light_result, no_coin, one_coin, section, told, with_change, without_change};
ghost use Rattle.search_run.specs.Kept.{log_of, saved_of, stand_of};
ghost use Rattle.search_run.specs.Run.{go_on, run};
ghost use Rattle.search_run.specs.declared.ending.End.TheVariants.{Ended, Partial, Unfinished};
ghost use Rattle.pick_problem.specs.Digest.{digest_of};

/// Two coins that pay exactly: with three tries the run ends; with two its result can be taken for want of tries, or
/// it is unfinished; with none there is no result to take.
pub fn worked_budgets()
    ensures exactly { (seed : List ℕ) → told false seed (run seed (exact_pair ∷ []) 3)
        ≡ record {
          end = Ended (Some without_change);
          tries = 3;
          closed = section 1 stage.Changeless (codes "IIASISS") (Some (0 ∷ 1 ∷ [])) ∷ [];
        } }
    ensures taken { (seed : List ℕ) → told true seed (run seed (exact_pair ∷ []) 2)
        ≡ record { end = Partial without_change; tries = 2; closed = [] } }
    ensures fewer { (seed : List ℕ) → told false seed (run seed (exact_pair ∷ []) 2) ≡ record {
      end = Unfinished;
      tries = 2;
      closed = [];
    } }
    ensures nothing { (seed : List ℕ) → told true seed (run seed (exact_pair ∷ []) 0) ≡ record {
      end = Unfinished;
      tries = 0;
      closed = [];
    } }
{}

/// One coin that pays with change alone: the search without change has none and the draw has none, which takes no try,
/// so the next column is answered from. Without any coin each search is done before its first try.
pub fn worked_columns()
    ensures change { (seed : List ℕ) → told false seed (run seed one_coin 2)
        ≡ record {
          end = Ended (Some with_change);
          tries = 2;
          closed = section 1 stage.Changeless (codes "IOS") None ∷ section 1 stage.LeanSmall (codes "IAS") (Some (0 ∷
              [])) ∷ [];
        } }
    ensures budget { (seed : List ℕ) → told true seed (run seed one_coin 1)
        ≡ record { end = Unfinished; tries = 1; closed = section 1 stage.Changeless (codes "IOS") None ∷ [] } }
    ensures none { (seed : List ℕ) → told true seed (run seed (no_coin 1 ++ no_coin 2) 0)
        ≡ record {
          end = Ended None;
          tries = 0;
          closed = section 1 stage.Changeless (codes "S") None ∷ section 1 stage.LeanSmall (codes "S") None
              ∷ section 2 stage.Changeless (codes "S") None ∷ section 2 stage.LeanSmall (codes "S") None ∷ [];
        } }
{}

/// What is kept after three tries, and going on from it. From a next place that is forged the run goes on too, and
/// ends with an answer that isn't the best and letters that aren't accepted with it.
pub fn worked_resuming()
    ensures saved { (seed : List ℕ) → saved_of (run seed (light ∷ []) 3) ≡ Some (kept_at 1) }
    ensures log { (seed : List ℕ) → log_of false (run seed (light ∷ []) 3) ≡ light_log (digest_of light.problem) }
    ensures goes_on { (seed : List ℕ) → told false seed (go_on seed (stand_of seed (light ∷
        []) (kept_at 1) (light_log (digest_of light.problem))) 3)
        ≡ record {
          end = Ended (Some (light_result (1 ∷ 2 ∷ []) 2));
          tries = 6;
          closed = section 1 stage.LeanBig (codes "IIAIASIIASISS") (Some (1 ∷ 2 ∷ [])) ∷ [];
        } }
    ensures forged { (seed : List ℕ) → told false seed (go_on seed (stand_of seed (light ∷
        []) (kept_at 2) (light_log (digest_of light.problem))) 3)
        ≡ record {
          end = Ended (Some (light_result (0 ∷ 2 ∷ []) 2));
          tries = 4;
          closed = section 1 stage.LeanBig (codes "IIAIASISS") (Some (0 ∷ 2 ∷ [])) ∷ [];
        } }
{}

//! What the definitions of a desk come to. A call of any of these laws does nothing.

ghost use Rattle.std.specs.Prelude.{◌≡◌, ◌≢◌, ◌≤◌, ◌+◌, ◌↔◌, ℕ, List, All, None, Some, false, length, true};
ghost use Rattle.std.specs.List.{AllPairs};
ghost use Rattle.block_feed.specs.BlockFile.{IsBlockFile};
ghost use Rattle.coin_candidates.specs.Candidates.{AreCandidates};
ghost use Rattle.fund_base.specs.Cursor.{IsBytes};
ghost use Rattle.coin_candidates.specs.declared.candidate.Candidate.{Candidate};
ghost use Rattle.fund_plan.specs.State.{PlanState, moved, told};
ghost use Rattle.search_run.specs.Found.{PlainFound};
ghost use Rattle.fund_steps.specs.Plan.{PlainPlan};
ghost use Rattle.request_text.specs.PlainRequest.{PlainRequest};
ghost use Rattle.desk_machine.specs.Commits.{IsFirstTaken, IsSpendable};
ghost use Rattle.desk_machine.specs.Does.{IsLagging};
ghost use Rattle.desk_machine.specs.Records.{BeginsWith, EndsBehind, records_of};
ghost use Rattle.desk_machine.specs.Rules.{AreApart};
ghost use Rattle.desk_machine.specs.Runs.{AllFed, Alone, AreOfRun, KeepOpen, Played, Runs, Said, tries_in, turns_of};
ghost use Rattle.desk_machine.specs.State.{Job, Payment, PlainDesk, job_at, new_job};
ghost use Rattle.desk_machine.specs.Taken.{first_taken};
ghost use Rattle.desk_machine.specs.Turns.{is_spent, is_unfinished, turn_reply};

/// The law of committed payments: whatever commands a desk is given, and wherever memory runs out, no two payments that are
/// committed and not released spend one coin.
pub fn payments_stay_apart()
    ensures { (d new : PlainDesk) (said : List Said) → AreApart d.committed → Runs d said new → AreApart new.committed }
{}

/// The law of open jobs: whatever commands a desk is given, no two open jobs have one name, and at most 64 are open.
pub fn jobs_are_named_apart()
    ensures { (d new : PlainDesk) (said : List Said) → AllPairs (λ (a b : Job). a.name ≢ b.name) d.jobs → length d.jobs ≤ 64 → Runs d said new
        → AllPairs (λ (a b : Job). a.name ≢ b.name) new.jobs × (length new.jobs ≤ 64) }
{}

/// The law of snapshots: through calls that neither commit nor close a job, its turns and their replies are those of the job
/// alone, of no desk, book or other job. So wherever else these commands stand, at whatever desk, two lists of calls that
/// give a job the same turns get the same replies to them and leave the same job, where memory was enough for it.
pub fn jobs_see_their_snapshot_alone()
    ensures alone { (d new : PlainDesk) (said : List Said) (name : List ℕ) (j : Job) → Runs d said new → job_at d.jobs name ≡ Some j → KeepOpen name said
        → (k : Job) × (job_at new.jobs name ≡ Some k) × Alone j (turns_of name said) k }
    ensures alike { (d e new end : PlainDesk) (said heard : List Said) (name : List ℕ) (j : Job) → Runs d said new → Runs e heard end → job_at d.jobs name ≡ Some j → job_at e.jobs name ≡ Some j → KeepOpen name said → KeepOpen name heard
        → tries_in (turns_of name said) ≡ tries_in (turns_of name heard) → AllFed (turns_of name said) → AllFed (turns_of name heard)
        → (turns_of name said ≡ turns_of name heard) × (job_at new.jobs name ≡ job_at end.jobs name) }
{}

/// The law of turns: the replies to the turns of a job from its opening on are those of one run of its plan, of all the tries
/// that it was given up to then. Where a result was taken for want of tries, all turns behind it are replied to as before.
pub fn turns_are_the_run()
    ensures { (name : List ℕ) (p : PlainPlan) (turns : List Played) (k : Job) → Alone (new_job name p) turns k → AllFed turns → AreOfRun p 0 turns }
{}

/// The law of jobs that are spent: a turn that is replied to so makes no try, and none is taken for want of tries.
pub fn spent_turns_make_no_try()
    ensures tries { (s : PlanState) (n : ℕ) → is_spent s n ≡ true → (moved s n).stand.past.tries ≡ s.stand.past.tries }
    ensures plan { (s : PlanState) (n : ℕ) → (moved s n).plan ≡ s.plan }
    ensures partial { (s : PlanState) (n : ℕ) → is_spent s n ≡ true → (moved s n).partial ≡ None }
{}

/// The law of finished jobs: a turn behind one that came to a payment, or to none, makes no try and is replied to as that
/// one was.
pub fn finished_jobs_reply_again()
    ensures reply { (s : PlanState) (n m : ℕ) → is_unfinished (told (moved s n)) ≡ false → turn_reply (moved s n) m ≡ turn_reply s n }
    ensures tries { (s : PlanState) (n m : ℕ) → is_unfinished (told (moved s n)) ≡ false → (moved (moved s n) m).stand.past.tries ≡ (moved s n).stand.past.tries }
{}

/// The law of turns that ran out of memory: some of their tries were made, and from there the turns behind them go on as
/// after these tries. A job of which a result was taken for want of tries is left as it was.
pub fn jobs_go_on_from_the_tries_made()
    ensures taken { (old new : Job) (n : ℕ) (f : PlainFound) → old.state.partial ≡ Some f → IsLagging old n new → new ≡ old }
    ensures goes { (old new : Job) (n : ℕ) → old.state.partial ≡ None → IsLagging old n new → (made : ℕ) × (made ≤ n) × ((m : ℕ) → moved new.state m ≡ moved old.state (made + m)) }
{}

/// The law of coins that are taken: one is shown exactly where a coin of the payment can't be spent, and it is the first such
/// in the payment's order.
pub fn names_the_first_taken()
    ensures shown { (committed : List Payment) (now : List Candidate) (r : PlainRequest) (number : ℕ) (coins : List Candidate) (c : Candidate) → AreCandidates now
        → first_taken committed now r number coins ≡ Some c → IsFirstTaken committed now r number coins c.coin }
    ensures none { (committed : List Payment) (now : List Candidate) (r : PlainRequest) (number : ℕ) (coins : List Candidate) → AreCandidates now
        → (first_taken committed now r number coins ≡ None) ↔ All (IsSpendable committed now r number) coins }
{}

/// The law of blocks that are read one by one: those that are read stand at the front of the bytes, each linked to the one
/// before it. Where no fault ends them the bytes are a block file of them.
pub fn blocks_are_read_one_by_one()
    ensures front { (file hash : List ℕ) (height : ℕ) → IsBytes file → (rest : List ℕ) × BeginsWith hash height (records_of file hash height).blocks file rest × EndsBehind (records_of file hash height).fault rest }
    ensures whole { (file hash : List ℕ) (height : ℕ) → IsBytes file → (records_of file hash height).fault ≡ None → IsBlockFile hash height (records_of file hash height).blocks file }
{}

//! Laws of each desk that was made new and given commands. A call of any of them does nothing.

ghost use Rattle.std.specs.Prelude.{ℕ, ◌≡◌, ◌≢◌, ◌≤◌, ◌++◌, ◌⊎◌, List, [], ◌∷◌, All, None, Some, length};
ghost use Rattle.block_feed.specs.Block.{ChainBlock};
ghost use Rattle.block_feed.specs.BlockFile.{IsBlockFile};
ghost use Rattle.block_feed.specs.declared.fault.FeedFault.{FeedFault};
ghost use Rattle.closing_log.specs.declared.mark.Mark.{Mark};
ghost use Rattle.fund_base.specs.Cursor.{IsBytes};
ghost use Rattle.fund_files.specs.declared.chain.Chain.{Chain};
ghost use Rattle.fund_plan.specs.Selection.{PlainFunded};
ghost use Rattle.fund_plan.specs.declared.outcome.Outcome.{Outcome};
ghost use Rattle.desk_machine.specs.Commands.{Commit, Open, Turn};
ghost use Rattle.desk_machine.specs.Commits.{IsCommit};
ghost use Rattle.desk_machine.specs.Does.{Does};
ghost use Rattle.desk_machine.specs.Machine.{with_jobs};
ghost use Rattle.desk_machine.specs.Records.{records_of};
ghost use Rattle.desk_machine.specs.Replies.{Reply, Committed, Funded, NoJob, NoMemory, Opened, Spent};
ghost use Rattle.desk_machine.specs.Runs.{Runs, Said};
ghost use Rattle.desk_machine.specs.State.{Job, PlainDesk, job_at, new_desk};
ghost use Rattle.desk_machine.specs.Turns.{by_outcome};
ghost use Rattle.desk_laws.specs.Claimed.{HaveBytes, IsBooked, IsClaimed, IsDueCommit, IsPaidAsClaimed};
ghost use Rattle.desk_laws.specs.Opened.{IsOpenedWith};
ghost use Rattle.desk_laws.specs.Refused.{IsRefusedBehind};

/// The law of the jobs of a desk: whatever commands a new one is given, and wherever memory runs out, the plan of each open
/// job keeps the rules of a plan, and its steps theirs. It stands where some number of tries leads from its beginning. What
/// its last turn was answered is what the plan comes to after some of these tries. All that this claims holds: where it is a
/// payment, what its mark promises. The desk's wallet and book keep their rules, as those of each desk do, and what it is
/// given is bytes.
pub fn commits_keep_their_claims()
    ensures { (k : Chain) (d : PlainDesk) (said : List Said) → IsBooked k → HaveBytes said → Runs (new_desk k) said d → All IsClaimed d.jobs }
{}

/// The law of commits: what a desk gives out is the payment of an open job. It keeps what its mark claims of the job's plan,
/// each coin of it could be spent, and no other committed payment spends one of them. Its PSBT is of the version that the job's
/// request asks for. The same holds of whatever payment the call is shown to give out.
pub fn commits_are_due()
    ensures due { (k : Chain) (d new : PlainDesk) (said : List Said) (name txid psbt : List ℕ) → IsBooked k → HaveBytes said → Runs (new_desk k) said d →
        Does d (Commit name) (Committed txid psbt) new → IsDueCommit d name txid psbt new }
    ensures shown { (k : Chain) (d new : PlainDesk) (said : List Said) (name txid psbt : List ℕ) → IsBooked k → HaveBytes said → Runs (new_desk k) said d →
        (c : IsCommit d name txid psbt new) → IsClaimed c.job × IsPaidAsClaimed c.job.state.plan c.funded }
{}

/// The law of a turn's answer: a turn that is replied to by what the plan comes to leaves that as the job's answer, with the
/// mark that the reply has. One that finds no tries left, or no memory, leaves the answer as it was.
pub fn turns_leave_their_answer()
    ensures told { (d new : PlainDesk) (name : List ℕ) (n : ℕ) (reply : Reply) → Does d (Turn name n) reply new → reply ≢ NoJob → reply ≢ Spent → reply ≢ NoMemory →
        (j : Job) × (o : Outcome) × (job_at new.jobs name ≡ Some j) × (j.answer ≡ Some o) × (reply ≡ by_outcome j.state.stand.past.tries o) }
    ensures stays { (d new : PlainDesk) (name : List ℕ) (n : ℕ) (reply : Reply) (i : Job) → Does d (Turn name n) reply new → job_at d.jobs name ≡ Some i → (reply ≡ Spent) ⊎ (reply ≡ NoMemory) →
        (j : Job) × (job_at new.jobs name ≡ Some j) × (j.answer ≡ i.answer) }
    ensures paid { (d new : PlainDesk) (name : List ℕ) (n tries : ℕ) (mark : Mark) → Does d (Turn name n) (Funded mark tries) new →
        (j : Job) × (f : PlainFunded) × (job_at new.jobs name ≡ Some j) × (j.answer ≡ Some (Outcome.Funded f)) × (f.mark ≡ mark) × (j.state.stand.past.tries ≡ tries) }
{}

/// The law of open: a job that it makes has for candidates exactly the coins that may be spent then and that no committed
/// payment spends, with their prices at the rate of its request. The request is that of the file, and no try is made yet.
pub fn opened_jobs_have_free_coins()
    ensures { (d new : PlainDesk) (name request : List ℕ) → Does d (Open name request) Opened new →
        (j : Job) × IsOpenedWith d name request j × (new ≡ with_jobs d (d.jobs ++ j ∷ [])) }
{}

/// The law of block files that are read: of a block file of at most 1,073,741,824 bytes a desk reads these blocks, and no
/// fault. A fault of other bytes is that of the feed, where it stands behind the blocks that are read. Of bytes within that
/// length these blocks and that fault are read wherever they stand there.
pub fn block_files_are_read()
    ensures read { (file hash : List ℕ) (height : ℕ) (blocks : List ChainBlock) → IsBlockFile hash height blocks file → length file ≤ 1_073_741_824 → records_of file hash height ≡ record { blocks = blocks; fault = None } }
    ensures refused { (file hash : List ℕ) (height : ℕ) (fault : FeedFault) → IsBytes file → (records_of file hash height).fault ≡ Some fault → IsRefusedBehind file (record { height = height; hash = hash }) (records_of file hash height).blocks file fault }
    ensures only { (file hash : List ℕ) (height : ℕ) (blocks : List ChainBlock) (fault : FeedFault) → IsBytes file → length file ≤ 1_073_741_824 → IsRefusedBehind file (record { height = height; hash = hash }) blocks file fault →
        records_of file hash height ≡ record { blocks = blocks; fault = Some fault } }
{}

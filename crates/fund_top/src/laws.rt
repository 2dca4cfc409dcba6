//! What the files of a command come to, in words of the files one by one.

ghost use Rattle.std.specs.Prelude.{◌≡◌, ◌↔◌, ◌≤◌, ◌<◌, ◌^◌, [], ◌∷◌, ℕ, List, Option, Some, String, codes, string_bytes};
ghost use Rattle.std.specs.Fmt.{decimal};
ghost use Rattle.std.specs.declared.alloc.Global.{Global};
ghost use Rattle.block_feed.specs.Block.{ChainBlock};
ghost use Rattle.fund_plan.specs.Selection.{PlainFunded};
ghost use Rattle.fund_plan.specs.declared.outcome.Outcome.TheVariants as answers;
ghost use Rattle.wallet_text.specs.PlainWallet.{PlainWallet};
ghost use Rattle.fund_files.specs.Chain.{chain_from};
ghost use Rattle.fund_files.specs.Contents.{HasChain};
ghost use Rattle.command_end.specs.Names.{Sources};
ghost use Rattle.command_check.specs.Outcome as checks;
ghost use Rattle.command_desk.specs.Outcome as desks;
ghost use Rattle.command_coins.specs.Outcome.{listing_in};
ghost use Rattle.command_inputs.specs.Cause.{Cause};
ghost use Rattle.command_inputs.specs.Outcome.{none_report_at, open_report_at};
ghost use Rattle.command_inputs.specs.Names.{Payment};
ghost use Rattle.command_work.specs.Summary.{summary_text};
ghost use Rattle.fund_outside.specs.Kept.{KeptJob};
ghost use Rattle.kept_job.specs.declared.fault.KeptFault.{KeptFault};
ghost use Rattle.command_end.specs.declared.status.Status.TheVariants as statuses;
ghost use Rattle.command_inputs.specs.Outcome as dues;
ghost use Rattle.command_resume.specs.Outcome.{IsGone, IsNotKept};
ghost use Rattle.command_work.specs.Outcome.{load_plan};
ghost use Rattle.further_commands.specs.Command.{FurtherCommand};
ghost use Rattle.further_commands.specs.Outcome as further;
ghost use Rattle.fund_top.specs.Outcome.{Refused, NotKept, Listed, Unfinished, NoSelection, Funded, Other, Summed, ComesTo, IsMeant, Outcome, check_outcome, desk_outcome, payment_outcome};
ghost use Rattle.fund_top.specs.Stored.{HaveStored, IsLoad, Stored, answer_in, load_answer, load_report, log_in, plan_in, report_in};
ghost use Rattle.fund_top.specs.Words.{Command, Coins, Fund, Resume, Check, Work, Desk, Further, command_of};

/// The law of what the files of a command and the jobs of a keeper come to: to one outcome at most. A cause for a refusal which
/// the files mean is what they come to. Where they hold a wallet and blocks, they come to the listing of these; and where they
/// hold a request too, of which the plan keeps its rules, to what that plan comes to with the request's tries. Where a job is
/// gone on with, they come to its fault, or to what the plan comes to that goes on from it. What a report comes to that is
/// checked, its command comes to. A workload of which no two transactions have one txid comes to the summary of what its plan
/// comes to; and so does what a script comes to at a desk. What one of the commands beside these comes to is that. A call does
/// nothing.
pub fn outcomes_are_due()
    ensures one { (files : List ℕ → List ℕ) (jobs : List ℕ → Option KeptJob) (c : Command) (a b : Outcome) → ComesTo files jobs c a → ComesTo files jobs c b → a ≡ b }
    ensures refused { (files : List ℕ → List ℕ) (jobs : List ℕ → Option KeptJob) (c : Command) (cause : Cause) → IsMeant files c cause → ComesTo files jobs c (Refused cause) }
    ensures listed { (files : List ℕ → List ℕ) (jobs : List ℕ → Option KeptJob) (s : Sources) (w : PlainWallet) (blocks : List ChainBlock) → HasChain (files s.wallet) (files s.blocks) w blocks → ComesTo files jobs (Coins s) (Listed (listing_in (chain_from w blocks))) }
    ensures funded { (files : List ℕ → List ℕ) (jobs : List ℕ → Option KeptJob) (s : Sources) (p : Payment) (job : Option (List ℕ)) (k : Stored) (f : PlainFunded) → HaveStored files s p k → answer_in k ≡ answers.Funded f → ComesTo files jobs (Fund s p job) (Funded (report_in k f) (log_in k)) }
    ensures none { (files : List ℕ → List ℕ) (jobs : List ℕ → Option KeptJob) (s : Sources) (p : Payment) (job : Option (List ℕ)) (k : Stored) → HaveStored files s p k → answer_in k ≡ answers.NoSelection → ComesTo files jobs (Fund s p job) (NoSelection (none_report_at (plan_in k) k.asked.tries) (log_in k)) }
    ensures unfinished { (files : List ℕ → List ℕ) (jobs : List ℕ → Option KeptJob) (s : Sources) (p : Payment) (job : Option (List ℕ)) (k : Stored) → HaveStored files s p k → answer_in k ≡ answers.Unfinished → ComesTo files jobs (Fund s p job) (Unfinished (open_report_at (plan_in k) k.asked.tries)) }
    ensures gone { (files : List ℕ → List ℕ) (jobs : List ℕ → Option KeptJob) (s : Sources) (p : Payment) (job : List ℕ) (due : dues.Outcome) → IsGone files s p (jobs job) due → ComesTo files jobs (Resume s p job) (payment_outcome due) }
    ensures not_kept { (files : List ℕ → List ℕ) (jobs : List ℕ → Option KeptJob) (s : Sources) (p : Payment) (job : List ℕ) (fault : KeptFault) → IsNotKept files s p (jobs job) fault → ComesTo files jobs (Resume s p job) (NotKept fault) }
    ensures judged { (files : List ℕ → List ℕ) (jobs : List ℕ → Option KeptJob) (s : Sources) (p : Payment) (report : List ℕ) (due : checks.Outcome) → checks.ComesTo files s p report due → ComesTo files jobs (Check s p report) (check_outcome due) }
    ensures ran { (files : List ℕ → List ℕ) (jobs : List ℕ → Option KeptJob) (s : Sources) (script : List ℕ) → ComesTo files jobs (Desk s script) (desk_outcome (desks.outcome_of files s script)) }
    ensures beside { (files : List ℕ → List ℕ) (jobs : List ℕ → Option KeptJob) (c : FurtherCommand) (due : further.Outcome) → further.ComesTo files c due → ComesTo files jobs (Further c) (Other due) }
    ensures summed { (files : List ℕ → List ℕ) (jobs : List ℕ → Option KeptJob) (number count : ℕ) (f : PlainFunded) → IsLoad number count → load_answer number count ≡ answers.Funded f → ComesTo files jobs (Work number count) (Summed statuses.Done (summary_text number count (load_report number count f))) }
    ensures summed_none { (files : List ℕ → List ℕ) (jobs : List ℕ → Option KeptJob) (number count : ℕ) → IsLoad number count → load_answer number count ≡ answers.NoSelection → ComesTo files jobs (Work number count) (Summed statuses.NoSelection (summary_text number count (none_report_at (load_plan number count) 100_000))) }
    ensures summed_open { (files : List ℕ → List ℕ) (jobs : List ℕ → Option KeptJob) (number count : ℕ) → IsLoad number count → load_answer number count ≡ answers.Unfinished → ComesTo files jobs (Work number count) (Summed statuses.Unfinished (summary_text number count (open_report_at (load_plan number count) 100_000))) }
{}

/// The law of the words of a workload: they ask for one exactly where the second is the decimal spelling of a number below
/// 2^63, and the third that of a count of 1 to 10,000. A call does nothing.
pub fn workloads_are_spelled()
    ensures { (verb first second : String Global) (number count : ℕ) → string_bytes verb ≡ codes "work" → (command_of (verb ∷ first ∷ second ∷ []) ≡ Some (Work number count)) ↔ ((string_bytes first ≡ decimal number) × (number < 2 ^ 63) × (string_bytes second ≡ decimal count) × (1 ≤ count) × (count ≤ 10_000)) }
{}

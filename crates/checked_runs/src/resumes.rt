//! Laws of reports of resumed runs. A call of any of them does nothing.

ghost use Rattle.std.specs.Prelude.{ℕ, ◌+◌, List, Option};
ghost use Rattle.fund_outside.specs.Kept.{KeptJob};
ghost use Rattle.fund_plan.specs.Outcome.{tries_at};
ghost use Rattle.fund_report.specs.declared.report.Report.TheVariants as kinds;
ghost use Rattle.fund_files.specs.Chain.{chain_from};
ghost use Rattle.kept_job.specs.Kept.{IsKeptAt};
ghost use Rattle.command_check.specs.Outcome.{Accepted, ComesTo};
ghost use Rattle.command_check.specs.Evidence.{IsWithin};
ghost use Rattle.command_end.specs.Names.{Sources};
ghost use Rattle.command_inputs.specs.Digest.{digest_in};
ghost use Rattle.command_inputs.specs.Outcome.{plan_of};
ghost use Rattle.command_inputs.specs.Names.{Payment};
ghost use Rattle.checked_runs.specs.Beside.{StandWithLog, StandsBeside};
ghost use Rattle.checked_runs.specs.Resumed.{IsFunded, IsNotFunded, IsUnfinished, reported_after};

/// The law of resumed reports: where a job was left by an unfinished run of some files after n tries, whichever runs made
/// them, what a run printed that went on from it, and the log that it wrote, are accepted from the same files, where the
/// report of a payment is short enough to be judged. The tries that are told are those of all these runs, and so many the
/// whole log shows. A report of a run that goes on once more is accepted by its form.
pub fn resumed_reports_are_accepted()
    ensures funded { (files files' : List ℕ → List ℕ) (s : Sources) (p : Payment) (o : Option KeptJob) (name report log : List ℕ) (n : ℕ) (k : IsFunded files s p o report log) → IsKeptAt (plan_of (chain_from k.wallet k.blocks) k.asked) (digest_in files s p) n o → IsWithin report → StandWithLog files files' s p name report log → ComesTo files' s p name (Accepted (kinds.Funded (reported_after files s p o report log n k))) }
    ensures none { (files files' : List ℕ → List ℕ) (s : Sources) (p : Payment) (o : Option KeptJob) (name report log : List ℕ) (n : ℕ) (k : IsNotFunded files s p o report log) → IsKeptAt (plan_of (chain_from k.wallet k.blocks) k.asked) (digest_in files s p) n o → StandWithLog files files' s p name report log → ComesTo files' s p name (Accepted (kinds.NoSelection (tries_at (plan_of (chain_from k.wallet k.blocks) k.asked) (n + k.asked.tries)))) }
    ensures unfinished { (files files' : List ℕ → List ℕ) (s : Sources) (p : Payment) (o : Option KeptJob) (name report : List ℕ) (k : IsUnfinished files s p o report) → StandsBeside files files' s p name report → ComesTo files' s p name (Accepted (kinds.Unfinished k.state.stand.past.tries k.used_up.used_up.step.row k.used_up.used_up.step.stage)) }
{}

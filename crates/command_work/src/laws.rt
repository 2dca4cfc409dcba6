//! What a workload comes to, in words that know no test of txids and no fault.

ghost use Rattle.std.specs.Prelude.{◌≡◌, ◌≤◌, ℕ, List, [], None};
ghost use Rattle.coin_book.specs.Faults.{fault_of};
ghost use Rattle.fund_plan.specs.Outcome.{outcome_at, tries_at};
ghost use Rattle.fund_plan.specs.Selection.{PlainFunded};
ghost use Rattle.fund_plan.specs.declared.outcome.Outcome.TheVariants as answers;
ghost use Rattle.fund_steps.specs.Plan.{IsPlan};
ghost use Rattle.wallet_text.specs.WalletRules.{AreDistinctEarlier};
ghost use Rattle.command_work.specs.Load.{earlier_of, request_of, wallet_of};
ghost use Rattle.command_work.specs.Summary.{summary_text};
ghost use Rattle.fund_payment.specs.Report.{report_of};
ghost use Rattle.command_end.specs.declared.status.Status.TheVariants as statuses;
ghost use Rattle.command_inputs.specs.Cause.{Cause};
ghost use Rattle.command_end.specs.Names.{Sources};
ghost use Rattle.command_inputs.specs.Outcome as payments;
ghost use Rattle.command_inputs.specs.Outcome.{none_report_at, open_report_at};
ghost use Rattle.command_inputs.specs.Inputs.{AreInputs};
ghost use Rattle.command_inputs.specs.Names.{Payment};
ghost use Rattle.command_work.specs.Outcome.{IsCollision, Refused, Summed, outcome_of, load_of, load_plan, summed};

/// The law of what a workload of 1 to 10,000 coins comes to. Where two of its transactions have one txid, it comes to a
/// refusal for that, and to no other refusal. Where all differ, a book holds its coins and the plan of its request keeps
/// its rules; and it comes to the summary of what that plan comes to with 100,000 tries. A call does nothing.
pub fn workloads_are_due()
    ensures refused { (number count : ℕ) (cause : Cause) → IsCollision number count cause → outcome_of number count ≡ Refused cause }
    ensures only { (number count : ℕ) (cause : Cause) → 1 ≤ count → count ≤ 10_000 → outcome_of number count ≡ Refused cause → IsCollision number count cause }
    ensures book { (number count : ℕ) → count ≤ 10_000 → AreDistinctEarlier (earlier_of number count) → fault_of (load_of number count).book ≡ None }
    ensures plan { (number count : ℕ) → 1 ≤ count → count ≤ 10_000 → AreDistinctEarlier (earlier_of number count) → IsPlan (load_plan number count) }
    ensures funded { (number count : ℕ) (f : PlainFunded) → 1 ≤ count → count ≤ 10_000 → AreDistinctEarlier (earlier_of number count) → outcome_at (load_plan number count) 100_000 ≡ answers.Funded f
        → outcome_of number count ≡ Summed statuses.Done (summary_text number count (report_of (load_of number count).book (request_of number count) (wallet_of number count).change (tries_at (load_plan number count) 100_000) f)) }
    ensures none { (number count : ℕ) → 1 ≤ count → count ≤ 10_000 → AreDistinctEarlier (earlier_of number count) → outcome_at (load_plan number count) 100_000 ≡ answers.NoSelection
        → outcome_of number count ≡ Summed statuses.NoSelection (summary_text number count (none_report_at (load_plan number count) 100_000)) }
    ensures unfinished { (number count : ℕ) → 1 ≤ count → count ≤ 10_000 → AreDistinctEarlier (earlier_of number count) → outcome_at (load_plan number count) 100_000 ≡ answers.Unfinished
        → outcome_of number count ≡ Summed statuses.Unfinished (summary_text number count (open_report_at (load_plan number count) 100_000)) }
{}

/// The law of files: a workload comes to the summary of what a payment from files comes to that hold the same wallet, no
/// block, and the same request. A call does nothing.
pub fn workloads_run_as_files()
    ensures { (files : List ℕ → List ℕ) (s : Sources) (p : Payment) (number count : ℕ) → AreInputs files s p (wallet_of number count) [] (request_of number count) → AreDistinctEarlier (earlier_of number count) → outcome_of number count ≡ summed number count (payments.outcome_of files s p) }
{}

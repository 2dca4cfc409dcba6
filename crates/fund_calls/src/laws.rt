//! What calls promise of the bytes that they give, and that they give the same bytes each time.

ghost use Rattle.std.specs.Prelude.{ℕ, List, Some, None};
ghost use Rattle.command_end.specs.declared.status.Status.TheVariants as statuses;
ghost use Rattle.fund_calls.specs.Call.{IsCall};
ghost use Rattle.fund_calls.specs.Commands.{check_command, coins_command, fund_command, resume_command, settle_command, share_command, sweep_command, wide_command, work_command};
ghost use Rattle.fund_calls.specs.Given.{PlainGiven, no_files};
ghost use Rattle.fund_calls.specs.Once.{GivesTheSame};
ghost use Rattle.fund_calls.specs.Results.{IsAccepted, IsListing, IsNoPayment, IsOpenPayment, IsPayment, IsResumed, IsSettlement, IsShare, IsSweep, IsWide, IsWorked};

/// The law of calls that are done: what they printed, and the log that they wrote, are those of a payment of the bytes that were
/// given, of a listing of them, of a report that is accepted, or of a payment that is settled. Where `fund` finds no selection,
/// they prove it; where it is unfinished, the job is that of these bytes. A call does nothing.
pub fn calls_are_done()
    ensures listed { (g : PlainGiven) (printed log kept : List ℕ) → IsCall (Some coins_command) g None statuses.Done printed log kept → IsListing g printed }
    ensures funded { (g : PlainGiven) (printed log kept : List ℕ) → IsCall (Some fund_command) g None statuses.Done printed log kept → IsPayment g printed log }
    ensures none { (g : PlainGiven) (printed log kept : List ℕ) → IsCall (Some fund_command) g None statuses.NoSelection printed log kept → IsNoPayment g printed log }
    ensures unfinished { (g : PlainGiven) (printed log kept : List ℕ) → IsCall (Some fund_command) g None statuses.Unfinished printed log kept → IsOpenPayment g printed kept }
    ensures resumed { (g : PlainGiven) (job printed log kept : List ℕ) → IsCall (Some resume_command) g (Some job) statuses.Done printed log kept → IsResumed g job printed log }
    ensures accepted { (g : PlainGiven) (printed log kept : List ℕ) → IsCall (Some check_command) g None statuses.Done printed log kept → IsAccepted g printed }
    ensures widened { (g : PlainGiven) (printed log kept : List ℕ) → IsCall (Some wide_command) g None statuses.Done printed log kept → IsWide g printed log }
    ensures shared { (g : PlainGiven) (printed log kept : List ℕ) → IsCall (Some share_command) g None statuses.Done printed log kept → IsShare g printed log }
    ensures swept { (g : PlainGiven) (printed log kept : List ℕ) → IsCall (Some sweep_command) g None statuses.Done printed log kept → IsSweep g printed }
    ensures settled { (g : PlainGiven) (printed log kept : List ℕ) → IsCall (Some settle_command) g None statuses.Done printed log kept → IsSettlement g printed }
    ensures worked { (number count : ℕ) (printed log kept : List ℕ) → IsCall (work_command number count) no_files None statuses.Done printed log kept → IsWorked number count printed }
{}

/// The law of calls that are made twice: with the same bytes they end with one status, and give the same print, log and packed job,
/// whatever is refused. So it is of all nine. A call does nothing.
pub fn calls_give_the_same()
    ensures listed { (g : PlainGiven) → GivesTheSame (Some coins_command) g None }
    ensures funded { (g : PlainGiven) → GivesTheSame (Some fund_command) g None }
    ensures resumed { (g : PlainGiven) (job : List ℕ) → GivesTheSame (Some resume_command) g (Some job) }
    ensures checked { (g : PlainGiven) → GivesTheSame (Some check_command) g None }
    ensures widened { (g : PlainGiven) → GivesTheSame (Some wide_command) g None }
    ensures shared { (g : PlainGiven) → GivesTheSame (Some share_command) g None }
    ensures swept { (g : PlainGiven) → GivesTheSame (Some sweep_command) g None }
    ensures settled { (g : PlainGiven) → GivesTheSame (Some settle_command) g None }
    ensures worked { (number count : ℕ) → GivesTheSame (work_command number count) no_files None }
{}

//! Laws of jobs that are gone on with, in words that know no part, no position and no walk. A call of any of them does
//! nothing.

ghost use Rattle.std.specs.Prelude.{◌≡◌, ◌≢◌, ◌<◌, ◌≤◌, ◌+◌, ℕ, List, Option};
ghost use Rattle.block_feed.specs.Block.{ChainBlock};
ghost use Rattle.closing_log.specs.declared.mark.Mark.{Mark};
ghost use Rattle.fund_outside.specs.Kept.{KeptJob};
ghost use Rattle.fund_plan.specs.Outcome.{IsAnswerOf, most_tries, tries_at};
ghost use Rattle.fund_plan.specs.Selection.{PlainFunded};
ghost use Rattle.fund_plan.specs.State.{PlanState};
ghost use Rattle.fund_plan.specs.Steps.{steps_of};
ghost use Rattle.fund_plan.specs.declared.outcome.Outcome.TheVariants as answers;
ghost use Rattle.fund_steps.specs.Plan.{IsPlan, PlainPlan};
ghost use Rattle.request_text.specs.PlainRequest.{PlainRequest};
ghost use Rattle.search_run.specs.Step.{AreSteps};
ghost use Rattle.wallet_text.specs.PlainWallet.{PlainWallet};
ghost use Rattle.fund_files.specs.Chain.{chain_from};
ghost use Rattle.kept_job.specs.Continued.{ClaimsNoneOn, ClaimsOn};
ghost use Rattle.kept_job.specs.Kept.{IsKeptAt};
ghost use Rattle.kept_job.specs.declared.fault.KeptFault.{KeptFault};
ghost use Rattle.command_end.specs.Names.{Sources};
ghost use Rattle.command_inputs.specs.Digest.{digest_in};
ghost use Rattle.command_inputs.specs.Outcome as payments;
ghost use Rattle.command_inputs.specs.Outcome.{plan_of, planned, planned_after};
ghost use Rattle.command_inputs.specs.Inputs.{AreInputs};
ghost use Rattle.command_inputs.specs.Names.{Payment};
ghost use Rattle.command_resume.specs.Outcome.{ComesTo, IsGone, IsNotKept, Outcome};

/// The law of stopped runs: where a job was left by an unfinished run of some files after n tries, they and the job come to
/// what the files come to with n tries and the request's together, and that is what the same files come to at once, where
/// their request asks for so many tries and nothing else is other. While the job has tries left, they do come to something;
/// it is refused for nothing but that it has made all its tries. Whatever the job is, they come to one outcome at most. A call
/// does nothing.
pub fn stopped_runs_go_on()
    ensures goes { (files : List ℕ → List ℕ) (s : Sources) (p : Payment) (w : PlainWallet) (blocks : List ChainBlock) (r : PlainRequest) (n : ℕ) (job : Option KeptJob) (due : payments.Outcome) →
        AreInputs files s p w blocks r → IsPlan (plan_of (chain_from w blocks) r) → IsKeptAt (plan_of (chain_from w blocks) r) (digest_in files s p) n job →
        IsGone files s p job due → due ≡ planned_after (chain_from w blocks) r (n + r.tries) }
    ensures kept { (files : List ℕ → List ℕ) (s : Sources) (p : Payment) (w : PlainWallet) (blocks : List ChainBlock) (r : PlainRequest) (n : ℕ) (job : Option KeptJob) →
        AreInputs files s p w blocks r → IsPlan (plan_of (chain_from w blocks) r) → AreSteps (steps_of (plan_of (chain_from w blocks) r)) → IsKeptAt (plan_of (chain_from w blocks) r) (digest_in files s p) n job →
        tries_at (plan_of (chain_from w blocks) r) n < most_tries → (due : payments.Outcome) × IsGone files s p job due }
    ensures refused { (files : List ℕ → List ℕ) (s : Sources) (p : Payment) (w : PlainWallet) (blocks : List ChainBlock) (r : PlainRequest) (n : ℕ) (job : Option KeptJob) (fault : KeptFault) →
        AreInputs files s p w blocks r → IsKeptAt (plan_of (chain_from w blocks) r) (digest_in files s p) n job →
        IsNotKept files s p job fault → (fault ≡ KeptFault.Spent) × (most_tries ≤ tries_at (plan_of (chain_from w blocks) r) n) }
    ensures at_once { (w : PlainWallet) (blocks : List ChainBlock) (r : PlainRequest) (n : ℕ) →
        planned (chain_from w blocks) (record r { tries = n }) ≡ planned_after (chain_from w blocks) r n }
    ensures one { (files : List ℕ → List ℕ) (s : Sources) (p : Payment) (job : Option KeptJob) (a b : Outcome) → ComesTo files s p job a → ComesTo files s p job b → a ≡ b }
{}

/// The law of resumed runs: a payment that keeps the claims of a run that went on, and isn't marked as partial, is the answer of
/// its plan, of all that there is to find; and so is that there is no selection, where that is claimed. What a keeper returned
/// is not asked. A call does nothing.
pub fn resumed_runs_have_the_answer()
    ensures funded { (p : PlainPlan) (from tries : ℕ) (s : PlanState) (f : PlainFunded) → ClaimsOn p from tries s f → f.mark ≢ Mark.Partial → IsAnswerOf p (answers.Funded f) }
    ensures none { (p : PlainPlan) (s : PlanState) → ClaimsNoneOn p s → IsAnswerOf p answers.NoSelection }
{}

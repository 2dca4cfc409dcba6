//! What the files of a wide search come to, in words of the files one by one.

ghost use Rattle.std.specs.Prelude.{◌≡◌, ℕ, List};
ghost use Rattle.block_feed.specs.Block.{ChainBlock};
ghost use Rattle.fund_plan.specs.Selection.{PlainFunded};
ghost use Rattle.fund_steps.specs.Plan.{IsPlan};
ghost use Rattle.request_text.specs.PlainRequest.{PlainRequest};
ghost use Rattle.wallet_text.specs.PlainWallet.{PlainWallet};
ghost use Rattle.fund_files.specs.Chain.{chain_from, history_of};
ghost use Rattle.fund_payment.specs.Report.{report_of};
ghost use Rattle.command_end.specs.Names.{Sources};
ghost use Rattle.command_inputs.specs.Cause.{Cause};
ghost use Rattle.command_inputs.specs.Names.{Payment};
ghost use Rattle.command_inputs.specs.Outcome.{none_report, plan_of};
ghost use Rattle.wide_plan.specs.LogText.{text_of};
ghost use Rattle.wide_plan.specs.Run.{run_of};
ghost use Rattle.wide_plan.specs.declared.outcome.WideOutcome.TheVariants as answers;
ghost use Rattle.command_wide.specs.Inputs.{AreInputs, IsMeant, IsNotWide};
ghost use Rattle.command_wide.specs.Outcome.{Funded, NoSelection, NotWide, Refused, Unfinished, open_report, outcome_of};

/// The law of what the files of a wide search come to: a cause for a refusal which they mean is the one that they come to, and so
/// is a request that the wide search doesn't take. Where they hold a wallet, blocks and a request that it takes, and the plan keeps
/// its rules, they come to what the search of that plan comes to with the request's tries. A call does nothing.
pub fn wide_searches_are_due()
    ensures refused { (files : List ℕ → List ℕ) (s : Sources) (p : Payment) (cause : Cause) → IsMeant files s p cause → outcome_of files s p ≡ Refused cause }
    ensures not_wide { (files : List ℕ → List ℕ) (s : Sources) (p : Payment) → IsNotWide files s p → outcome_of files s p ≡ NotWide }
    ensures funded { (files : List ℕ → List ℕ) (s : Sources) (p : Payment) (w : PlainWallet) (blocks : List ChainBlock) (r : PlainRequest) (f : PlainFunded) → AreInputs files s p w blocks r → IsPlan (plan_of (chain_from w blocks) r) → (run_of (plan_of (chain_from w blocks) r)).outcome ≡ answers.Funded f → outcome_of files s p ≡ Funded (report_of (history_of w blocks) r w.change (run_of (plan_of (chain_from w blocks) r)).tries f) (text_of (run_of (plan_of (chain_from w blocks) r)).sections) }
    ensures none { (files : List ℕ → List ℕ) (s : Sources) (p : Payment) (w : PlainWallet) (blocks : List ChainBlock) (r : PlainRequest) → AreInputs files s p w blocks r → IsPlan (plan_of (chain_from w blocks) r) → (run_of (plan_of (chain_from w blocks) r)).outcome ≡ answers.NoSelection → outcome_of files s p ≡ NoSelection (none_report (run_of (plan_of (chain_from w blocks) r)).tries) (text_of (run_of (plan_of (chain_from w blocks) r)).sections) }
    ensures unfinished { (files : List ℕ → List ℕ) (s : Sources) (p : Payment) (w : PlainWallet) (blocks : List ChainBlock) (r : PlainRequest) (number : ℕ) → AreInputs files s p w blocks r → IsPlan (plan_of (chain_from w blocks) r) → (run_of (plan_of (chain_from w blocks) r)).outcome ≡ answers.Unfinished number → outcome_of files s p ≡ Unfinished (open_report (run_of (plan_of (chain_from w blocks) r)).tries number) }
{}

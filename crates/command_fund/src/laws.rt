//! What the files of a payment come to, in words of the files one by one.

ghost use Rattle.std.specs.Prelude.{◌≡◌, ℕ, List, None};
ghost use Rattle.block_feed.specs.Block.{ChainBlock};
ghost use Rattle.coin_book.specs.Faults.{fault_of};
ghost use Rattle.fund_plan.specs.Answer.{IsPayment};
ghost use Rattle.fund_plan.specs.Outcome.{IsAnswerOf, outcome_at, tries_at};
ghost use Rattle.fund_plan.specs.Selection.{PlainFunded};
ghost use Rattle.fund_plan.specs.declared.outcome.Outcome.TheVariants as answers;
ghost use Rattle.fund_steps.specs.Plan.{IsPlan};
ghost use Rattle.request_text.specs.PlainRequest.{PlainRequest};
ghost use Rattle.wallet_text.specs.PlainWallet.{PlainWallet};
ghost use Rattle.wallet_text.specs.WalletRules.{IsWallet};
ghost use Rattle.fund_files.specs.Chain.{IsChain, chain_from, history_of};
ghost use Rattle.fund_files.specs.declared.chain.Chain.{Chain};
ghost use Rattle.fund_payment.specs.Report.{report_of};
ghost use Rattle.command_end.specs.Names.{Sources};
ghost use Rattle.command_inputs.specs.Cause.{Cause};
ghost use Rattle.command_inputs.specs.Outcome.{Refused, Unfinished, NoSelection, Funded, bump_fault_in, outcome_of, log_text_at, none_report_at, open_report_at, plan_of};
ghost use Rattle.command_inputs.specs.Inputs.{AreInputs};
ghost use Rattle.command_inputs.specs.Meant.{IsEndedPlan, IsMeant};
ghost use Rattle.command_inputs.specs.Names.{Payment};
ghost use Rattle.command_inputs.specs.Packages.{PaysForPackages};
ghost use Rattle.command_inputs.specs.Replacing.{PaysTheBurden, ReplacesIf};

/// The law of what the files of a payment come to: a cause for a refusal which they mean is the one that they come to; and
/// where they hold a wallet, blocks and a request of which the plan keeps its rules, they come to what that plan comes to
/// with the request's tries. A call does nothing.
pub fn payments_are_due()
    ensures refused { (files : List ℕ → List ℕ) (s : Sources) (p : Payment) (cause : Cause) → IsMeant files s p cause → outcome_of files s p ≡ Refused cause }
    ensures funded { (files : List ℕ → List ℕ) (s : Sources) (p : Payment) (w : PlainWallet) (blocks : List ChainBlock) (r : PlainRequest) (f : PlainFunded) → AreInputs files s p w blocks r → IsPlan (plan_of (chain_from w blocks) r) → outcome_at (plan_of (chain_from w blocks) r) r.tries ≡ answers.Funded f → outcome_of files s p ≡ Funded (report_of (history_of w blocks) r w.change (tries_at (plan_of (chain_from w blocks) r) r.tries) f) (log_text_at (plan_of (chain_from w blocks) r) r.tries) }
    ensures none { (files : List ℕ → List ℕ) (s : Sources) (p : Payment) (w : PlainWallet) (blocks : List ChainBlock) (r : PlainRequest) → AreInputs files s p w blocks r → IsPlan (plan_of (chain_from w blocks) r) → outcome_at (plan_of (chain_from w blocks) r) r.tries ≡ answers.NoSelection → outcome_of files s p ≡ NoSelection (none_report_at (plan_of (chain_from w blocks) r) r.tries) (log_text_at (plan_of (chain_from w blocks) r) r.tries) }
    // The same, in words that know no run, where the tries reach the end: the answer of all that there is to find.
    ensures answered { (files : List ℕ → List ℕ) (s : Sources) (p : Payment) (w : PlainWallet) (blocks : List ChainBlock) (r : PlainRequest) (f : PlainFunded) → AreInputs files s p w blocks r → IsEndedPlan (plan_of (chain_from w blocks) r) → IsAnswerOf (plan_of (chain_from w blocks) r) (answers.Funded f) → outcome_of files s p ≡ Funded (report_of (history_of w blocks) r w.change (tries_at (plan_of (chain_from w blocks) r) r.tries) f) (log_text_at (plan_of (chain_from w blocks) r) r.tries) }
    ensures answered_by_none { (files : List ℕ → List ℕ) (s : Sources) (p : Payment) (w : PlainWallet) (blocks : List ChainBlock) (r : PlainRequest) → AreInputs files s p w blocks r → IsEndedPlan (plan_of (chain_from w blocks) r) → IsAnswerOf (plan_of (chain_from w blocks) r) answers.NoSelection → outcome_of files s p ≡ NoSelection (none_report_at (plan_of (chain_from w blocks) r) r.tries) (log_text_at (plan_of (chain_from w blocks) r) r.tries) }
    ensures unfinished { (files : List ℕ → List ℕ) (s : Sources) (p : Payment) (w : PlainWallet) (blocks : List ChainBlock) (r : PlainRequest) → AreInputs files s p w blocks r → IsPlan (plan_of (chain_from w blocks) r) → outcome_at (plan_of (chain_from w blocks) r) r.tries ≡ answers.Unfinished → outcome_of files s p ≡ Unfinished (open_report_at (plan_of (chain_from w blocks) r) r.tries) }
{}

/// The law of replacements: where nothing keeps the payment from being replaced that a request names, each payment of the
/// request's plan replaces that one by the rules of BIP 125, whatever its mark. So does any other that spends what the plan
/// can spend, the presets among it, and pays the plan's burden beside the fee of its size. A call does nothing.
pub fn payments_replace()
    ensures payments { (k : Chain) (r : PlainRequest) (f : PlainFunded) → IsChain k → fault_of k.book ≡ None → bump_fault_in k r ≡ None → IsPlan (plan_of k r) → IsPayment (plan_of k r) f → ReplacesIf k.wallet k.book r f }
    ensures others { (k : Chain) (r : PlainRequest) (f : PlainFunded) → IsChain k → fault_of k.book ≡ None → bump_fault_in k r ≡ None → IsPlan (plan_of k r) → PaysTheBurden (plan_of k r) f → ReplacesIf k.wallet k.book r f }
{}

/// The law of packages: a payment of the request's plan pays with the Pending payments that its coins rest on, what they pay
/// being known, at least the fee of the request's rate for the sizes of all together; where the price of each coin is below
/// 21,000,000 bitcoin. A call does nothing.
pub fn payments_pay_for_packages()
    ensures { (k : Chain) (r : PlainRequest) (f : PlainFunded) → IsWallet k.wallet → IsPayment (plan_of k r) f → PaysForPackages k.wallet k.book r f }
{}

//! What the files of a payment come to whose recipients bear the fee, in words of the files one by one.

ghost use Rattle.std.specs.Prelude.{◌≡◌, ◌≤◌, ℕ, List};
ghost use Rattle.block_feed.specs.Block.{ChainBlock};
ghost use Rattle.fund_steps.specs.Amounts.{value_of};
ghost use Rattle.request_text.specs.PlainRequest.{PlainRequest};
ghost use Rattle.wallet_text.specs.PlainWallet.{PlainWallet};
ghost use Rattle.fund_files.specs.Chain.{chain_from};
ghost use Rattle.command_end.specs.Names.{Sources};
ghost use Rattle.command_inputs.specs.Cause.{Cause};
ghost use Rattle.command_inputs.specs.Names.{Payment};
ghost use Rattle.command_inputs.specs.Outcome.{none_report};
ghost use Rattle.command_amounts.specs.Coins.{coins_for};
ghost use Rattle.command_share.specs.Inputs.{AreInputs, CantBear, IsMeant, IsNotShare};
ghost use Rattle.command_share.specs.Outcome.{NoSelection, NotShare, Refused, ShareDust, Shared, Unfinished, log_text, open_report, outcome_of, share_report, shared};
ghost use Rattle.command_share.specs.Paying.{PlainPaying};
ghost use Rattle.command_share.specs.Results.{IsNone, IsOpen, IsPaid};
ghost use Rattle.command_share.specs.Rows.{PlainRun};

/// The law of what the files of such a payment come to. A cause for a refusal which they mean is the one that they come to. A
/// request that isn't taken is refused as that, and one that is taken comes to what is due for it on its chain.
///
/// That is the refusal of a recipient that can't bear its share, where one is the first such. Where the coins aren't worth too
/// much it is what the searches come to: no selection, tries that are used up, or a payment. A call does nothing.
pub fn shares_are_due()
    ensures refused { (files : List ℕ → List ℕ) (s : Sources) (p : Payment) (cause : Cause) → IsMeant files s p cause → outcome_of files s p ≡ Refused cause }
    ensures not_share { (files : List ℕ → List ℕ) (s : Sources) (p : Payment) → IsNotShare files s p → outcome_of files s p ≡ NotShare }
    ensures shared { (files : List ℕ → List ℕ) (s : Sources) (p : Payment) (w : PlainWallet) (blocks : List ChainBlock) (r : PlainRequest) → AreInputs files s p w blocks r → outcome_of files s p ≡ shared (chain_from w blocks) r }
    ensures dust { (files : List ℕ → List ℕ) (s : Sources) (p : Payment) (w : PlainWallet) (blocks : List ChainBlock) (r : PlainRequest) (index : ℕ) → AreInputs files s p w blocks r → CantBear (chain_from w blocks) r index → outcome_of files s p ≡ ShareDust index }
    ensures none { (files : List ℕ → List ℕ) (s : Sources) (p : Payment) (w : PlainWallet) (blocks : List ChainBlock) (r : PlainRequest) (run : PlainRun) → AreInputs files s p w blocks r → value_of (coins_for (chain_from w blocks) r) ≤ 2_100_000_000_000_000 → IsNone (chain_from w blocks) r run → outcome_of files s p ≡ NoSelection (none_report run.tries) (log_text run.sections) }
    ensures unfinished { (files : List ℕ → List ℕ) (s : Sources) (p : Payment) (w : PlainWallet) (blocks : List ChainBlock) (r : PlainRequest) (run : PlainRun) (number : ℕ) → AreInputs files s p w blocks r → value_of (coins_for (chain_from w blocks) r) ≤ 2_100_000_000_000_000 → IsOpen (chain_from w blocks) r run number → outcome_of files s p ≡ Unfinished (open_report run.tries number) }
    ensures paid { (files : List ℕ → List ℕ) (s : Sources) (p : Payment) (w : PlainWallet) (blocks : List ChainBlock) (r : PlainRequest) (run : PlainRun) (paying : PlainPaying) → AreInputs files s p w blocks r → value_of (coins_for (chain_from w blocks) r) ≤ 2_100_000_000_000_000 → IsPaid (chain_from w blocks) r run paying → outcome_of files s p ≡ Shared (share_report (chain_from w blocks) r run.tries paying) (log_text run.sections) }
{}

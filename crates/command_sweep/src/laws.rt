//! What the files of a sweep come to, in words of the files one by one.

ghost use Rattle.std.specs.Prelude.{◌≡◌, ℕ, List};
ghost use Rattle.block_feed.specs.Block.{ChainBlock};
ghost use Rattle.coin_candidates.specs.declared.candidate.Candidate.{Candidate};
ghost use Rattle.request_text.specs.PlainRequest.{PlainRequest};
ghost use Rattle.wallet_text.specs.PlainWallet.{PlainWallet};
ghost use Rattle.fund_files.specs.Chain.{chain_from};
ghost use Rattle.command_end.specs.Names.{Sources};
ghost use Rattle.command_inputs.specs.Cause.{Cause};
ghost use Rattle.command_inputs.specs.Names.{Payment};
ghost use Rattle.command_inputs.specs.Outcome.{none_report};
ghost use Rattle.command_sweep.specs.Inputs.{AreInputs, CanSweep, IsMeant, IsNotSweep, IsTooHeavy};
ghost use Rattle.command_sweep.specs.Outcome.{NoSelection, NotSweep, Refused, Swept, TooHeavy, outcome_of, sweep_report};
ghost use Rattle.command_sweep.specs.Results.{IsShort, SweepsAll};

/// The law of what the files of a sweep come to. A cause for a refusal which they mean is the one that they come to. So is a
/// request that a sweep doesn't take, and a payment that is too heavy. Otherwise they come to no selection where there is no
/// coin, or less is left than is asked for. They come to the payment of all coins where that is made. A call does nothing.
pub fn sweeps_are_due()
    ensures refused { (files : List ℕ → List ℕ) (s : Sources) (p : Payment) (cause : Cause) → IsMeant files s p cause → outcome_of files s p ≡ Refused cause }
    ensures not_sweep { (files : List ℕ → List ℕ) (s : Sources) (p : Payment) → IsNotSweep files s p → outcome_of files s p ≡ NotSweep }
    ensures heavy { (files : List ℕ → List ℕ) (s : Sources) (p : Payment) (w : PlainWallet) (blocks : List ChainBlock) (r : PlainRequest) (weight : ℕ) → AreInputs files s p w blocks r → IsTooHeavy (chain_from w blocks) r weight → outcome_of files s p ≡ TooHeavy weight }
    ensures none { (files : List ℕ → List ℕ) (s : Sources) (p : Payment) (w : PlainWallet) (blocks : List ChainBlock) (r : PlainRequest) → AreInputs files s p w blocks r → CanSweep (chain_from w blocks) r → IsShort (chain_from w blocks) r → outcome_of files s p ≡ NoSelection (none_report 0) }
    ensures swept { (files : List ℕ → List ℕ) (s : Sources) (p : Payment) (w : PlainWallet) (blocks : List ChainBlock) (r : PlainRequest) (coins : List Candidate) (amount : ℕ) → AreInputs files s p w blocks r → CanSweep (chain_from w blocks) r → SweepsAll (chain_from w blocks) r coins amount → outcome_of files s p ≡ Swept (sweep_report (chain_from w blocks) r coins amount) }
{}

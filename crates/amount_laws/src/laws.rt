//! What holds of the reports that `sweep` and `share` print, whatever the code does.

ghost use Rattle.std.specs.Prelude.{ℕ, List, None};
ghost use Rattle.amount_reports.specs.SharedText.{IsSharedText};
ghost use Rattle.amount_reports.specs.SweptText.{IsSweptText};
ghost use Rattle.coin_candidates.specs.declared.candidate.Candidate.{Candidate};
ghost use Rattle.fund_files.specs.declared.chain.Chain.{Chain};
ghost use Rattle.fund_steps.specs.Amounts.{AreWithin};
ghost use Rattle.psbt_codec.specs.Psbt.{IsPsbt};
ghost use Rattle.request_text.specs.PlainRequest.{PlainRequest};
ghost use Rattle.command_amounts.specs.Signing.{psbt_from};
ghost use Rattle.command_share.specs.Outcome.{share_report};
ghost use Rattle.command_share.specs.Paying.{PlainPaying, shared_request};
ghost use Rattle.command_share.specs.Results.{IsPaid};
ghost use Rattle.command_share.specs.Rows.{PlainRun};
ghost use Rattle.command_sweep.specs.Outcome.{sweep_report, swept_request};
ghost use Rattle.command_sweep.specs.Results.{SweepsAll};
ghost use Rattle.amount_laws.specs.Told.{shared_told, swept_told};

/// The law of sweeps: what is printed of a payment of all coins is a text of its report: what the recipient gets, the coins, the
/// figures and the PSBT of that payment. A call does nothing.
pub fn sweeps_are_told()
    ensures { (k : Chain) (r : PlainRequest) (coins : List Candidate) (amount : ℕ) → SweepsAll k r coins amount → AreWithin coins → IsPsbt (psbt_from k.book (swept_request r amount) k.wallet.change coins None) → IsSweptText (sweep_report k r coins amount) (swept_told k r coins amount) }
{}

/// The law of shares: what is printed of a payment whose recipients bear the fee is a text of its report: the row, the tries, the
/// coins, what each recipient is left with, the figures, the change and the PSBT of that payment. A call does nothing.
pub fn shares_are_told()
    ensures { (k : Chain) (r : PlainRequest) (run : PlainRun) (f : PlainPaying) → IsPaid k r run f → IsPsbt (psbt_from k.book (shared_request r f.borne) k.wallet.change f.coins f.change) → IsSharedText (share_report k r run.tries f) (shared_told k r run.tries f) }
{}

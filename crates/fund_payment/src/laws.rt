//! What a signer is shown.

ghost use Rattle.std.specs.Prelude.{All};
ghost use Rattle.coin_book.specs.History.{History};
ghost use Rattle.fund_plan.specs.Selection.{PlainFunded};
ghost use Rattle.payment_states.specs.Makers.{HasMaker};
ghost use Rattle.request_text.specs.PlainRequest.{PlainRequest};
ghost use Rattle.wallet_text.specs.declared.wallet.Watch.{Watch};
ghost use Rattle.fund_payment.specs.Report.{psbt_of};
ghost use Rattle.fund_payment.specs.Shown.{ShowsCoins};

/// The law of what a signer is shown: where a history has the transactions that made the coins of a payment, each input of
/// its PSBT shows the value and the script of its coin. They are shown alone where the script is a witness program, and
/// otherwise by the transaction that made the coin. A call does nothing.
pub fn inputs_show_coins()
    ensures { (h : History) (r : PlainRequest) (change : Watch) (f : PlainFunded) → All (HasMaker h) f.coins → ShowsCoins f.coins (psbt_of h r change f) }
{}

//! What holds of payments of all coins that words ask for, whatever the code does.

ghost use Rattle.std.specs.Prelude.{◌≤◌, string_bytes};
ghost use Rattle.amount_reports.specs.SweptText.{PlainSwept};
ghost use Rattle.fund_shelf.specs.Causes.{ShelfView};
ghost use Rattle.held_run.specs.Held.{IsOther};
ghost use Rattle.pay_words.specs.declared.asked.Asked.{Asked};
ghost use Rattle.command_sweeping.specs.AsAsked.{IsAsAsked, IsMoneyOf};
ghost use Rattle.command_sweeping.specs.Fees.{greatest_of};
ghost use Rattle.command_sweeping.specs.Run.{IsPayment};
ghost use Rattle.command_sweeping.specs.Sweeps.{IsTaken};

/// The law of what is swept: where the files are told, a payment of all coins is that of the wallet, the blocks and exactly the
/// request that is asked for. It spends all coins that the last row of the ladder takes. The recipient gets what they are worth less
/// the fees of their inputs, their prices and the fee of the base. Its report is that of it. A call does nothing.
pub fn sweeps_are_as_asked()
    ensures { (a : Asked) (files after : ShelfView) (r : PlainSwept) → IsOther (string_bytes a.names.wallet) → IsOther (string_bytes a.names.blocks) → IsPayment (Unit {0}) a files after r → IsAsAsked a files r }
{}

/// The law of money: where the files are told, a payment of all coins that is taken has one output, to the one recipient that is
/// asked for. What its coins are worth goes there, but for the fee, which is at most the greatest that is taken. A call does nothing.
pub fn all_coins_go_as_asked()
    ensures { (a : Asked) (files after : ShelfView) (r : PlainSwept) → IsOther (string_bytes a.names.wallet) → IsOther (string_bytes a.names.blocks) → IsTaken (Unit {0}) a files after r → (k : IsAsAsked a files r) × IsMoneyOf a r × (r.fee ≤ greatest_of a r) }
{}

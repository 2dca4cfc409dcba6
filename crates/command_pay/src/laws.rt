//! What holds of payments that words ask for, whatever the code does.

ghost use Rattle.std.specs.Prelude.{List, ℕ, ◌≡◌, ◌≢◌, ◌≤◌, ◌⊎◌, string_bytes};
ghost use Rattle.command_end.specs.declared.status.Status.{Status};
ghost use Rattle.fund_shelf.specs.Causes.{Rose, ShelfView};
ghost use Rattle.fund_report.specs.PlainFunded.{PlainFunded};
ghost use Rattle.pay_words.specs.declared.asked.Asked.{Asked};
ghost use Rattle.held_run.specs.Held.{IsOther};
ghost use Rattle.command_pay.specs.AsAsked.{IsAsAsked};
ghost use Rattle.command_pay.specs.Money.{IsMoneyOf};
ghost use Rattle.command_pay.specs.Paid.{fee_in};
ghost use Rattle.command_pay.specs.Pays.{IsTaken, greatest_fee};
ghost use Rattle.command_pay.specs.Run.{IsPayment, IsRun};
ghost use Rattle.command_pay.specs.Saving.{IsSavingOf};
ghost use Rattle.command_pay.specs.declared.report.PaidReport.{PaidReport};
ghost use Rattle.command_pay.specs.declared.report.PaidReport.TheVariants.{Whole};
ghost use Rattle.pay_words.specs.declared.way.Way.TheVariants as ways;

/// The law of what is paid: where the files are told, a payment is one to which the wallet, the blocks and exactly the request that
/// is asked for come. By `fund` and `wide` it is one of their plan, and what its mark claims by its way is true. By `share` its coins are
/// the lightest of their row, and the recipients bear the fee. Its report and its log are those of it. A call does nothing.
pub fn payments_are_as_asked()
    ensures { (a : Asked) (files after : ShelfView) (f : PaidReport) (log : List ℕ) → IsOther (string_bytes a.names.wallet) → IsOther (string_bytes a.names.blocks) → IsPayment (Unit {0}) a files after f log → IsAsAsked a files f log }
{}

/// The law of money: where the files are told, a payment that is taken has each payment that is asked for as an output of its own,
/// in order, before the change; each coin that is listed among its inputs; and a fee of at most the greatest that is taken, which
/// is what its coins are worth beyond its outputs. The change goes to the wallet's script. By `share` each recipient gets what is asked
/// for less its share of what they bear together, and no less than its dust threshold. A call does nothing.
pub fn money_goes_as_asked()
    ensures { (a : Asked) (files after : ShelfView) (f : PaidReport) (log : List ℕ) → IsOther (string_bytes a.names.wallet) → IsOther (string_bytes a.names.blocks) → IsTaken (Unit {0}) a files after f log → (k : IsAsAsked a files f log) × IsMoneyOf a k.wallet.change f × (fee_in f ≤ greatest_fee a) }
{}

/// The law of savings: what a payment by `wide` saves, its waste below 0, is what its inputs would cost at the long-term rate, less what
/// it pays beyond the fee of its base. A call does nothing.
pub fn savings_are_later_fees()
    ensures { (a : Asked) (files : ShelfView) (f : PlainFunded) (log : List ℕ) (k : IsAsAsked a files (Whole f) log) → a.way ≡ ways.Wide → IsSavingOf k.wallet k.blocks k.request k.paid.funded f }
{}

/// The law of failed reads: where the files are told, a run that ends with a failed read has raised the count of the wallet's or of
/// the blocks' at the files themselves, and any other run has raised none. A call does nothing.
pub fn failed_reads_are_counted()
    ensures rose { (a : Asked) (files after : ShelfView) (said log : List ℕ) → IsRun (Unit {0}) a files after Status.ReadFault said log → Rose (files.reads (string_bytes a.names.wallet)) (after.reads (string_bytes a.names.wallet)) ⊎ Rose (files.reads (string_bytes a.names.blocks)) (after.reads (string_bytes a.names.blocks)) }
    ensures none { (a : Asked) (files after : ShelfView) (status : Status) (said log : List ℕ) → IsRun (Unit {0}) a files after status said log → status ≢ Status.ReadFault → (name : List ℕ) → IsOther name → after.reads name ≡ files.reads name }
{}

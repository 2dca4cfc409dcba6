//! What holds of the files that payments write, whatever the code does.

ghost use Rattle.std.specs.Prelude.{◌≡◌, ℕ, List, string_bytes};
ghost use Rattle.fund_shelf.specs.Causes.{ShelfView};
ghost use Rattle.fund_report.specs.PlainFunded.{PlainFunded};
ghost use Rattle.fund_report.specs.declared.report.Report.TheVariants as kinds;
ghost use Rattle.command_inputs.specs.Names.{Payment};
ghost use Rattle.command_check.specs.Evidence.{IsWithin};
ghost use Rattle.command_check.specs.Outcome.{Accepted, ComesTo};
ghost use Rattle.held_run.specs.Held.{IsOther};
ghost use Rattle.pay_words.specs.declared.asked.Asked.{Asked};
ghost use Rattle.pay_words.specs.declared.way.Way.TheVariants as ways;
ghost use Rattle.command_pay.specs.Run.{IsPayment, sources_of};
ghost use Rattle.command_pay.specs.declared.report.PaidReport.TheVariants.{Whole};
ghost use Rattle.checked_payments.specs.Beside.{StandsFor};

/// The law of written payments: where the files are told, the request, the report and the log of a payment by `fund` are accepted by
/// `check` beside the same wallet and blocks, whatever names they have. So what the words of a payment had written can be checked. That is
/// said of a report that is short enough to be judged. A call does nothing.
pub fn written_payments_are_accepted()
    ensures { (a : Asked) (files after : ShelfView) (f : PlainFunded) (log : List ℕ) (k : IsPayment (Unit {0}) a files after (Whole f) log) (checked : List ℕ → List ℕ) (p : Payment) (name : List ℕ) → IsOther (string_bytes a.names.wallet) → IsOther (string_bytes a.names.blocks) → a.way ≡ ways.Fund → IsWithin k.said → StandsFor a files.files k.said log checked p name → ComesTo checked (sources_of a) p name (Accepted (kinds.Funded f)) }
{}

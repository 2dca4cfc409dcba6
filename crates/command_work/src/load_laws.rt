//! Laws of workloads. A call of any of them does nothing.

ghost use Rattle.std.specs.Prelude.{◌≡◌, ◌*◌, ◌≤◌, ◌<◌, ◌^◌, ℕ, Ok, replicate};
ghost use Rattle.closing_log.specs.declared.log.Stage.{Stage};
ghost use Rattle.fund_report.specs.PlainFunded.{PlainFunded};
ghost use Rattle.fund_report.specs.ReportText.{CanBeRead, IsSized, text_of};
ghost use Rattle.fund_report.specs.declared.report.Report.TheVariants.{Funded, NoSelection, Unfinished};
ghost use Rattle.request_text.specs.PlainRequest.{PlainRequest};
ghost use Rattle.request_text.specs.RequestText.{request_at};
ghost use Rattle.serde_json.specs.Data.{Data};
ghost use Rattle.tx_codec.specs.TransactionText.{bare_text};
ghost use Rattle.command_work.specs.Coins.{coin_at, total_of};
ghost use Rattle.command_work.specs.LeftOut.{LeavesRestOut};
ghost use Rattle.command_work.specs.Lines.{short_lines};
ghost use Rattle.command_work.specs.Outline.{outline_of};
ghost use Rattle.command_work.specs.Load.{earlier_at, request_with};

/// The law of the amounts: a coin is worth 10,000 to 5,009,999 satoshi, and all of them together no less and no more
/// than so many such coins.
pub fn coins_are_within()
    ensures least { (number i : ℕ) → 10_000 ≤ (coin_at number i).value }
    ensures most { (number i : ℕ) → (coin_at number i).value ≤ 5_009_999 }
    ensures all { (number count : ℕ) → (10_000 * count ≤ total_of number count) × (total_of number count ≤ 5_009_999 * count) }
{}

/// The law of the transactions: those of two coins have different texts. So two of them can have one txid only where
/// two different strings have one double SHA-256.
pub fn texts_differ()
    ensures { (number i j : ℕ) → i < 2 ^ 32 → j < 2 ^ 32 → bare_text (earlier_at number i).tx ≡ bare_text (earlier_at number j).tx → i ≡ j }
{}

/// The law of the request: it is what a request file says that has the same recipients and rate and a seed of zeros, and
/// leaves out all other members.
pub fn leaves_the_rest_out()
    ensures { (d : Data) (q : PlainRequest) (amount : ℕ) → LeavesRestOut d → request_at d ≡ Ok q → q.recipients ≡ (request_with amount).recipients → q.rate ≡ 25_000 → q.seed ≡ replicate 32 0 → q ≡ request_with amount }
{}

/// The law of the summary's lines: of a payment's report that can be read, whose numbers fit, exactly the lines of the
/// coins and of the PSBT go, and the others stay in order. Of any other such report all lines stay.
pub fn keeps_all_but_coins_and_psbt()
    ensures funded { (f : PlainFunded) → CanBeRead (Funded f) → IsSized (Funded f) → short_lines (text_of (Funded f)) ≡ outline_of f }
    ensures none { (tries : ℕ) → IsSized (NoSelection tries) → short_lines (text_of (NoSelection tries)) ≡ text_of (NoSelection tries) }
    ensures unfinished { (tries row : ℕ) (stage : Stage) → IsSized (Unfinished tries row stage) → short_lines (text_of (Unfinished tries row stage)) ≡ text_of (Unfinished tries row stage) }
{}

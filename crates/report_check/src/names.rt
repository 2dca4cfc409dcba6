//! Whether a report names a payment.

ghost use Rattle.std.specs.Prelude.{◌≡◌, ◌↔◌, map, IsTrue, option_copied};
ghost use Rattle.report_check.specs.Answer.{NamesPayment};
ghost use Rattle.report_check.specs.Naming.{Matches};
ghost use Rattle.report_check.specs.Payment.{line_of};

use coin_candidates::Candidate;
use fund_plan::Funded;
use fund_report::{FundedReport, InLine};

/// The coins behind the first one, where that is the line's coin with its value; `None` where it isn't, or there is none.
fn matched<'a>(line: &InLine, coins: &'a [Candidate]) -> Option<&'a [Candidate]>
    ensures { Matches line.now coins.now (option_copied result) }
{
    match coins {
        [] => None,
        [coin, rest @ ..] => {
            let own = InLine {
                coin: coin.coin,
                value: coin.value,
            };
            if *line == own { Some(rest) } else { None }
        }
    }
}

/// Whether the lines are those of these coins, in their order.
pub(crate) fn are_lines(lines: &[InLine], coins: &[Candidate]) -> bool
    ensures { IsTrue result ↔ (lines.now ≡ map line_of coins.now) }
{
    let mut rest = coins;
    'matching: for line in lines {
        let Some(next) = matched(line, rest) else {
            return false;
        };
        rest = next;
    }
    rest.is_empty()
}

/// Whether a report has mark, row, stage and coins of a payment.
pub(crate) fn names(report: &FundedReport, funded: &Funded) -> bool
    ensures { IsTrue result ↔ NamesPayment report.now funded.now }
{
    report.mark == funded.mark
        && report.row == funded.row
        && report.stage == funded.stage
        && are_lines(&report.coins, &funded.coins)
}

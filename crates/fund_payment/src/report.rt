//! The report of a payment.

ghost use Rattle.std.specs.Prelude.{◌≡◌, All, map, IfOk};
ghost use Rattle.psbt_codec.specs.Psbt.{IsPsbt};
ghost use Rattle.fund_plan.specs.Answer.{IsSelection};
ghost use Rattle.fund_files.specs.Chain.{IsChain};
ghost use Rattle.payment_states.specs.Makers.{HasMaker};
ghost use Rattle.fund_payment.specs.Report.{line_of, psbt_of, report_of};
ghost use Rattle.fund_payment.specs.Shown.{ShowsCoins};

use crate::laws::inputs_show_coins;
use crate::signing::psbt_text;
use coin_candidates::Candidate;
use fund_base::Memory;
use fund_files::Chain;
use fund_plan::{Figures, Funded};
use fund_report::{FundedReport, InLine, Report, write_report};
use request_text::Request;
use std::alloc::Global;

/// The coins that are spent, as a report has them.
fn lines(alloc: Global, coins: &[Candidate]) -> Result<Vec<InLine>, Memory>
    ensures { IfOk result (λ v. v.items ≡ map line_of coins.now) }
{
    let mut lines = Vec::new(alloc);
    for coin in coins {
        lines.push(InLine {
            coin: coin.coin,
            value: coin.value,
        })?;
    }
    Ok(lines)
}

/// The report of a payment that was decided on after these tries: the coins, what the payment comes to, and the PSBT in
/// base64 and in the request's version, of which each input shows the value and the script of its coin. The book has the transactions that made the
/// coins, whether or not these may be spent. The error is out of memory.
#[tactic(auto, unfolding(crate::specs::Report::report_of))]
pub fn payment_report(
    alloc: Global,
    held: &Chain,
    request: &Request,
    funded: &Funded,
    tries: u64,
) -> Result<Vec<u8>, Memory>
    requires held { IsChain held.now }
    requires funded { IsSelection request.now funded.now }
    requires makers { All (HasMaker held.now.book) funded.now.coins }
    ensures value { IfOk result (λ text. text.items ≡ report_of held.now.book request.now held.now.wallet.change tries funded.now) }
    ensures fits { IfOk result (λ _. IsPsbt (psbt_of held.now.book request.now held.now.wallet.change funded.now)) }
    ensures shows { IfOk result (λ _. ShowsCoins funded.now.coins (psbt_of held.now.book request.now held.now.wallet.change funded.now)) }
{
    inputs_show_coins();
    let figures = Figures::new(request, funded);
    let book = held.book.known();
    let text = psbt_text(alloc, &book, &held.wallet.change, request, funded)?;
    let coins = lines(alloc, &funded.coins)?;
    let report = Report::Funded(FundedReport {
        mark: funded.mark,
        row: funded.row,
        stage: funded.stage,
        tries,
        coins,
        weight: figures.weight,
        vsize: figures.vsize,
        fee: figures.fee,
        waste: figures.waste,
        change: funded.change,
        text: text.into_bytes(),
    });
    write_report(alloc, &report)
}

//! How a wide search ends whose files are read.

ghost use Rattle.std.specs.Prelude.{◌≡◌, All, IfErr, IfOk};
ghost use Rattle.fund_plan.specs.Answer.{IsSelection};
ghost use Rattle.fund_report.specs.ReportText.{IsReportText};
ghost use Rattle.payment_states.specs.Makers.{HasMaker};
ghost use Rattle.fund_files.specs.Chain.{IsChain};
ghost use Rattle.command_inputs.specs.Outcome.{none_report};
ghost use Rattle.wide_plan.specs.Asked.{IsForWide};
ghost use Rattle.command_wide.specs.Endings.{AreNoneTexts, ArePaidTexts, CanReport, IsConcluded, IsEndOf, IsRunOf};
ghost use Rattle.command_wide.specs.Outcome.{open_report};
ghost use Rattle.command_wide.specs.Stops.{StopsPlan};

use crate::stop::Stop;
use closing_log::Stage;
use command_inputs::Texts;
use fund_base::Memory;
use fund_files::Chain;
use fund_payment::payment_report;
use fund_plan::Funded;
use fund_report::{Report, write_report};
use request_text::Request;
use std::alloc::Global;
use wide_plan::{WideOutcome, WideRun, search_wide, write_wide_log};

/// How a request ends that isn't refused.
#[derive(Drop)]
pub enum Ending {
    /// The tries are used up in a row, and nothing is taken: the report.
    Unfinished(Vec<u8>),
    /// No row has coins that pay without change, which the log proves.
    NoSelection(Texts),
    /// A payment, with its report.
    Funded(Texts),
}

/// The wide search of the request of a wallet, with the request's tries.
fn search(alloc: Global, held: &Chain, request: &Request) -> Result<WideRun, Stop>
    requires held { IsChain held.now }
    requires wide { IsForWide request.now }
    ensures run { IfOk result (IsRunOf held.now request.now) }
    ensures stop { IfErr result (StopsPlan held.now request.now) }
{
    request.keeps_rules();
    let (_, candidates) = held.states_and_coins(alloc, request.rate)?;
    let run = search_wide(alloc, request, &held.wallet.change, candidates)?;
    Ok(run)
}

/// The report of a search whose tries are used up in the row of this number. The error is out of memory.
fn open_report(alloc: Global, tries: u64, number: u8) -> Result<Vec<u8>, Memory>
    ensures { IfOk result (λ text. text.items ≡ open_report tries number) }
{
    let report = Report::Unfinished {
        tries,
        row: number,
        stage: Stage::Wide,
    };
    write_report(alloc, &report)
}

/// The report where nothing pays. The error is out of memory.
fn none_report(alloc: Global, tries: u64) -> Result<Vec<u8>, Memory>
    ensures text { IfOk result (λ text. text.items ≡ none_report tries) }
    ensures means { IfOk result (λ text. IsReportText text.items (Report.NoSelection tries)) }
{
    let report = Report::NoSelection { tries };
    let text = write_report(alloc, &report)?;
    Ok(text)
}

/// What is printed and written where nothing pays. The error is out of memory.
fn none_texts(alloc: Global, run: &WideRun) -> Result<Texts, Memory>
    ensures { IfOk result (λ t. AreNoneTexts run.now t.report.items t.log.items) }
{
    let report = none_report(alloc, run.tries)?;
    let log = write_wide_log(alloc, &run.sections)?;
    Ok(Texts { report, log })
}

/// What is printed and written of a payment from coins whose transactions the book has. The error is out of memory.
fn paid_texts(
    alloc: Global,
    held: &Chain,
    request: &Request,
    run: &WideRun,
    funded: &Funded,
) -> Result<Texts, Memory>
    requires held { IsChain held.now }
    requires funded { IsSelection request.now funded.now }
    requires makers { All (HasMaker held.now.book) funded.now.coins }
    ensures { IfOk result (λ t. ArePaidTexts held.now request.now run.now funded.now t.report.items t.log.items) }
{
    let report = payment_report(alloc, held, request, funded, run.tries)?;
    let log = write_wide_log(alloc, &run.sections)?;
    Ok(Texts { report, log })
}

/// How a request ends by what its search came to. The error is out of memory.
fn ends(alloc: Global, held: &Chain, request: &Request, run: &WideRun) -> Result<Ending, Memory>
    requires held { IsChain held.now }
    requires can { CanReport held.now request.now run.now.outcome }
    ensures { IfOk result (IsEndOf held.now request.now run.now) }
{
    match &run.outcome {
        WideOutcome::Unfinished(number) => {
            let report = open_report(alloc, run.tries, *number)?;
            Ok(Ending::Unfinished(report))
        }
        WideOutcome::NoSelection => {
            let texts = none_texts(alloc, run)?;
            Ok(Ending::NoSelection(texts))
        }
        WideOutcome::Funded(funded) => {
            let texts = paid_texts(alloc, held, request, run, funded)?;
            Ok(Ending::Funded(texts))
        }
    }
}

/// How the request of a wallet ends, which the wide search takes, or its refusal.
pub fn conclude(alloc: Global, held: &Chain, request: &Request) -> Result<Ending, Stop>
    requires held { IsChain held.now }
    requires wide { IsForWide request.now }
    ensures ends { IfOk result (IsConcluded held.now request.now) }
    ensures stop { IfErr result (StopsPlan held.now request.now) }
{
    let run = search(alloc, held, request)?;
    held.book.keeps_rules();
    let ending = ends(alloc, held, request, &run)?;
    Ok(ending)
}

//! How a sweep ends whose files are read.

ghost use Rattle.std.specs.Prelude.{◌≡◌, ◌≤◌, All, IfErr, IfOk, length, string_bytes};
ghost use Rattle.fund_files.specs.Chain.{IsChain};
ghost use Rattle.fund_report.specs.ReportText.{IsReportText};
ghost use Rattle.fund_steps.specs.Amounts.{AreWithin, value_of};
ghost use Rattle.payment_states.specs.Makers.{HasMaker};
ghost use Rattle.command_inputs.specs.Outcome.{none_report};
ghost use Rattle.command_sweep.specs.Asked.{IsForSweep};
ghost use Rattle.command_sweep.specs.Endings.{CanEnd, IsConcluded, IsSweptText};
ghost use Rattle.command_sweep.specs.Outcome.{swept_lines};
ghost use Rattle.command_sweep.specs.Results.{SweepsAll};
ghost use Rattle.command_sweep.specs.Stops.{StopsSweep, sweep_stop_of};

use crate::stop::Stop;
use coin_candidates::Candidate;
use command_amounts::{coins_for, payment_text, put_coins, put_figures, put_psbt, with_amounts};
use fee_sharing::{SweepFault, Swept, last_row, sweep, sweep_weight};
use fund_base::Memory;
use fund_files::Chain;
use fund_report::{Report, write_report};
use fund_steps::{PlanFault, value};
use request_text::Request;
use std::alloc::Global;

/// How a request ends that isn't refused.
#[derive(Drop)]
pub enum Ending {
    /// There is no coin, or less is left than the request asks for: the report.
    NoSelection(Vec<u8>),
    /// A payment of all coins: its report.
    Swept(Vec<u8>),
}

/// The report where nothing is swept. The error is out of memory.
fn none_report(alloc: Global) -> Result<Vec<u8>, Memory>
    ensures text { IfOk result (λ text. text.items ≡ none_report 0) }
    ensures means { IfOk result (λ text. IsReportText text.items (Report.NoSelection 0)) }
{
    let report = Report::NoSelection { tries: 0 };
    let text = write_report(alloc, &report)?;
    Ok(text)
}

/// What a payment from these coins takes, in satoshi, the coins, and what it comes to. The error is out of memory.
#[tactic(auto, unfolding(crate::specs::Outcome::swept_lines))]
fn swept_lines(
    alloc: Global,
    request: &Request,
    coins: &[Candidate],
    amount: u64,
) -> Result<String, Memory>
    requires coins { AreWithin coins.now }
    requires amount { amount ≤ value_of coins.now }
    ensures { IfOk result (λ text. string_bytes text ≡ swept_lines request.now coins.now amount) }
{
    let weight = sweep_weight(request, coins);
    let fee = value(coins) - amount;
    let mut text = format!(in alloc; "swept {}\n", amount)?;
    put_coins(alloc, &mut text, coins)?;
    put_figures(alloc, &mut text, weight, fee)?;
    Ok(text)
}

/// The report of a payment of all coins. The error is out of memory.
fn swept_report(
    alloc: Global,
    held: &Chain,
    request: &Request,
    coins: Vec<Candidate>,
    amount: u64,
) -> Result<Vec<u8>, Memory>
    requires held { IsChain held.now }
    requires one { length request.now.recipients ≡ 1 }
    requires sweeps { SweepsAll held.now request.now coins.items amount }
    requires makers { All (HasMaker held.now.book) coins.items }
    requires coins { AreWithin coins.items }
    ensures { IfOk result (λ text. IsSweptText held.now request.now coins.items amount text.items) }
{
    let paying = with_amounts(alloc, request, &[amount])?;
    let mut text = swept_lines(alloc, request, &coins, amount)?;
    let psbt = payment_text(alloc, held, &paying, coins, None)?;
    put_psbt(&mut text, psbt.as_str())?;
    Ok(text.into_bytes())
}

/// Why the coins of a request aren't swept, as the command tells it.
fn stop_for(request: &Request, fault: SweepFault) -> Stop
    ensures { result ≡ sweep_stop_of request.now fault }
{
    match fault {
        SweepFault::TooMany(count) => {
            Stop::from(PlanFault::TooMany(last_row(request).number, count))
        }
        SweepFault::TooHeavy(weight) => Stop::TooHeavy(weight),
        SweepFault::Memory => Stop::from(Memory),
    }
}

/// How the request of a wallet ends by what its coins come to. The error is out of memory.
fn ends(alloc: Global, held: &Chain, request: &Request, swept: Swept) -> Result<Ending, Memory>
    requires held { IsChain held.now }
    requires one { length request.now.recipients ≡ 1 }
    requires can { CanEnd held.now request.now swept }
    ensures { IfOk result (IsConcluded held.now request.now) }
{
    match swept {
        Swept::Short => {
            let report = none_report(alloc)?;
            Ok(Ending::NoSelection(report))
        }
        Swept::Paid { coins, amount } => {
            let report = swept_report(alloc, held, request, coins, amount)?;
            Ok(Ending::Swept(report))
        }
    }
}

/// How the request of a wallet ends, which a sweep takes, or its refusal.
pub fn conclude(alloc: Global, held: &Chain, request: &Request) -> Result<Ending, Stop>
    requires held { IsChain held.now }
    requires taken { IsForSweep request.now }
    ensures ends { IfOk result (IsConcluded held.now request.now) }
    ensures stop { IfErr result (StopsSweep held.now request.now) }
{
    request.keeps_rules();
    let candidates = coins_for(alloc, held, request)?;
    match sweep(alloc, &candidates, request) {
        Ok(swept) => {
            let ending = ends(alloc, held, request, swept)?;
            Ok(ending)
        }
        Err(fault) => Err(stop_for(request, fault)),
    }
}

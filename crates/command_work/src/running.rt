//! The run on a workload.

ghost use Rattle.std.specs.Prelude.{◌≡◌, ◌≢◌, ◌≤◌, IfErr, IfOk, OnOk};
ghost use Rattle.wallet_text.specs.WalletRules.{AreDistinctEarlier, IsWallet};
ghost use Rattle.command_work.specs.Load.{earlier_of, request_of, wallet_of};
ghost use Rattle.command_work.specs.Summary.{summary_text};
ghost use Rattle.command_inputs.specs.PlanEnds.{IsConcluded};
ghost use Rattle.command_work.specs.Outcome.{load_of};
ghost use Rattle.command_work.specs.Stops.{IsRun, StopsLoad};

use crate::load::Workload;
use crate::summary::summarize;
use command_end::Status;
use command_inputs::{Ending, Refusal, Stop, conclude};
use fund_base::Memory;
use fund_files::{FileRefusal, chain_of_wallet};
use std::alloc::Global;
use wallet_text::WalletFault;

/// A run that isn't refused.
#[derive(Drop)]
pub struct Run {
    /// Its summary.
    pub summary: Vec<u8>,
    /// How it ended.
    pub status: Status,
}

/// Why there is no workload, by its fault.
fn load_stop(fault: WalletFault) -> Stop
    ensures refused { result ≢ Stop.Memory → (fault ≢ WalletFault.Memory) × (result ≡ Stop.Refused (Refusal.Files (FileRefusal.BadWallet fault))) }
    ensures memory { result ≡ Stop.Memory → fault ≡ WalletFault.Memory }
{
    match fault {
        WalletFault::Memory => Stop::Memory,
        fault => Stop::Refused(Refusal::Files(FileRefusal::BadWallet(fault))),
    }
}

/// The workload. It is refused exactly where two of its transactions have one txid, as a wallet file would be that holds
/// them; or for being out of memory.
fn load(alloc: Global, number: u64, count: u32) -> Result<Workload, Stop>
    requires some { 1 ≤ count }
    requires most { count ≤ 10_000 }
    ensures wallet { IfOk result (λ load. load.wallet ≡ wallet_of number count) }
    ensures request { IfOk result (λ load. load.request ≡ request_of number count) }
    ensures rules { IfOk result (λ load. IsWallet load.wallet) }
    ensures distinct { OnOk result (AreDistinctEarlier (earlier_of number count)) }
    ensures stop { IfErr result (StopsLoad number count) }
{
    match Workload::new(alloc, number, count) {
        Ok(load) => Ok(load),
        Err(fault) => Err(load_stop(fault)),
    }
}

/// How the payment ends that the workload's request asks for. A book holds the coins of each workload, and a plan is made
/// of its request: so nothing is refused but the workload.
fn conclude_load(alloc: Global, number: u64, count: u32) -> Result<Ending<()>, Stop>
    requires some { 1 ≤ count }
    requires most { count ≤ 10_000 }
    ensures ends { IfOk result (IsConcluded (load_of number count) (request_of number count)) }
    ensures distinct { OnOk result (AreDistinctEarlier (earlier_of number count)) }
    ensures stop { IfErr result (StopsLoad number count) }
{
    let Workload { wallet, request } = load(alloc, number, count)?;
    let held = chain_of_wallet(alloc, wallet)?;
    conclude(alloc, &held, &request, None)
}

/// The summary of a report with this text, and the status of its run. The error is out of memory.
fn with_status(
    alloc: Global,
    number: u64,
    count: u32,
    report: &[u8],
    status: Status,
) -> Result<Run, Memory>
    ensures summary { IfOk result (λ r. r.summary.items ≡ summary_text number count report.now) }
    ensures status { IfOk result (λ r. r.status ≡ status) }
{
    let summary = summarize(alloc, number, count, report)?;
    Ok(Run { summary, status })
}

/// The summary and the status of a run that ended so. The error is out of memory.
fn summed(alloc: Global, number: u64, count: u32, ending: &Ending<()>) -> Result<Run, Memory>
    requires distinct { AreDistinctEarlier (earlier_of number count) }
    requires ends { IsConcluded (load_of number count) (request_of number count) ending.now }
    ensures { IfOk result (IsRun number count) }
{
    match ending {
        Ending::Unfinished(left) => {
            with_status(alloc, number, count, &left.report, Status::Unfinished)
        }
        Ending::NoSelection(texts) => {
            with_status(alloc, number, count, &texts.report, Status::NoSelection)
        }
        Ending::Funded(texts) => with_status(alloc, number, count, &texts.report, Status::Done),
    }
}

/// The run on the workload of a number and a count, or why there is none.
pub fn run_load(alloc: Global, number: u64, count: u32) -> Result<Run, Stop>
    requires some { 1 ≤ count }
    requires most { count ≤ 10_000 }
    ensures run { IfOk result (IsRun number count) }
    ensures stop { IfErr result (StopsLoad number count) }
{
    let ending = conclude_load(alloc, number, count)?;
    let run = summed(alloc, number, count, &ending)?;
    Ok(run)
}

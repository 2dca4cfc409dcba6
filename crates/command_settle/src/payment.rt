//! The payment that was to be signed: the PSBT of a report, the outputs that it spends and what its inputs were declared to
//! weigh.

ghost use Rattle.std.specs.Prelude.{◌≡◌, IfErr, IfOk, bytes_eq, find, length};
ghost use Rattle.std.specs.List.{zip};
ghost use Rattle.std.specs.Option.{option_copied};
ghost use Rattle.fund_report.specs.ReportText.{IsReportText};
ghost use Rattle.fund_report.specs.declared.report.Report.TheVariants as reports;
ghost use Rattle.psbt_codec.specs.Fault.{shown};
ghost use Rattle.psbt_codec.specs.Psbt.{IsPsbt};
ghost use Rattle.psbt_codec.specs.Text.{IsPsbtText};
ghost use Rattle.command_settle.specs.Payment.{AreAll, IsPayment, IsPaymentFault, known_of, output_of, weight_of};
ghost use Rattle.command_settle.specs.Stops.{IsFormFault, IsScriptFault, IsTextFault, IsValueFault, StopsBy, psbt_stop_of, report_stop_of};
ghost use Rattle.command_settle.specs.declared.stop.Refusal.TheVariants as refusals;
ghost use Rattle.command_settle.specs.declared.stop.Stop.TheVariants as stops;

use crate::stop::{Refusal, Stop};
use fund_report::{FundedReport, Report, ReportFault, read_report};
use psbt_codec::{Psbt, PsbtFault, Spent, read_text};
use settle_check::SettleFault;
use std::alloc::Global;
use tx_codec::{TxIn, TxOut};
use wallet_text::Watch;

/// A payment that was to be signed.
#[derive(Drop)]
pub struct Payment {
    /// Its PSBT.
    pub psbt: Psbt,
    /// The outputs that it spends, in the order of its inputs.
    pub spent: Vec<TxOut>,
    /// What its inputs were declared to weigh, in weight units and in their order.
    pub declared: Vec<u64>,
}

/// Why the command stops at a broken rule.
fn broken(fault: SettleFault) -> Stop
    ensures { result ≡ stops.Refused (refusals.Unsettled fault) }
{
    Stop::Refused(Refusal::Unsettled(fault))
}

/// An index as a fault shows it.
fn shown(index: usize) -> u32
    ensures { result ≡ shown index }
{
    index.min(u32::MAX as usize) as u32
}

/// Why the command stops at a report that isn't read.
fn report_stop(fault: ReportFault) -> Stop
    ensures { result ≡ report_stop_of fault }
{
    match fault {
        ReportFault::Form(place) => broken(SettleFault::Report(place)),
        ReportFault::Memory => Stop::Memory,
    }
}

/// Why the command stops at a PSBT that isn't read.
fn psbt_stop(fault: PsbtFault) -> Stop
    ensures { result ≡ psbt_stop_of fault }
{
    match fault {
        PsbtFault::Memory => Stop::Memory,
        _ => broken(SettleFault::Psbt(fault)),
    }
}

/// The report of a payment that the bytes are.
fn funded_report(alloc: Global, bytes: &[u8]) -> Result<FundedReport, Stop>
    ensures report { IfOk result (λ f. IsReportText bytes.now (reports.Funded f)) }
    ensures stop { IfErr result (StopsBy (IsFormFault bytes.now)) }
{
    match read_report(alloc, bytes) {
        Ok(Report::Funded(funded)) => Ok(funded),
        Ok(_) => Err(broken(SettleFault::NotFunded)),
        Err(fault) => Err(report_stop(fault)),
    }
}

/// The PSBT that the text is.
fn psbt_in(alloc: Global, text: &[u8]) -> Result<Psbt, Stop>
    ensures psbt { IfOk result (IsPsbtText text.now) }
    ensures stop { IfErr result (StopsBy (IsTextFault text.now)) }
{
    match read_text(alloc, text) {
        Ok(versioned) => Ok(versioned.psbt),
        Err(fault) => Err(psbt_stop(fault)),
    }
}

/// The output that an input spends, where it is told: that of the whole transaction where one stands beside the input, and
/// else the one that stands there alone (BIP 174, types 00 and 01).
fn output_of<'a>(input: &TxIn, known: &'a Spent) -> Option<&'a TxOut>
    ensures { option_copied result ≡ output_of (input.now, known.now) }
{
    match &known.whole {
        Some(whole) => whole.outputs.get(input.prev.index as usize),
        None => known.paid.as_ref(),
    }
}

/// The outputs that the inputs spend, or the first input whose output isn't told.
fn spent_outputs(alloc: Global, inputs: &[TxIn], known: &[Spent]) -> Result<Vec<TxOut>, Stop>
    requires { length known.now ≡ length inputs.now }
    ensures spent { IfOk result (λ v. AreAll output_of (zip inputs.now known.now) v.items) }
    ensures stop { IfErr result (StopsBy (IsValueFault (zip inputs.now known.now))) }
{
    let mut spent = Vec::new(alloc);
    for i in 0..inputs.len() {
        match output_of(&inputs[i], &known[i]) {
            Some(output) => spent.push(output.copy(alloc)?)?,
            None => return Err(broken(SettleFault::NoValue(shown(i)))),
        }
    }
    Ok(spent)
}

/// The outputs that the inputs of a PSBT spend, or the first input whose output isn't told.
fn outputs_of(alloc: Global, psbt: &Psbt) -> Result<Vec<TxOut>, Stop>
    requires { IsPsbt psbt.now }
    ensures spent { IfOk result (λ v. AreAll output_of (known_of psbt.now) v.items) }
    ensures stop { IfErr result (StopsBy (IsValueFault (known_of psbt.now))) }
{
    spent_outputs(alloc, &psbt.tx.inputs, &psbt.spent)
}

/// The first listed script that is this one.
fn watch_of<'a>(scripts: &'a [Watch], script: &[u8]) -> Option<&'a Watch>
    ensures { option_copied result ≡ find (λ (s : Watch). bytes_eq script.now s.script) scripts.now }
{
    scripts.iter().find(|watch| script == watch.script.bytes())
}

/// What an input that spends an output is declared to weigh, where its script is listed.
fn weight_of(scripts: &[Watch], output: &TxOut) -> Option<u64>
    ensures { result ≡ weight_of scripts.now output.now }
{
    match watch_of(scripts, output.script.bytes()) {
        Some(watch) => Some(watch.weight),
        None => None,
    }
}

/// What the inputs that spend these outputs are declared to weigh, or the first whose script isn't listed.
fn declared_weights(alloc: Global, scripts: &[Watch], spent: &[TxOut]) -> Result<Vec<u64>, Stop>
    ensures declared { IfOk result (λ v. AreAll (weight_of scripts.now) spent.now v.items) }
    ensures stop { IfErr result (StopsBy (IsScriptFault scripts.now spent.now)) }
{
    let mut declared = Vec::new(alloc);
    for i in 0..spent.len() {
        match weight_of(scripts, &spent[i]) {
            Some(weight) => declared.push(weight)?,
            None => return Err(broken(SettleFault::Foreign(shown(i)))),
        }
    }
    Ok(declared)
}

/// The payment of a report, for a wallet that lists these scripts. It is refused for the first of these that is so. The bytes
/// are no report, or that of no payment; its PSBT isn't one; the output that an input spends isn't told; or its script isn't
/// listed.
pub fn payment_of(alloc: Global, scripts: &[Watch], report: &[u8]) -> Result<Payment, Stop>
    ensures payment { IfOk result (λ x. IsPayment report.now scripts.now x.psbt x.spent.items x.declared.items) }
    ensures stop { IfErr result (StopsBy (IsPaymentFault report.now scripts.now)) }
{
    let funded = funded_report(alloc, report)?;
    let psbt = psbt_in(alloc, &funded.text)?;
    let spent = outputs_of(alloc, &psbt)?;
    let declared = declared_weights(alloc, scripts, &spent)?;
    Ok(Payment {
        psbt,
        spent,
        declared,
    })
}

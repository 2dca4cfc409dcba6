//! Whether a report pays as it says.

ghost use Rattle.std.specs.Prelude.{◌≡◌, ◌↔◌, ◌≤◌, ◌<◌, IfErr, IfOk, IsTrue, OnErr, OnOk, false, length, option_copied, true};
ghost use Rattle.fee_rates.specs.Terms.{IsLoad};
ghost use Rattle.fund_plan.specs.Pays.{outputs_of, payment_from};
ghost use Rattle.fund_report.specs.declared.report.Report.TheVariants as reports;
ghost use Rattle.fund_steps.specs.Amounts.{AreWithin};
ghost use Rattle.request_text.specs.PlainRequest.{paid_to};
ghost use Rattle.tx_codec.specs.TransactionText.{IsTransaction};
ghost use Rattle.report_check.specs.Paying.{AreTaken, IsLoadAt, Says, row_at};
ghost use Rattle.report_check.specs.PaidRefused.{IsPaidRefusal};
ghost use Rattle.report_check.specs.Payment.{PaysBy};
ghost use Rattle.report_check.specs.Verdict.{IsPaid};
ghost use Rattle.report_check.specs.declared.fault.CheckFault.TheVariants as check;

use crate::coins::{coins_of, row_at};
use crate::fault::CheckFault;
use crate::figures::says;
use crate::given::are_own;
use crate::psbt::psbt_of;
use coin_candidates::Candidate;
use fee_rates::PaymentLoad;
use fund_base::Memory;
use fund_plan::{Funded, PaymentMaker, unsigned};
use fund_report::FundedReport;
use output_groups::{Row, ladder};
use psbt_codec::Psbt;
use request_text::Request;
use std::alloc::Global;
use tx_codec::{Tx, TxIn, write_tx};
use wallet_text::Watch;

/// The payment of a report, from these coins.
fn payment(f: &FundedReport, coins: Vec<Candidate>) -> Funded
    ensures coins { result.coins ≡ coins.items }
    ensures change { result.change ≡ f.now.change }
{
    Funded {
        mark: f.mark,
        row: f.row,
        stage: f.stage,
        coins,
        change: f.change,
        waste: f.waste,
        weight: f.weight,
    }
}

/// Whether a transaction is the one of a payment. The error is out of memory.
fn is_transaction(
    alloc: Global,
    request: &Request,
    change: &Watch,
    funded: &Funded,
    tx: &Tx,
) -> Result<bool, Memory>
    requires some { 0 < length funded.now.coins }
    requires money { outputs_of request.now funded.now.change ≤ 2_100_000_000_000_000 }
    requires text { IsTransaction tx.now }
    ensures { IfOk result (λ b. IsTrue b ↔ (tx.now ≡ payment_from request.now change.now funded.now.coins funded.now.change)) }
{
    let own = unsigned(alloc, request, change, funded)?;
    let text = write_tx(alloc, &own)?;
    let given = write_tx(alloc, tx)?;
    Ok(text.as_slice() == given.as_slice())
}

/// What the payment of a row is to carry; in row 0 the given coins alone. `None` exactly where there is no such row. The
/// error is out of memory.
fn load_of(
    funding: &PaymentMaker,
    number: u8,
    row: Option<&Row>,
) -> Result<Option<PaymentLoad>, Memory>
    requires { option_copied row ≡ row_at funding.now number }
    ensures { IfOk result (IsLoadAt funding.now number) }
{
    funding.keeps_rules();
    if number == 0 {
        return Ok(Some(funding.funds().load()));
    }
    match row {
        None => Ok(None),
        Some(row) => {
            let load = funding.load_at(row)?;
            Ok(Some(load))
        }
    }
}

/// Whether a report says what these coins come to, and its PSBT has the transaction that they make. The error is out of
/// memory, which comes only where it says so.
fn is_said(
    alloc: Global,
    request: &Request,
    change: &Watch,
    load: &PaymentLoad,
    f: &FundedReport,
    psbt: &Psbt,
    coins: Vec<Candidate>,
) -> Result<bool, Memory>
    requires load { IsLoad load.now }
    requires paid { load.now.paid ≡ paid_to request.now.recipients }
    requires coins { AreWithin coins.items }
    requires some { 0 < length coins.items }
    requires text { IsTransaction psbt.now.tx }
    ensures said { IfOk result (λ b. IsTrue b ↔ (Says request.now load.now f.now coins.items psbt.now.spent × (psbt.now.tx ≡ payment_from request.now change.now coins.items f.now.change))) }
    ensures memory { OnErr result (Says request.now load.now f.now coins.items psbt.now.spent) }
{
    if !says(request, load, f, &coins, &psbt.spent) {
        return Ok(false);
    }
    let funded = payment(f, coins);
    let is = is_transaction(alloc, request, change, &funded, &psbt.tx)?;
    Ok(is)
}

/// Whether a report says what its PSBT does, for the coins that were looked up by its inputs. The error is out of memory.
fn is_paid(
    alloc: Global,
    request: &Request,
    change: &Watch,
    funding: &PaymentMaker,
    f: &FundedReport,
    row: Option<&Row>,
    psbt: &Psbt,
    coins: Vec<Candidate>,
) -> Result<bool, Memory>
    requires request { funding.now.request ≡ request.now }
    requires change { funding.now.change ≡ change.now }
    requires row { option_copied row ≡ row_at funding.now f.now.row }
    requires text { IsTransaction psbt.now.tx }
    requires coins { AreTaken funding.now f.now.row psbt.now.tx.inputs coins.items }
    ensures { IfOk result (λ b. IsTrue b ↔ PaysBy funding.now f.now psbt.now) }
{
    funding.keeps_rules();
    if !are_own(&coins, funding.funds().presets()) {
        return Ok(false);
    }
    match load_of(funding, f.row, row)? {
        None => Ok(false),
        Some(load) => {
            let is = is_said(alloc, request, change, &load, f, psbt, coins)?;
            Ok(is)
        }
    }
}

/// That a payment is paid as its report says, by whether it is. It takes no memory.
fn check_paid(is_paid: bool) -> Result<(), CheckFault>
    ensures kept { OnOk result (is_paid ≡ true) }
    ensures broken { IfErr result (λ e. (is_paid ≡ false) × (e ≡ check.Pays)) }
{
    if !is_paid {
        return Err(CheckFault::Pays);
    }
    Ok(())
}

/// The inputs of a PSBT's transaction.
fn inputs_of(psbt: &Psbt) -> &[TxIn]
    ensures { result.now ≡ psbt.now.tx.inputs }
{
    psbt.tx.inputs.as_slice()
}

/// That the text of a report is a PSBT, that its inputs spend coins that may be spent, and that the report says what it
/// does. The refusal is the first of these that isn't so.
pub(crate) fn paid(
    alloc: Global,
    request: &Request,
    change: &Watch,
    funding: &PaymentMaker,
    f: &FundedReport,
) -> Result<(), CheckFault>
    requires request { funding.now.request ≡ request.now }
    requires change { funding.now.change ≡ change.now }
    ensures paid { OnOk result (IsPaid funding.now (reports.Funded f.now)) }
    ensures fault { IfErr result (IsPaidRefusal funding.now f.now) }
{
    funding.keeps_rules();
    let psbt = psbt_of(alloc, &f.text)?;
    let rows = ladder(request.zero_conf, request.include_unsafe);
    let row = row_at(rows, f.row);
    let funds = funding.funds();
    let inputs = inputs_of(&psbt);
    let coins = match coins_of(alloc, funds.presets(), funds.rest(), row, inputs) {
        Ok(coins) => coins,
        Err(fault) => return Err(fault),
    };
    match is_paid(alloc, request, change, funding, f, row, &psbt, coins) {
        Err(_) => Err(CheckFault::Memory),
        Ok(kept) => match check_paid(kept) {
            Ok(()) => Ok(()),
            Err(fault) => Err(fault),
        },
    }
}

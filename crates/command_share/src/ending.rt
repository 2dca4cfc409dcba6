//! How a payment ends whose recipients bear the fee and whose files are read.

ghost use Rattle.std.specs.Prelude.{◌≡◌, IfErr, IfOk};
ghost use Rattle.fee_sharing.specs.Shares.{AreLeft};
ghost use Rattle.fund_files.specs.Chain.{IsChain};
ghost use Rattle.request_text.specs.PlainRequest.{IsRequest};
ghost use Rattle.command_amounts.specs.Amounts.{amounts_of};
ghost use Rattle.command_share.specs.Asked.{IsForShare};
ghost use Rattle.command_share.specs.Endings.{CanPay, IsConcluded, IsPaidText, IsRunOf};
ghost use Rattle.command_share.specs.Paying.{amounts_left, dusts_of, shared_request};
ghost use Rattle.command_share.specs.Stops.{StopsSharing};

use crate::report::{log_of, none_report, open_report, shared_lines};
use crate::rows::{Paying, RowsEnd, Run, search_rows};
use crate::sharing::left;
use crate::stop::Stop;
use command_amounts::{coins_for, payment_text, put_psbt, with_amounts};
use command_inputs::Texts;
use fund_base::Memory;
use fund_files::Chain;
use request_text::Request;
use std::alloc::Global;

/// How a request ends that isn't refused.
#[derive(Drop)]
pub enum Ending {
    /// The tries are used up: the report.
    Unfinished(Vec<u8>),
    /// Neither row has a selection, which the log proves.
    NoSelection(Texts),
    /// A payment, with its report.
    Shared(Texts),
}

/// The report of a payment whose recipients are left with these amounts. The error is out of memory.
fn paid_report(
    alloc: Global,
    held: &Chain,
    request: &Request,
    tries: u64,
    payment: Paying,
    amounts: &[u64],
) -> Result<Vec<u8>, Memory>
    requires held { IsChain held.now }
    requires can { CanPay held.now request.now payment }
    requires amounts { amounts.now ≡ amounts_left request.now payment.borne }
    requires left { AreLeft payment.borne (amounts_of request.now) (dusts_of request.now) amounts.now }
    requires rules { IsRequest (shared_request request.now payment.borne) }
    ensures { IfOk result (λ text. IsPaidText held.now request.now tries payment text.items) }
{
    let paying = with_amounts(alloc, request, amounts)?;
    let mut text = shared_lines(alloc, &paying, tries, &payment, amounts)?;
    let Paying { coins, change, .. } = payment;
    let psbt = payment_text(alloc, held, &paying, coins, change)?;
    put_psbt(&mut text, psbt.as_str())?;
    Ok(text.into_bytes())
}

/// The searches of the request of a wallet, with its tries.
fn search(alloc: Global, held: &Chain, request: &Request) -> Result<Run, Stop>
    requires { IsChain held.now }
    ensures run { IfOk result (IsRunOf held.now request.now) }
    ensures stop { IfErr result (StopsSharing held.now request.now) }
{
    let candidates = coins_for(alloc, held, request)?;
    let run = search_rows(alloc, &candidates, request, &held.wallet.change)?;
    Ok(run)
}

/// How the request of a wallet ends by its searches, or its refusal.
fn ends(alloc: Global, held: &Chain, request: &Request, run: Run) -> Result<Ending, Stop>
    requires held { IsChain held.now }
    requires run { IsRunOf held.now request.now run }
    ensures ends { IfOk result (IsConcluded held.now request.now) }
    ensures stop { IfErr result (StopsSharing held.now request.now) }
{
    let Run {
        end,
        sections,
        tries,
    } = run;
    match end {
        RowsEnd::Open(number) => {
            let report = open_report(alloc, tries, number)?;
            Ok(Ending::Unfinished(report))
        }
        RowsEnd::Nothing => {
            let report = none_report(alloc, tries)?;
            let log = log_of(alloc, sections)?;
            Ok(Ending::NoSelection(Texts { report, log }))
        }
        RowsEnd::Found(payment) => {
            let amounts = left(alloc, request, payment.borne)?;
            let report = paid_report(alloc, held, request, tries, payment, amounts.as_slice())?;
            let log = log_of(alloc, sections)?;
            Ok(Ending::Shared(Texts { report, log }))
        }
    }
}

/// How the request of a wallet ends, which is taken, or its refusal.
pub fn conclude(alloc: Global, held: &Chain, request: &Request) -> Result<Ending, Stop>
    requires held { IsChain held.now }
    requires taken { IsForShare request.now }
    ensures ends { IfOk result (IsConcluded held.now request.now) }
    ensures stop { IfErr result (StopsSharing held.now request.now) }
{
    let run = search(alloc, held, request)?;
    ends(alloc, held, request, run)
}

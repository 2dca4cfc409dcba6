//! Whether the signed transaction of the files settles the payment of their report.

ghost use Rattle.std.specs.Prelude.{◌≡◌, ◌≢◌, ◌≤◌, All, Err, IfErr, IfOk, length, string_bytes};
ghost use Rattle.fund_shelf.specs.Causes.{OnlyReads};
ghost use Rattle.settle_check.specs.Broken.{IsSettleFault};
ghost use Rattle.tx_codec.specs.TransactionText.{IsTransaction};
ghost use Rattle.wallet_text.specs.WalletRules.{IsWallet};
ghost use Rattle.command_settle.specs.Asked.{AsksFiles};
ghost use Rattle.command_settle.specs.Names.{plain_names};
ghost use Rattle.command_settle.specs.Outcome.{IsSettled, IsSettledBy};
ghost use Rattle.command_settle.specs.Stops.{IsContentCause, IsContentSettled, StopsAs, StopsBy, StopsFor};

use crate::files::{Files, read_files};
use crate::names::SettleNames;
use crate::payment::{Payment, payment_of};
use crate::signed::signed_tx;
use crate::stop::{Refusal, SettleFile, Stop};
use crate::words::settled_text;
use fund_shelf::Shelf;
use settle_check::settle;
use std::alloc::Global;
use tx_codec::Tx;

/// What is printed of a signed transaction that settles a payment, or the first rule that is broken.
fn judge(alloc: Global, payment: &Payment, signed: &Tx, rate: u64) -> Result<String, Stop>
    requires text { IsTransaction signed.now }
    requires spent { length payment.now.spent.items ≡ length payment.now.psbt.tx.inputs }
    requires declared { length payment.now.declared.items ≡ length payment.now.psbt.tx.inputs }
    requires weights { All (λ w. w ≤ 400_000) payment.now.declared.items }
    requires rate { rate ≤ 100_000_000 }
    ensures settled { IfOk result (λ text. IsSettledBy payment.now.psbt.tx payment.now.spent.items payment.now.declared.items signed.now rate (string_bytes text)) }
    ensures stop { IfErr result (StopsBy (IsSettleFault payment.now.psbt.tx payment.now.spent.items payment.now.declared.items signed.now rate)) }
{
    match settle(
        &payment.psbt.tx,
        &payment.spent,
        &payment.declared,
        signed,
        rate,
    ) {
        Ok(settled) => Ok(settled_text(alloc, &settled)?),
        Err(fault) => Err(Stop::Refused(Refusal::Unsettled(fault))),
    }
}

/// What is printed where the contents of the files settle. The transaction is read before the report is judged.
fn judge_files(alloc: Global, files: &Files) -> Result<String, Stop>
    requires { IsWallet files.now.wallet }
    ensures settled { IfOk result (λ text. IsContentSettled files.now.wallet files.now.request files.now.report.items files.now.tx.items (string_bytes text)) }
    ensures stop { IfErr result (StopsAs (IsContentCause files.now.wallet files.now.request files.now.report.items files.now.tx.items)) }
{
    files.request.keeps_rules();
    let signed = signed_tx(alloc, &files.tx)?;
    let payment = payment_of(alloc, &files.wallet.scripts, &files.report)?;
    judge(alloc, &payment, &signed, files.request.rate)
}

/// What is printed where the files settle, or why they don't.
pub fn settled<H: Shelf>(alloc: Global, names: &SettleNames, shelf: &mut H) -> Result<String, Stop>
    ensures settled { H.tells → IfOk result (λ text. IsSettled (H.view shelf.old).files (plain_names names.now) (string_bytes text)) }
    ensures frame { OnlyReads H.tells (H.view shelf.old) (H.view shelf.new) }
    ensures stop { IfErr result (StopsFor H.tells (plain_names names.now) (H.view shelf.old) (H.view shelf.new)) }
    ensures asks { H.tells → AsksFiles (plain_names names.now) (H.view shelf.old) (H.view shelf.new) }
    ensures all_read { ((file : SettleFile) → result ≢ Err (Stop.Read file)) → (H.view shelf.new).reads ≡ (H.view shelf.old).reads }
{
    let files = read_files(alloc, names, shelf)?;
    judge_files(alloc, &files)
}

//! Whether the signed transaction of the files settles the payment of their report.

ghost use Rattle.std.specs.Prelude.{◌≡◌, ◌≢◌, ◌≤◌, List, All, Err, IfErr, IfOk, MatchResult, length};
ghost use Rattle.command_settle.specs.Asked.{AsksFiles};
ghost use Rattle.command_settle.specs.Names.{plain_names};
ghost use Rattle.command_settle.specs.declared.stop.Stop.TheVariants as stops;
ghost use Rattle.fund_shelf.specs.Causes.{OnlyReads};
ghost use Rattle.settle_check.specs.Broken.{IsSettleFault};
ghost use Rattle.tx_codec.specs.TransactionText.{IsTransaction};
ghost use Rattle.wallet_text.specs.WalletRules.{IsWallet};
ghost use Rattle.settle_table.specs.Outcome.{IsSettledBy, IsSettledIn, IsSettlement};
ghost use Rattle.settle_table.specs.Stops.{IsUntold, StopsBroken, StopsFor, StopsInside};
ghost use Rattle.settle_table.specs.declared.stop.Stop.TheVariants.{Settle};

use crate::inputs::{WeighedInput, weighed_inputs};
use crate::signed::signed_in;
use crate::stop::Stop;
use command_settle::{
    Files, Payment, Refusal, SettleFile, SettleNames, Stop as SettleStop, payment_of, read_files,
};
use fund_shelf::Shelf;
use settle_check::{Settled, settle};
use std::alloc::Global;
use tx_codec::Tx;

/// A signed transaction that settles a payment.
#[derive(Drop)]
pub struct Settlement {
    /// Its txid, its weight and size, its fee, and what its inputs weigh less than was declared.
    pub settled: Settled,
    /// Its inputs, in order.
    pub inputs: Vec<WeighedInput>,
}

/// A signed transaction that settles a payment, with its inputs; or the first rule that is broken.
fn judge(alloc: Global, payment: &Payment, signed: &Tx, rate: u64) -> Result<Settlement, Stop>
    requires text { IsTransaction signed.now }
    requires spent { length payment.now.spent.items ≡ length payment.now.psbt.tx.inputs }
    requires declared { length payment.now.declared.items ≡ length payment.now.psbt.tx.inputs }
    requires weights { All (λ w. w ≤ 400_000) payment.now.declared.items }
    requires rate { rate ≤ 100_000_000 }
    ensures settled { IfOk result (λ x. IsSettledBy payment.now.psbt.tx payment.now.spent.items payment.now.declared.items signed.now rate x.settled x.inputs.items) }
    ensures stop { IfErr result (StopsBroken (IsSettleFault payment.now.psbt.tx payment.now.spent.items payment.now.declared.items signed.now rate)) }
{
    match settle(
        &payment.psbt.tx,
        &payment.spent,
        &payment.declared,
        signed,
        rate,
    ) {
        Ok(settled) => {
            let inputs = weighed_inputs(alloc, signed.segwit, &signed.inputs, &payment.declared)?;
            Ok(Settlement { settled, inputs })
        }
        Err(fault) => Err(Stop::Settle(SettleStop::Refused(Refusal::Unsettled(fault)))),
    }
}

/// The same of the contents of files. The transaction is read before the report is judged.
fn judge_files(alloc: Global, files: &Files) -> Result<Settlement, Stop>
    requires { IsWallet files.now.wallet }
    ensures settled { IfOk result (λ x. IsSettledIn files.now.wallet files.now.request files.now.report.items files.now.tx.items x.settled x.inputs.items) }
    ensures only { (s : Settled) (inputs : List WeighedInput) → IsSettledIn files.now.wallet files.now.request files.now.report.items files.now.tx.items s inputs →
        MatchResult result (λ x. (x.settled ≡ s) × (x.inputs.items ≡ inputs)) (λ stop. stop ≡ Settle stops.Memory) }
    ensures stop { IfErr result (StopsInside files.now.wallet files.now.request files.now.report.items files.now.tx.items) }
{
    files.request.keeps_rules();
    let signed = signed_in(alloc, &files.tx)?;
    let payment = payment_of(alloc, &files.wallet.scripts, &files.report)?;
    judge(alloc, &payment, &signed, files.request.rate)
}

/// The signed transaction of the files of these names, where it settles the payment of the report at the request's rate, in
/// satoshi per 1,000 virtual bytes; with what each input weighs and was declared to weigh, in weight units. No signature is
/// checked.
///
/// It reads the wallet, the request, the report and the transaction as the command `settle` does, within the same lengths. The
/// transaction may be hex as there. Or it is a PSBT, in base64 with or without a line feed at its end, or as bytes. Then the
/// transaction is that of [`signed_psbt::read_signed`]: each input has the final script or the final witness of its map, or both
/// (BIP 174, types 07 and 08).
///
/// The errors, in their order: [`Stop::Settle`] where a file isn't read or is refused; [`Stop::Psbt`] where the PSBT isn't one,
/// or an input of it isn't final; and [`Stop::Settle`] with the first rule of [`settle_check::SettleFault`] that is broken.
///
/// The clauses on content hold where the shelf tells its.
pub fn settlement_of<H: Shelf>(
    alloc: Global,
    names: &SettleNames,
    shelf: &mut H,
) -> Result<Settlement, Stop>
    // It is told exactly where the definition holds, unless a read failed or there was not enough memory.
    ensures settled { H.tells → IfOk result (λ x. IsSettlement (H.view shelf.old).files (plain_names names.now) x.settled x.inputs.items) }
    ensures only { H.tells → (s : Settled) (inputs : List WeighedInput) → IsSettlement (H.view shelf.old).files (plain_names names.now) s inputs →
        MatchResult result (λ x. (x.settled ≡ s) × (x.inputs.items ≡ inputs)) IsUntold }

    // Otherwise the cause is so.
    ensures stop { IfErr result (StopsFor H.tells (plain_names names.now) (H.view shelf.old) (H.view shelf.new)) }

    // Nothing is written, a read that failed is told, and the four files are asked for in order, behind a refused one none.
    ensures frame { OnlyReads H.tells (H.view shelf.old) (H.view shelf.new) }
    ensures all_read { ((file : SettleFile) → result ≢ Err (Settle (stops.Read file))) → (H.view shelf.new).reads ≡ (H.view shelf.old).reads }
    ensures asks { H.tells → AsksFiles (plain_names names.now) (H.view shelf.old) (H.view shelf.new) }
{
    let files = read_files(alloc, names, shelf)?;
    judge_files(alloc, &files)
}

//! Signed transactions, judged for people.

use crate::shown::{show, show_column, show_count, show_line};
use command_end::{Part, Status, psbt_fault_parts, put_fault};
use command_pay::fee_line;
use command_settle::{SettleNames, answer};
use fund_base::Memory;
use fund_shelf::{Shelf, SureSink};
use row_columns::column;
use settle_table::{Settlement, Stop, settlement_of, table_text, unfinished_text, unsigned_text};
use signed_psbt::SignedFault;
use std::alloc::Global;

/// Prints a settled payment as a table.
fn show_settled(rt: &HostRuntime, settlement: &Settlement) -> Result<(), Memory> {
    let settled = &settlement.settled;
    let fee = fee_line(rt.alloc(), settled.fee, settled.vsize)?;
    let text = table_text(rt.alloc(), settlement, fee.as_str())?;
    show_count(rt, b"status ", Status::Done.code() as u64);
    show(rt, text.as_bytes());
    Ok(())
}

/// Prints the line of a refusal, which an output has got, behind its status.
fn show_refused(rt: &HostRuntime, status: Status, out: &SureSink) {
    show_count(rt, b"status ", status.code() as u64);
    show(rt, out.written());
}

/// Prints what is said of an input that isn't final.
fn show_unsigned(rt: &HostRuntime, said: &str) {
    show_count(rt, b"status ", Status::Settle.code() as u64);
    show_line(rt, said);
}

/// Prints why a payment isn't shown to be settled.
fn show_stop(rt: &HostRuntime, names: &SettleNames, stop: Stop) -> Result<(), Memory> {
    let alloc = rt.alloc();
    let mut out = SureSink::new(alloc);
    match stop {
        Stop::Settle(stop) => {
            let status = answer(names, stop, &mut out);
            show_refused(rt, status, &out);
        }
        Stop::Psbt(SignedFault::Psbt(fault)) => {
            let [first, second] = psbt_fault_parts(fault);
            let parts = [Part::Text("input psbt "), first, second];
            let status = put_fault(&parts, Status::Input, &mut out);
            show_refused(rt, status, &out);
        }
        Stop::Psbt(SignedFault::Unsigned(index)) => {
            show_unsigned(rt, unsigned_text(alloc, index)?.as_str());
        }
        Stop::Psbt(SignedFault::Witness(index)) => {
            show_unsigned(rt, unfinished_text(alloc, index)?.as_str());
        }
    }
    Ok(())
}

/// The settlement of the files of these names; or why there is none.
fn settlement_over<H: Shelf>(
    alloc: Global,
    names: &SettleNames,
    shelf: &mut H,
) -> Result<Settlement, Stop> {
    settlement_of(alloc, names, shelf)
}

/// Looks whether the signed transaction of a file settles the payment of others, and prints what is shown of it.
pub(crate) fn settled<H: Shelf>(
    rt: &HostRuntime,
    columns: &[&str],
    shelf: &mut H,
) -> Result<(), Memory> {
    let names = SettleNames {
        wallet: column(columns, 1),
        request: column(columns, 2),
        report: column(columns, 3),
        tx: column(columns, 4),
    };
    show_column(rt, column(columns, 0))?;
    match settlement_over(rt.alloc(), &names, shelf) {
        Ok(settlement) => show_settled(rt, &settlement),
        Err(stop) => show_stop(rt, &names, stop),
    }
}

//! Made-up wallets, and summaries of runs over them.

use crate::shown::show;
use command_work::{Workload, write_summary};
use fund_base::Memory;
use fund_report::read_report;
use request_text::Request;
use row_columns::{Answer, column, number_in, short_in, unescaped};
use sha2::{Digest, Sha256};
use tx_codec::write_tx;
use wallet_text::{Earlier, WalletFault, Watch};

/// Puts a word, a script in hex, and the weight of an input that spends it.
fn put_watch(out: &mut Answer, word: &str, watch: &Watch) {
    out.digits(word, watch.script.bytes());
    out.number(":", watch.weight);
}

/// Puts the line of a coin.
fn put_coin(out: &mut Answer, index: usize, entry: &Earlier) {
    match entry.tx.as_ref().outputs.first() {
        Some(output) => {
            out.number("\ncoin ", index as u64);
            out.number(" ", output.value.get());
            out.digits(" ", output.script.bytes());
            out.number(" at ", u64::from(entry.height));
        }
        None => out.word("\nno coin"),
    }
}

/// Puts the lines of coins: all of up to ten, otherwise the first three, one in the middle and the last.
fn put_coins(out: &mut Answer, earlier: &[Earlier]) {
    let count = earlier.len();
    for index in 0..count {
        if count <= 10 || index < 3 || index == count / 2 || index == count - 1 {
            put_coin(out, index, &earlier[index]);
        }
    }
}

/// Puts the line of the first transaction, and that of the digest of all, one after another. The error is out of memory.
fn put_transactions(out: &mut Answer, earlier: &[Earlier]) -> Result<(), Memory> {
    match earlier.first() {
        Some(first) => out.written("\nfirst ", write_tx(out.alloc, first.tx.as_ref())),
        None => out.word("\nnone"),
    }
    let mut digest = Sha256::new();
    for entry in earlier {
        digest.update(write_tx(out.alloc, entry.tx.as_ref())?.as_slice());
    }
    out.digits("\nall ", &digest.finalize());
    Ok(())
}

/// Puts the line of what is asked.
fn put_request(out: &mut Answer, request: &Request) {
    let Some(recipient) = request.recipients.first() else {
        return out.word("\nno recipient");
    };
    out.number("\npays ", recipient.amount);
    out.digits(" to ", recipient.script.bytes());
    out.number(" at ", request.rate);
}

/// Puts all lines of a workload. The error is out of memory.
fn put_load(out: &mut Answer, load: &Workload) -> Result<(), Memory> {
    out.word("scripts");
    for watch in &load.wallet.scripts {
        put_watch(out, " ", watch);
    }
    put_watch(out, " change ", &load.wallet.change);
    put_coins(out, &load.wallet.earlier);
    put_transactions(out, &load.wallet.earlier)?;
    put_request(out, &load.request);
    Ok(())
}

/// Puts what a number and a count make. The error is out of memory.
fn put_made(out: &mut Answer, number: u64, count: u32) -> Result<(), Memory> {
    if count < 1 || count > 10_000 {
        out.word("no such count");
        return Ok(());
    }
    match Workload::new(out.alloc, number, count) {
        Ok(load) => put_load(out, &load),
        Err(WalletFault::Memory) => Err(Memory),
        Err(_) => {
            out.word("refused");
            Ok(())
        }
    }
}

/// Puts the summary of the report that a text is. The error is out of memory.
fn put_summary(out: &mut Answer, number: u64, count: u32, text: &str) -> Result<(), Memory> {
    let text = unescaped(out.alloc, text.as_bytes())?;
    match read_report(out.alloc, &text) {
        Ok(report) => out.bytes("", write_summary(out.alloc, number, count, &report)),
        Err(_) => out.word("no report"),
    }
    Ok(())
}

/// Prints what a number and a count make, or the summary of a report over it.
pub(crate) fn work(rt: &HostRuntime, verb: &str, columns: &[&str]) -> Result<(), Memory> {
    let mut out = Answer::new(rt.alloc());
    let (number, count) = (
        number_in(column(columns, 0), 0),
        short_in(column(columns, 1)),
    );
    if verb == "wallet" {
        put_made(&mut out, number, count)?;
    } else {
        put_summary(&mut out, number, count, column(columns, 2))?;
    }
    out.word("\n");
    show(rt, out.lines()?);
    Ok(())
}

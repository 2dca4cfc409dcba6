//! What coins come to, class by class, and what they cost at a fee rate beside their inputs: what raises the unconfirmed payments from
//! which they come.

ghost use Rattle.std.specs.Prelude.{◌≡◌, ◌≤◌};
ghost use Rattle.fund_files.specs.Chain.{IsChain};
ghost use Rattle.payment_states.specs.Payments.{payments_of};

use coin_candidates::Candidate;
use coin_totals::{coin_classes, totals_text};
use command_coins::listing;
use command_end::{Sources, Status, coin_text, put_report, refuse_chain};
use fund_base::{Memory, OutPoint};
use fund_files::{Chain, Stop, WALLET_LIMIT, read_chain};
use fund_report::InLine;
use fund_shelf::{Shelf, Sink, read_whole};
use payment_facts::known_facts;
use payment_states::{States, known_states};
use request_making::{btc_text, sat_text};
use std::alloc::Global;
use wallet_text::read_wallet;

/// The greatest rate.
const MOST: u64 = 100_000_000;

/// A rate, but the greatest where it is above that.
fn capped(rate: u64) -> u64
    ensures { result ≤ 100000000 }
{
    if rate < MOST { rate } else { MOST }
}

/// Puts the line of each coin that has a price.
fn put_prices(alloc: Global, text: &mut String, coins: &[Candidate]) -> Result<(), Memory> {
    for coin in coins {
        if coin.price > 0 {
            let shown = coin_text(alloc, &coin.coin)?;
            let line = format!(in alloc; "price {} {}\n", shown, coin.price)?;
            text.push_str(line.as_str())?;
        }
    }
    Ok(())
}

/// The lines of what the coins come to. The error is out of memory.
fn totals_lines(alloc: Global, held: &Chain, states: &States) -> Result<String, Memory>
    requires held { IsChain held.now }
    requires states { states.now ≡ payments_of held.now.wallet held.now.book }
{
    let book = held.book.known();
    let classes = coin_classes(alloc, &book, &held.wallet, states, held.tip.height)?;
    totals_text(alloc, &classes)
}

/// The listing of the coins, behind it their prices at a rate, and last what they come to. The error is out of memory.
fn priced_listing(alloc: Global, held: &Chain, rate: u64) -> Result<String, Memory>
    requires held { IsChain held.now }
    requires rate { rate ≤ 100000000 }
{
    let (states, coins) = held.states_and_coins(alloc, rate)?;
    let (height, hash) = (held.tip.height, &held.tip.hash);
    let mut text = listing(alloc, height, hash, states.payments(), &coins)?;
    put_prices(alloc, &mut text, &coins)?;
    text.push_str(totals_lines(alloc, held, &states)?.as_str())?;
    Ok(text)
}

/// The same of the files; or why there is none.
fn listed<H: Shelf>(
    alloc: Global,
    sources: &Sources,
    rate: u64,
    shelf: &mut H,
) -> Result<String, Stop> {
    let held = read_chain(alloc, sources.wallet, sources.blocks, shelf)?;
    match priced_listing(alloc, &held, capped(rate)) {
        Ok(text) => Ok(text),
        Err(Memory) => Err(Stop::Memory),
    }
}

/// Lists the coins of these files as the command `coins` does, behind them a line for the price of each that has one at a rate of at most
/// 100,000,000, and last a line for what the coins of each class come to.
pub fn list_priced<H: Shelf, O: Sink>(
    alloc: Global,
    sources: &Sources,
    rate: u64,
    shelf: &mut H,
    out: &mut O,
) -> Status {
    match listed(alloc, sources, rate, shelf) {
        Ok(text) => put_report(text.as_bytes(), Status::Done, out),
        Err(stop) => refuse_chain(sources, stop, out),
    }
}

/// Whether payments wait in a wallet file; none where it can't be read any more.
fn has_waiting<H: Shelf>(alloc: Global, name: &str, shelf: &mut H) -> Option<bool> {
    let Ok(bytes) = read_whole(alloc, shelf, name, WALLET_LIMIT) else {
        return None;
    };
    match read_wallet(alloc, &bytes) {
        Ok(wallet) => Some(!wallet.pending.is_empty()),
        Err(_) => None,
    }
}

/// The outpoints of the coins that a payment spends. The error is out of memory.
fn points_of(alloc: Global, lines: &[InLine]) -> Result<Vec<OutPoint>, Memory> {
    let mut points = Vec::with_capacity(alloc, lines.len())?;
    for line in lines {
        points.push(line.coin)?;
    }
    Ok(points)
}

/// The prices of these coins, together.
fn sum_of(coins: &[Candidate]) -> u64 {
    let mut sum: u64 = 0;
    for coin in coins {
        sum = sum.saturating_add(coin.price);
    }
    sum
}

/// The prices at a rate of the coins that a payment spends, together. Each is looked up whether or not it may still be spent, as those
/// of a payment that is replaced may not. The error is out of memory.
fn prices_at(alloc: Global, held: &Chain, rate: u64, lines: &[InLine]) -> Result<u64, Memory>
    requires held { IsChain held.now }
    requires rate { rate ≤ 100000000 }
{
    let points = points_of(alloc, lines)?;
    let (wallet, tip) = (&held.wallet, held.tip.height);
    let book = held.book.known();
    let states = known_states(alloc, &book, wallet)?;
    let coins = known_facts(alloc, &book, wallet, &states, tip, &points, rate)?;
    Ok(sum_of(&coins))
}

/// What a payment at a rate has paid for the ancestors of its coins, by these files; none where they can't be read any more, or
/// there is too little memory for it. Without payments that wait the block file isn't read.
pub fn paid_for_parents<H: Shelf>(
    alloc: Global,
    sources: &Sources,
    rate: u64,
    lines: &[InLine],
    shelf: &mut H,
) -> Option<u64> {
    match has_waiting(alloc, sources.wallet, shelf) {
        Some(true) => {}
        Some(false) => return Some(0),
        None => return None,
    }
    let Ok(held) = read_chain(alloc, sources.wallet, sources.blocks, shelf) else {
        return None;
    };
    match prices_at(alloc, &held, capped(rate), lines) {
        Ok(paid) => Some(paid),
        Err(Memory) => None,
    }
}

/// The line of what a payment has paid for ancestors. The error is out of memory.
pub fn parents_line(alloc: Global, paid: u64) -> Result<String, Memory> {
    let btc = btc_text(alloc, paid)?;
    let sat = sat_text(alloc, paid)?;
    Ok(format!(in alloc; "parents {}  {}", btc, sat)?)
}

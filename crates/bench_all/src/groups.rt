//! Finding the pool of made-up coins, ten to a script.

ghost use Rattle.std.specs.Prelude.{◌≤◌, IfOk};
ghost use Rattle.coin_candidates.specs.Candidates.{AreCandidates};

use coin_candidates::Candidate;
use fund_base::{Memory, OutPoint, Script, Txid};
use output_groups::{Groups, ladder, pool};
use row_columns::{Answer, number_in};
use std::alloc::Global;
use std::cmp::Reverse;
use std::io;
use std::time::Instant;

/// The greatest number of coins.
const MOST: u64 = 100_000;

/// A number that looks like none before it.
fn mixed(n: u32) -> u32 {
    n.wrapping_mul(2_654_435_761)
}

/// The script of a group: a witness program of 20 bytes.
fn script(alloc: Global, group: u32) -> Result<Script, Memory> {
    let [a, b, c, d] = mixed(group).to_le_bytes();
    let bytes = Vec::from_slice(
        alloc,
        &[
            0, 20, a, b, c, d, 0, 0, 0, 0, 0, 0, 0, 0, 0, 0, 0, 0, 0, 0, 0, 0,
        ],
    )?;
    Ok(Script::new(bytes))
}

/// So many coins, every tenth part of them in turn paying to the scripts one after another.
fn coins(alloc: Global, count: u32) -> Result<Vec<Candidate>, Memory>
    requires { count ≤ 100_000 }
    ensures { IfOk result (λ v. AreCandidates v.items) }
{
    let mut coins = Vec::new(alloc);
    for place in 0..count {
        let [a, b, c, d] = mixed(place).to_le_bytes();
        let mut txid = [0; 32];
        txid[0] = a;
        txid[1] = b;
        txid[2] = c;
        txid[3] = d;
        coins.push(Candidate {
            coin: OutPoint {
                txid: Txid(txid),
                index: place,
            },
            value: 10_000 + (mixed(place) % 1_000_000) as u64,
            weight: 272,
            script: script(alloc, place % (count / 10).max(1))?,
            depth: 11,
            mine: false,
            safe: true,
            ancestors: 0,
            descendants: 0,
            price: 0,
        })?;
    }
    Ok(coins)
}

/// The keys of as many groups as there are scripts.
fn keys(
    alloc: Global,
    coins: &[Candidate],
) -> Result<Vec<(Reverse<u64>, u64, i64, OutPoint)>, Memory> {
    let mut keys = Vec::new(alloc);
    for coin in coins.iter().step_by(10) {
        keys.push((Reverse(coin.value), coin.weight, 0, coin.coin))?;
    }
    Ok(keys)
}

/// Sorts the coins by script, and as many keys of groups as there are scripts.
fn sort(alloc: Global, mut coins: Vec<Candidate>) -> Result<usize, Memory> {
    let mut keys = keys(alloc, &coins)?;
    coins.sort_by(|a, b| a.script.bytes().cmp(b.script.bytes()))?;
    keys.sort_unstable();
    Ok(keys.len())
}

/// Puts how long it takes to sort the same keys, in microseconds, after how long the pool took.
fn compare(
    rt: &HostRuntime,
    out: &mut Answer,
    coins: Vec<Candidate>,
    pool_time: u128,
) -> io::Result<()> {
    let start = Instant::now(rt)?;
    let keys = sort(out.alloc, coins).unwrap_or(0);
    let sort_time = start.elapsed(rt)?.as_micros();
    out.large("pool ", pool_time);
    out.large(" us, sort ", sort_time);
    out.number(" us, ", keys as u64);
    out.word(" keys\n");
    Ok(())
}

/// How many groups the seven rows keep together, of groups that are formed once.
fn row_groups(alloc: Global, coins: &[Candidate]) -> Option<usize>
    requires { AreCandidates coins.now }
{
    let groups = Groups::new(alloc, coins, 10_000, 10_000, true).ok()?;
    let mut sum: usize = 0;
    for row in ladder(true, true) {
        let seen = groups.items(alloc, row).ok()?;
        sum = sum.saturating_add(seen.items.len());
    }
    Some(sum)
}

/// Puts how long it takes to form the groups once and to list the items of seven rows, in microseconds.
fn time_rows(rt: &HostRuntime, out: &mut Answer, coins: &[Candidate]) -> io::Result<()>
    requires { AreCandidates coins.now }
{
    let start = Instant::now(rt)?;
    let kept = row_groups(out.alloc, coins).unwrap_or(0);
    let time = start.elapsed(rt)?.as_micros();
    out.large("rows ", time);
    out.number(" us, ", kept as u64);
    out.word(" items\n");
    Ok(())
}

/// How many groups the pool has; `None` where there is no pool.
fn pool_groups(alloc: Global, coins: &[Candidate]) -> Option<usize>
    requires { AreCandidates coins.now }
{
    let pool = pool(alloc, coins, &ladder(false, false)[0], 10_000, 10_000, true).ok()?;
    Some(pool.groups.len())
}

/// Finds the pool and puts how many groups it has. Gives how many microseconds that took; `None` where there is no pool.
fn find_pool(rt: &HostRuntime, out: &mut Answer, coins: &[Candidate]) -> io::Result<Option<u128>>
    requires { AreCandidates coins.now }
{
    let start = Instant::now(rt)?;
    let Some(groups) = pool_groups(out.alloc, coins) else {
        out.word("there is no pool\n");
        return Ok(None);
    };
    let pool_time = start.elapsed(rt)?.as_micros();
    out.number("", groups as u64);
    out.word(" groups\n");
    Ok(Some(pool_time))
}

/// Finds the pool of the coins and puts how many groups it has; if asked to, forms groups for seven rows and sorts the same
/// keys too, and puts the times.
fn find_groups(
    rt: &HostRuntime,
    out: &mut Answer,
    coins: Vec<Candidate>,
    timed: bool,
) -> io::Result<bool>
    requires { AreCandidates coins.items }
{
    let Some(pool_time) = find_pool(rt, out, &coins)? else {
        return Ok(false);
    };
    if timed {
        time_rows(rt, out, &coins)?;
        compare(rt, out, coins, pool_time)?;
    }
    Ok(true)
}

/// Finds the pool of as many coins as the word says, and puts how many groups it has.
pub(crate) fn find(
    rt: &HostRuntime,
    out: &mut Answer,
    word: &str,
    timed: bool,
) -> io::Result<bool> {
    let count = number_in(word, u64::MAX);
    if count > MOST {
        out.word("up to 100000 coins can be made\n");
        return Ok(false);
    }
    match coins(out.alloc, count as u32) {
        Ok(coins) => find_groups(rt, out, coins, timed),
        Err(_) => {
            out.lack();
            Ok(false)
        }
    }
}

//! How coins form groups.

ghost use Rattle.std.specs.Prelude.{◌≡◌, ◌++◌, ◌+◌, ◌*◌, ◌<◌, ◌≤◌, ◌&&◌, ℕ, List, IfOk, OnOk, All, filter, take, map, length, nat_lt, nat_le, bytes_eq, slice_index_or, IsPermutation, IsSorted, IsSortedByKey};
ghost use Rattle.std.specs.Cmp.Lexicographic.{slice_cmp};
ghost use Rattle.std.specs.Ordering.{nat_cmp};
ghost use Rattle.coin_candidates.specs.Candidates.{IsCandidate};
ghost use Rattle.coin_candidates.specs.declared.candidate.Candidate.{Candidate};
ghost use Rattle.output_groups.specs.Formed.{AreUseful, IsFormed, part_in};
ghost use Rattle.output_groups.specs.Measures.{is_useful};
ghost use Rattle.output_groups.specs.Forming.{IsGrouping, alone, hundred, of_script, part_at, parts_of};
ghost use Rattle.output_groups.specs.Order.{formed_cmp};
ghost use Rattle.output_groups.specs.Runs.{IsRun, run_of, script_of};

use crate::coin_refs::CoinRef;
use crate::formed::{Formed, group_of, order};
use crate::measures::is_useful;
use coin_candidates::Candidate;
use fund_base::Memory;
use std::alloc::Global;

/// The candidates that bring something at the rate, in their order.
pub fn useful<'a>(
    alloc: Global,
    candidates: &'a [Candidate],
    rate: u64,
) -> Result<Vec<CoinRef<'a>>, Memory>
    requires rate { rate ≤ 100_000_000 }
    requires candidates { All IsCandidate candidates.now }
    ensures { IfOk result (λ v. v.items ≡ filter (is_useful rate) candidates.now) }
{
    let mut useful = Vec::new(alloc);
    for candidate in candidates {
        if is_useful(rate, candidate) {
            useful.push(CoinRef::new(candidate))?;
        }
    }
    Ok(useful)
}

/// Sorts the coins by script; those of one script stay in their order.
pub fn sort_by_script(coins: &mut Vec<CoinRef>) -> Result<(), Memory>
    ensures sorted { OnOk result (IsSortedByKey script_of (slice_cmp nat_cmp) coins.new.items) }
    ensures moved { IsPermutation coins.old.items coins.new.items }
    ensures same { (script : List ℕ) → of_script script coins.new.items ≡ of_script script coins.old.items }
{
    coins.sort_by(|a, b| a.coin().script.bytes().cmp(b.coin().script.bytes()))?;
    Ok(())
}

/// Each coin as a group by itself, in their order.
pub fn singles<'a>(
    alloc: Global,
    coins: &[CoinRef<'a>],
    rate: u64,
    long_term: u64,
) -> Result<Vec<Formed<'a>>, Memory>
    requires rate { rate ≤ 100_000_000 }
    requires long_term { long_term ≤ 100_000_000 }
    requires coins { AreUseful rate coins.now }
    ensures parts { IfOk result (λ v. map (part_in coins.now) v.items ≡ map alone coins.now) }
    ensures each { IfOk result (λ v. All (IsFormed rate long_term coins.now) v.items) }
{
    let mut groups = Vec::with_capacity(alloc, coins.len())?;
    for place in 0..coins.len() {
        groups.push(single(coins, place, rate, long_term))?;
    }
    Ok(groups)
}

/// The coin at a place as a group by itself.
fn single<'a>(coins: &[CoinRef<'a>], place: usize, rate: u64, long_term: u64) -> Formed<'a>
    requires rate { rate ≤ 100_000_000 }
    requires long_term { long_term ≤ 100_000_000 }
    requires coins { AreUseful rate coins.now }
    requires place { place < length coins.now }
    ensures part { (d : Candidate) → part_in coins.now result ≡ alone (slice_index_or coins.now place d) }
    ensures formed { IsFormed rate long_term coins.now result }
{
    group_of(
        &coins[place..place + 1],
        place as u32,
        false,
        rate,
        long_term,
    )
}

/// The groups of coins that stand sorted by script.
pub fn cut<'a>(
    alloc: Global,
    coins: &[CoinRef<'a>],
    rate: u64,
    long_term: u64,
) -> Result<Vec<Formed<'a>>, Memory>
    requires rate { rate ≤ 100_000_000 }
    requires long_term { long_term ≤ 100_000_000 }
    requires coins { AreUseful rate coins.now }
    requires sorted { IsSortedByKey script_of (slice_cmp nat_cmp) coins.now }
    ensures parts { IfOk result (λ v. IsGrouping coins.now (map (part_in coins.now) v.items)) }
    ensures each { IfOk result (λ v. All (IsFormed rate long_term coins.now) v.items) }
{
    let mut groups = Vec::with_capacity(alloc, coins.len())?;
    let mut start = 0;
    while start < coins.len() {
        let end = end_of_run(coins, start);
        add_run(&mut groups, coins, start, end, rate, long_term)?;
        start = end;
    }
    Ok(groups)
}

/// Where the coins end that pay to the same script as the one at `start`, and stand behind it without a gap.
fn end_of_run(coins: &[CoinRef], start: usize) -> usize
    requires { start < length coins.now }
    ensures { IsRun coins.now start result }
{
    let mut end = start + 1;
    while end < coins.len() && pay_alike(&coins[end], &coins[start]) {
        end += 1;
    }
    end
}

/// Whether the coins pay to one script.
fn pay_alike(a: &CoinRef, b: &CoinRef) -> bool
    ensures { result ≡ bytes_eq (script_of a.now) (script_of b.now) }
{
    a.coin().script.bytes() == b.coin().script.bytes()
}

/// Appends the groups of the coins from `start` up to `end`, which all pay to one script.
fn add_run<'a>(
    groups: &mut Vec<Formed<'a>>,
    coins: &[CoinRef<'a>],
    start: usize,
    end: usize,
    rate: u64,
    long_term: u64,
) -> Result<(), Memory>
    requires rate { rate ≤ 100_000_000 }
    requires long_term { long_term ≤ 100_000_000 }
    requires coins { AreUseful rate coins.now }
    requires order { start ≤ end }
    requires within { end ≤ length coins.now }
    ensures parts { OnOk result (map (part_in coins.now) groups.new.items ≡ map (part_in coins.now) groups.old.items ++ parts_of (run_of coins.now start end)) }
    ensures each { OnOk result (All (IsFormed rate long_term coins.now) groups.old.items → All (IsFormed rate long_term coins.now) groups.new.items) }
{
    let count = (end - start).div_ceil(100);
    for place in 0..count {
        groups.push(hundred_at(coins, start, end, place, rate, long_term))?;
    }
    Ok(())
}

/// The group at a place of those of the coins from `start` up to `end`.
fn hundred_at<'a>(
    coins: &[CoinRef<'a>],
    start: usize,
    end: usize,
    place: usize,
    rate: u64,
    long_term: u64,
) -> Formed<'a>
    requires rate { rate ≤ 100_000_000 }
    requires long_term { long_term ≤ 100_000_000 }
    requires coins { AreUseful rate coins.now }
    requires order { start ≤ end }
    requires within { end ≤ length coins.now }
    requires place { start + 100 * place < end }
    ensures part { part_in coins.now result ≡ part_at (run_of coins.now start end) place }
    ensures formed { IsFormed rate long_term coins.now result }
{
    let run = &coins[start..end];
    let hundred = hundred(run, place);
    let partial = is_partial(hundred, run);
    group_of(
        hundred,
        (start + 100 * place) as u32,
        partial,
        rate,
        long_term,
    )
}

/// Whether it has fewer than 100 coins where the run has a full hundred.
fn is_partial(hundred: &[CoinRef], run: &[CoinRef]) -> bool
    ensures { result ≡ (nat_lt (length hundred.now) 100 && nat_le 100 (length run.now)) }
{
    hundred.len() < 100 && run.len() >= 100
}

/// The hundred at a place, or what there is of it.
fn hundred<'b, 'a>(coins: &'b [CoinRef<'a>], place: usize) -> &'b [CoinRef<'a>]
    requires { 100 * place ≤ length coins.now }
    ensures { result.now ≡ hundred coins.now place }
{
    front(&coins[100 * place..], 100)
}

/// The first `most` coins, or all where there are fewer.
fn front<'b, 'a>(coins: &'b [CoinRef<'a>], most: usize) -> &'b [CoinRef<'a>]
    ensures { result.now ≡ take most coins.now }
{
    if coins.len() <= most {
        coins
    } else {
        &coins[..most]
    }
}

/// Sorts groups into the order of a pool.
pub fn sort(groups: &mut Vec<Formed>)
    ensures moved { IsPermutation groups.old.items groups.new.items }
    ensures sorted { IsSorted formed_cmp groups.new.items }
{
    groups.sort_unstable_by(|a, b| order(a, b));
}

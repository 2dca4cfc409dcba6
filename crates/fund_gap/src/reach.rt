//! What the coins of a pool bring.

ghost use Rattle.std.specs.Prelude.{◌≡◌, ◌==◌, ◌≤◌, All, IfErr, IfOk, length, sum, sum_by};
ghost use Rattle.coin_candidates.specs.Candidates.{AreCandidates};
ghost use Rattle.output_groups.specs.Pool.{IsPoolFault};
ghost use Rattle.pick_problem.specs.declared.item.Item.{Item};
ghost use Rattle.fund_steps.specs.Making.{AreSearched};
ghost use Rattle.fee_sharing.specs.Sweep.{last_row};
ghost use Rattle.fund_gap.specs.Gap.{is_manual, reach_by, reach_of};

use coin_candidates::Candidate;
use fee_sharing::last_row;
use output_groups::{Groups, PoolFault, Row, RowItems};
use pick_problem::Item;
use request_text::{Method, Request};
use std::alloc::Global;

/// What the coins of a pool come to.
#[derive(Clone, Copy)]
pub struct Reach {
    /// What they bring together, in satoshi.
    pub value: u128,
    /// How many they are.
    pub coins: u64,
}

/// What the groups of a pool bring together, in satoshi.
fn values(items: &[Item]) -> u128
    requires few { length items.now ≤ 10_000 }
    requires each { All (λ (i : Item). i.value ≤ 210_000_000_000_000_000) items.now }
    ensures value { result ≡ sum_by (λ (i : Item). i.value) items.now }
    ensures most { result ≤ 2_100_000_000_000_000_000_000 }
{
    let mut sum: u128 = 0;
    for item in items {
        sum += u128::from(item.value);
    }
    sum
}

/// How many coins there are together, by how many each group has.
fn count(sizes: &[u8]) -> u64
    requires few { length sizes.now ≤ 10_000 }
    requires each { All (λ n. n ≤ 100) sizes.now }
    ensures value { result ≡ sum sizes.now }
    ensures most { result ≤ 1_000_000 }
{
    let mut sum = 0;
    for size in sizes {
        sum += u64::from(*size);
    }
    sum
}

/// What the groups of a pool come to, by what a search sees of them.
fn added_up(seen: &RowItems) -> Reach
    requires { AreSearched seen.now.items.items seen.now.sizes.items }
    ensures value { result.value ≡ sum_by (λ (i : Item). i.value) seen.now.items.items }
    ensures coins { result.coins ≡ sum seen.now.sizes.items }
    ensures most { result.value ≤ 2_100_000_000_000_000_000_000 }
    ensures few { result.coins ≤ 1_000_000 }
{
    Reach {
        value: values(&seen.items),
        coins: count(&seen.sizes),
    }
}

/// What the coins of a row's pool come to, at rates in satoshi per 1,000 virtual bytes. The error is that of the pool.
pub fn row_reach(
    alloc: Global,
    candidates: &[Candidate],
    row: &Row,
    rate: u64,
    long_term: u64,
    group: bool,
) -> Result<Reach, PoolFault>
    requires candidates { AreCandidates candidates.now }
    requires rate { rate ≤ 100_000_000 }
    requires long_term { long_term ≤ 100_000_000 }
    ensures reach { IfOk result (λ r. r ≡ reach_of group row.now rate long_term candidates.now) }
    ensures value { IfOk result (λ r. r.value ≤ 2_100_000_000_000_000_000_000) }
    ensures coins { IfOk result (λ r. r.coins ≤ 1_000_000) }
    ensures fault { IfErr result (IsPoolFault group row.now rate candidates.now) }
{
    let groups = Groups::new(alloc, candidates, rate, long_term, group)?;
    match groups.items(alloc, row) {
        Ok(seen) => Ok(added_up(&seen)),
        Err(fault) => Err(fault),
    }
}

/// Whether a method adds no coin to those that are listed.
fn is_manual(method: Method) -> bool
    ensures { result ≡ is_manual method }
{
    match method {
        Method::Manual => true,
        Method::Auto | Method::Changeless | Method::Weight | Method::Draw => false,
    }
}

/// What the coins come to that a request's method may add: those of the last row of the ladder, and none by `manual`.
pub fn reach_by(alloc: Global, request: &Request, rest: &[Candidate]) -> Result<Reach, PoolFault>
    requires { AreCandidates rest.now }
    ensures reach { IfOk result (λ r. r ≡ reach_by request.now rest.now) }
    ensures value { IfOk result (λ r. r.value ≤ 2_100_000_000_000_000_000_000) }
    ensures coins { IfOk result (λ r. r.coins ≤ 1_000_000) }
    ensures fault { IfErr result (IsPoolFault request.now.group (last_row request.now) request.now.rate rest.now) }
{
    if is_manual(request.method) {
        return Ok(Reach { value: 0, coins: 0 });
    }
    request.keeps_rules();
    let row = last_row(request);
    row_reach(
        alloc,
        rest,
        row,
        request.rate,
        request.long_term,
        request.group,
    )
}

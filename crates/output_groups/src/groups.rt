//! The groups that candidates form, made once for all rows.

ghost use Rattle.std.specs.Prelude.{◌≡◌, ◌≢◌, ◌+◌, ◌++◌, ◌<◌, ◌≤◌, ℕ, List, Err, IfOk, IfErr, OnOk, All, filter, map, length};
ghost use Rattle.coin_candidates.specs.Candidates.{AreCandidates};
ghost use Rattle.coin_candidates.specs.declared.candidate.Candidate.{Candidate};
ghost use Rattle.pick_problem.specs.Pool.{AreItems};
ghost use Rattle.pick_problem.specs.Problem.{Rising};
ghost use Rattle.output_groups.specs.Formed.{AreUseful, IsFormed, coins_at, keeps_formed, part_in};
ghost use Rattle.output_groups.specs.Forming.{AreParts};
ghost use Rattle.output_groups.specs.Places.{members};
ghost use Rattle.output_groups.specs.PlainGroups.{pool_in};
ghost use Rattle.output_groups.specs.Pool.{CountsKept, IsPoolFault};
ghost use Rattle.output_groups.specs.declared.fault.PoolFault.TheVariants as faults;
ghost use Rattle.output_groups.specs.declared.formed.Formed.{Formed};

use crate::coin_refs::CoinRef;
use crate::fault::PoolFault;
use crate::formed::Formed;
use crate::forming::{cut, singles, sort, sort_by_script, useful};
use crate::group::Group;
use crate::kept::Kept;
use crate::row_pool::RowPool;
use crate::rows::Row;
use coin_candidates::Candidate;
use fund_base::Memory;
use pick_problem::Item;
use std::alloc::Global;
use std::marker::Model;

/// The groups that candidates form at a rate, in the order of a pool. They are formed and sorted once, and each row's pool
/// is the part of them that it keeps. A group has no copy of its coins. They are seen as what they are formed from.
#[derive(Drop)]
pub struct Groups<'a> {
    candidates: &'a [Candidate],
    group: bool,
    rate: u64,
    long_term: u64,
    // the candidates that bring something, those of one script together where groups are by scripts
    coins: Vec<CoinRef<'a>>,
    formed: Vec<Formed<'a>>,
}

impl<'a> Model for Groups<'a> {
    ghost use Rattle.output_groups.specs.PlainGroups.{PlainGroups};
    ghost use Rattle.output_groups.specs.Formed.{AreFormed};

    ghost Value = { PlainGroups };

    ghost view = { λ g. record { candidates = g.candidates.now; group = g.group; rate = g.rate; long_term = g.long_term } };

    ghost invariant = { λ g. AreFormed g.group g.rate g.long_term g.candidates.now g.coins.items g.formed.items };
}

/// What a search sees of a row's pool: beside the item of each group how many coins it has.
#[derive(Drop)]
pub struct RowItems {
    /// The item of each group, in the order of the pool.
    pub items: Vec<Item>,
    /// How many coins each group has.
    pub sizes: Vec<u8>,
}

/// The greatest number of groups of a pool.
const MOST_GROUPS: usize = 10_000;

impl<'a> Groups<'a> {
    /// The groups that the candidates form at `rate` and `long_term`, both in satoshi per 1,000 virtual bytes: with `group`
    /// by their scripts, and otherwise each by itself. [`pool`](crate::pool) says more.
    pub fn new(
        alloc: Global,
        candidates: &'a [Candidate],
        rate: u64,
        long_term: u64,
        group: bool,
    ) -> Result<Groups<'a>, Memory>
        requires candidates { AreCandidates candidates.now }
        requires rate { rate ≤ 100_000_000 }
        requires long_term { long_term ≤ 100_000_000 }
        ensures { IfOk result (λ g. g ≡ record { candidates = candidates.now; group = group; rate = rate; long_term = long_term }) }
    {
        let mut coins = useful(alloc, candidates, rate)?;
        let mut formed = form(alloc, &mut coins, rate, long_term, group)?;
        sort(&mut formed);
        Ok(Groups {
            candidates,
            group,
            rate,
            long_term,
            coins,
            formed,
        })
    }

    /// How many groups the row's pool has.
    fn count(&self, row: &Row) -> Result<usize, PoolFault>
        ensures value { IfOk result (λ n. n ≡ length (pool_in self.now row.now).groups) }
        ensures most { IfOk result (λ n. n ≤ 10_000) }
        ensures few { IfOk result (λ _. (n : ℕ) → CountsKept self.now.group row.now self.now.rate self.now.candidates n → n ≤ 10_000) }
        ensures many { IfErr result (λ e. IsPoolFault self.now.group row.now self.now.rate self.now.candidates e) }
        ensures never { result ≢ Err faults.Memory }
    {
        let count = count_kept(&self.formed, row);
        if count > MOST_GROUPS {
            return Err(PoolFault::TooMany(count as u64));
        }
        Ok(count)
    }

    /// What a search sees of the row's pool, group by group in its order.
    ///
    /// The error is [`PoolFault::TooMany`] where the row keeps more than 10,000 groups, with their number, or out of memory.
    pub fn items(&self, alloc: Global, row: &Row) -> Result<RowItems, PoolFault>
        ensures items { IfOk result (λ p. p.items.items ≡ (pool_in self.now row.now).items) }
        ensures sizes { IfOk result (λ p. p.sizes.items ≡ map (λ (g : List Candidate). length g) (pool_in self.now row.now).groups) }
        ensures fit { IfOk result (λ p. AreItems p.items.items) }
        ensures small { IfOk result (λ p. All (λ n. n ≤ 100) p.sizes.items) }
        ensures few { IfOk result (λ _. (n : ℕ) → CountsKept self.now.group row.now self.now.rate self.now.candidates n → n ≤ 10_000) }
        ensures many { IfErr result (λ e. IsPoolFault self.now.group row.now self.now.rate self.now.candidates e) }
        ensures short { result ≡ Err faults.Memory → (n : ℕ) → CountsKept self.now.group row.now self.now.rate self.now.candidates n → n ≤ 10_000 }
    {
        let count = self.count(row)?;
        let items = kept_items(alloc, &self.formed, row, count)?;
        Ok(items)
    }

    /// The row's pool, with a copy of each coin of its groups.
    ///
    /// The error is [`PoolFault::TooMany`] where the row keeps more than 10,000 groups, with their number, or out of memory.
    pub fn pool(&self, alloc: Global, row: &Row) -> Result<RowPool, PoolFault>
        ensures value { IfOk result (λ p. p ≡ pool_in self.now row.now) }
        ensures items { IfOk result (λ p. AreItems p.items) }
        ensures few { IfOk result (λ _. (n : ℕ) → CountsKept self.now.group row.now self.now.rate self.now.candidates n → n ≤ 10_000) }
        ensures many { IfErr result (λ e. IsPoolFault self.now.group row.now self.now.rate self.now.candidates e) }
        ensures short { result ≡ Err faults.Memory → (n : ℕ) → CountsKept self.now.group row.now self.now.rate self.now.candidates n → n ≤ 10_000 }
    {
        let count = self.count(row)?;
        let pool = kept_groups(alloc, &self.coins, &self.formed, row, count)?;
        Ok(pool)
    }

    /// A copy of each coin of the groups at these places of the row's pool, in the order of the places, which rise. The
    /// error is out of memory.
    pub fn members(
        &self,
        alloc: Global,
        row: &Row,
        places: &[u32],
    ) -> Result<Vec<Candidate>, Memory>
        requires { Rising (length (pool_in self.now row.now).groups) 0 places.now }
        ensures { IfOk result (λ v. v.items ≡ members (pool_in self.now row.now).groups places.now) }
    {
        let kept = kept(alloc, &self.formed, row)?;
        let members = members(alloc, &self.coins, &kept, places)?;
        Ok(members)
    }
}

/// The groups of the coins, in some order. With `group` the coins are brought together by script.
fn form<'a>(
    alloc: Global,
    coins: &mut Vec<CoinRef<'a>>,
    rate: u64,
    long_term: u64,
    group: bool,
) -> Result<Vec<Formed<'a>>, Memory>
    requires rate { rate ≤ 100_000_000 }
    requires long_term { long_term ≤ 100_000_000 }
    requires coins { AreUseful rate coins.old.items }
    ensures parts { IfOk result (λ v. AreParts group coins.old.items (map (part_in coins.new.items) v.items)) }
    ensures each { IfOk result (λ v. All (IsFormed rate long_term coins.new.items) v.items) }
{
    if group {
        sort_by_script(coins)?;
        cut(alloc, coins, rate, long_term)
    } else {
        singles(alloc, coins, rate, long_term)
    }
}

/// How many of the groups the row keeps.
fn count_kept(formed: &[Formed], row: &Row) -> usize
    ensures { result ≡ length (filter (keeps_formed row.now) formed.now) }
{
    let mut count = 0;
    for one in formed {
        if one.is_kept(row) {
            count += 1;
        }
    }
    count
}

/// The items and sizes of the groups that the row keeps.
fn kept_items(alloc: Global, formed: &[Formed], row: &Row, count: usize) -> Result<RowItems, Memory>
    ensures items { IfOk result (λ p. p.items.items ≡ map (λ (f : Formed). f.item) (filter (keeps_formed row.now) formed.now)) }
    ensures sizes { IfOk result (λ p. p.sizes.items ≡ map (λ (f : Formed). f.size) (filter (keeps_formed row.now) formed.now)) }
{
    let mut items = Vec::with_capacity(alloc, count)?;
    let mut sizes = Vec::with_capacity(alloc, count)?;
    for one in formed {
        if one.is_kept(row) {
            items.push(one.item)?;
            sizes.push(one.size)?;
        }
    }
    Ok(RowItems { items, sizes })
}

/// The groups that the row keeps, with their items.
fn kept_groups(
    alloc: Global,
    coins: &[CoinRef],
    formed: &[Formed],
    row: &Row,
    count: usize,
) -> Result<RowPool, Memory>
    requires { All (λ (f : Formed). f.start + f.size ≤ length coins.now) formed.now }
    ensures items { IfOk result (λ p. p.items ≡ map (λ (f : Formed). f.item) (filter (keeps_formed row.now) formed.now)) }
    ensures groups { IfOk result (λ p. p.groups ≡ map (coins_at coins.now) (filter (keeps_formed row.now) formed.now)) }
{
    let mut items = Vec::with_capacity(alloc, count)?;
    let mut groups = Vec::with_capacity(alloc, count)?;
    for one in formed {
        if one.is_kept(row) {
            items.push(one.item)?;
            groups.push(copied(alloc, coins, one)?)?;
        }
    }
    Ok(RowPool { items, groups })
}

/// The group with a copy of each coin.
fn copied(alloc: Global, coins: &[CoinRef], one: &Formed) -> Result<Group, Memory>
    requires { one.now.start + one.now.size ≤ length coins.now }
    ensures { IfOk result (λ g. g ≡ coins_at coins.now one.now) }
{
    let start = one.start as usize;
    let copies = copies(alloc, &coins[start..start + one.size as usize])?;
    Ok(Group::new(copies))
}

/// Appends a copy of each coin, in their order.
fn add_copies(alloc: Global, copies: &mut Vec<Candidate>, coins: &[CoinRef]) -> Result<(), Memory>
    ensures { OnOk result (copies.new.items ≡ copies.old.items ++ coins.now) }
{
    for lent in coins {
        let copy = lent.coin().copy(alloc)?;
        copies.push(copy)?;
    }
    Ok(())
}

/// A copy of each coin, in their order.
fn copies(alloc: Global, coins: &[CoinRef]) -> Result<Vec<Candidate>, Memory>
    ensures { IfOk result (λ v. v.items ≡ coins.now) }
{
    let mut copies = Vec::with_capacity(alloc, coins.len())?;
    add_copies(alloc, &mut copies, coins)?;
    Ok(copies)
}

/// The groups that the row keeps, lent.
fn kept<'b, 'a>(
    alloc: Global,
    formed: &'b [Formed<'a>],
    row: &Row,
) -> Result<Vec<Kept<'b, 'a>>, Memory>
    ensures { IfOk result (λ v. v.items ≡ filter (keeps_formed row.now) formed.now) }
{
    let mut kept = Vec::with_capacity(alloc, formed.len())?;
    for one in formed {
        if one.is_kept(row) {
            kept.push(Kept::new(one))?;
        }
    }
    Ok(kept)
}

/// Appends a copy of each coin of a group.
fn add_group(
    alloc: Global,
    members: &mut Vec<Candidate>,
    coins: &[CoinRef],
    one: &Formed,
) -> Result<(), Memory>
    requires { one.now.start + one.now.size ≤ length coins.now }
    ensures { OnOk result (members.new.items ≡ members.old.items ++ coins_at coins.now one.now) }
{
    let start = one.start as usize;
    add_copies(alloc, members, &coins[start..start + one.size as usize])
}

/// A copy of each coin of the groups at these places, which rise.
fn members(
    alloc: Global,
    coins: &[CoinRef],
    kept: &[Kept],
    places: &[u32],
) -> Result<Vec<Candidate>, Memory>
    requires within { All (λ (f : Formed). f.start + f.size ≤ length coins.now) kept.now }
    requires places { Rising (length kept.now) 0 places.now }
    ensures { IfOk result (λ v. v.items ≡ members (map (coins_at coins.now) kept.now) places.now) }
{
    let mut members = Vec::with_capacity(alloc, places.len())?;
    for place in places {
        add_group(alloc, &mut members, coins, kept[*place as usize].one())?;
    }
    Ok(members)
}

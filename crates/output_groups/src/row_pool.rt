//! The pool of a row.

ghost use Rattle.std.specs.Prelude.{◌≡◌, ◌≤◌, ℕ, IfOk, IfErr, All};
ghost use Rattle.coin_candidates.specs.Candidates.{AreCandidates};
ghost use Rattle.pick_problem.specs.Pool.{AreItems};
ghost use Rattle.output_groups.specs.Ladder.{Meets};
ghost use Rattle.output_groups.specs.Measures.{IsGroup};
ghost use Rattle.output_groups.specs.Pool.{AreOnce, IsPool, IsPoolFault, CountsKept};
ghost use Rattle.output_groups.specs.PoolOf.{pool_of};

use crate::fault::PoolFault;
use crate::group::Group;
use crate::groups::Groups;
use crate::rows::Row;
use coin_candidates::Candidate;
use pick_problem::Item;
use std::alloc::Global;
use std::marker::Model;

/// The groups of a row's pool, in order, and beside each, at the same place, the item that a search sees of it.
#[derive(Drop)]
pub struct RowPool {
    /// The item of each group.
    pub items: Vec<Item>,
    /// The groups in the order of the pool.
    pub groups: Vec<Group>,
}

impl Model for RowPool {
    ghost use Rattle.output_groups.specs.PlainPool.{PlainPool};

    ghost Value = { PlainPool };

    ghost view = { λ p. record { items = p.items.items; groups = p.groups.items } };
}

/// The pool of a row at `rate` and `long_term`, both in satoshi per 1,000 virtual bytes.
///
/// Of the candidates those count whose value is above the fee of their input at `rate` and their price together. Without
/// `group` each is a group by itself. With `group` the coins of one script form groups of 100 in the order of the list, the
/// last with the rest, and that one is partial if it has fewer than 100 where its script has a full one.
///
/// A group is kept if the row takes it: its depth is the least of its coins', it is mine or safe if all its coins are,
/// their ancestors are summed, and of their descendants the greatest number counts.
///
/// Each group has an item: its value, in satoshi, is the sum of its coins' values less the fees of their inputs and their
/// prices, its weight, in weight units, the sum of their inputs' weights, and its cost, in satoshi, what their inputs cost at
/// `rate` above what they would cost at `long_term`, and their prices. Groups are in order: value falling, then weight rising,
/// then cost rising, then least outpoint. The items are such as [`pick_problem::Problem::new`] asks for, and no output stands
/// twice in the groups.
///
/// The error is [`PoolFault::TooMany`] where more than 10,000 groups are kept, with their number, or out of memory.
pub fn pool(
    alloc: Global,
    candidates: &[Candidate],
    row: &Row,
    rate: u64,
    long_term: u64,
    group: bool,
) -> Result<RowPool, PoolFault>
    requires candidates { AreCandidates candidates.now }
    requires row { row.now.own ≤ row.now.foreign }
    requires rate { rate ≤ 100_000_000 }
    requires long_term { long_term ≤ 100_000_000 }
    ensures pool { IfOk result (λ p. IsPool group row.now rate long_term candidates.now p) }
    ensures value { IfOk result (λ p. p ≡ pool_of group row.now rate long_term candidates.now) }
    ensures items { IfOk result (λ p. AreItems p.items) }
    ensures groups { IfOk result (λ p. All (IsGroup rate) p.groups) }
    ensures once { IfOk result (λ p. AreOnce candidates.now p.groups) }
    ensures meets { IfOk result (λ p. All (λ g. All (Meets row.now) g) p.groups) }
    ensures few { IfOk result (λ _. (n : ℕ) → CountsKept group row.now rate candidates.now n → n ≤ 10_000) }
    ensures many { IfErr result (λ e. IsPoolFault group row.now rate candidates.now e) }
{
    let groups = Groups::new(alloc, candidates, rate, long_term, group)?;
    let pool = groups.pool(alloc, row)?;
    Ok(pool)
}

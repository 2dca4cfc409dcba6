//! Groups as places in a list of coins.

ghost use Rattle.std.specs.Prelude.{◌≡◌, ◌≤◌, length};
ghost use Rattle.output_groups.specs.Formed.{IsMeasured, keeps_formed};
ghost use Rattle.output_groups.specs.Measures.{IsGroup};
ghost use Rattle.output_groups.specs.Order.{formed_cmp, item_cmp};

use crate::coin_refs::CoinRef;
use crate::measures::{
    ancestors, cost, depth, descendants, is_mine, is_safe, least, value, weight,
};
use crate::rows::{Row, reaches};
use pick_problem::Item;
use std::cmp::Ordering;

/// A group of coins that stand one behind another in a list, and what rows and searches ask of it.
#[derive(Drop)]
pub struct Formed<'a> {
    /// What a search sees of it.
    pub item: Item,
    /// Its coin with the least outpoint.
    pub least: CoinRef<'a>,
    /// How many pending ancestors its coins have, added up.
    pub ancestors: u64,
    /// The least depth of its coins.
    pub depth: u32,
    /// The greatest number of pending descendants of its coins.
    pub descendants: u32,
    /// Where its first coin stands in the list.
    pub start: u32,
    /// How many coins it has.
    pub size: u8,
    /// Whether it has fewer than 100 coins where its script has a full group.
    pub partial: bool,
    /// Whether all its coins are mine.
    pub mine: bool,
    /// Whether all its coins are safe.
    pub safe: bool,
}

/// The group of these coins, the first of which stands at `start`.
pub fn group_of<'a>(
    coins: &[CoinRef<'a>],
    start: u32,
    partial: bool,
    rate: u64,
    long_term: u64,
) -> Formed<'a>
    requires rate { rate ≤ 100_000_000 }
    requires long_term { long_term ≤ 100_000_000 }
    requires group { IsGroup rate coins.now }
    ensures measures { IsMeasured rate long_term coins.now result }
    ensures start { result.start ≡ start }
    ensures size { result.size ≡ length coins.now }
    ensures partial { result.partial ≡ partial }
{
    let item = Item {
        value: value(coins, rate),
        weight: weight(coins),
        cost: cost(coins, rate, long_term),
    };
    Formed {
        item,
        least: CoinRef::new(least(coins)),
        ancestors: ancestors(coins),
        depth: depth(coins),
        descendants: descendants(coins),
        start,
        size: coins.len() as u8,
        partial,
        mine: is_mine(coins),
        safe: is_safe(coins),
    }
}

impl Formed<'_> {
    /// Whether the row keeps it.
    pub fn is_kept(&self, row: &Row) -> bool
        ensures { result ≡ keeps_formed row.now self.now }
    {
        (!self.partial || row.partial)
            && reaches(
                row,
                self.mine,
                self.safe,
                self.depth,
                self.ancestors,
                self.descendants,
            )
    }
}

/// The order of items in a pool: value falling, then weight rising, then cost rising.
fn item_order(a: &Item, b: &Item) -> Ordering
    ensures { result ≡ item_cmp a.now b.now }
{
    b.value
        .cmp(&a.value)
        .then(a.weight.cmp(&b.weight))
        .then(a.cost.cmp(&b.cost))
}

/// The order of groups in a pool: that of their items, and then the least outpoint.
pub fn order(a: &Formed, b: &Formed) -> Ordering
    ensures { result ≡ formed_cmp a.now b.now }
{
    match item_order(&a.item, &b.item) {
        Ordering::Equal => a.least.coin().coin.cmp(&b.least.coin().coin),
        other => other,
    }
}

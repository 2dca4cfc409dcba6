//! The items of a pool.

ghost use Rattle.std.specs.Prelude.{◌↔◌, IsTrue, All, length};
ghost use Rattle.std.specs.List.{AllAdjacentBelow};
ghost use Rattle.pick_problem.specs.Pool.{AreItems, IsInOrder, IsItem};

/// What may be chosen: a group of coins, seen as numbers alone.
#[derive(Clone, Copy, PartialEq, Eq)]
pub struct Item {
    /// What it brings when it is spent, in satoshi.
    pub value: u64,
    /// What its inputs weigh, in weight units.
    pub weight: u64,
    /// What its inputs cost now above what they would cost in the long run, in satoshi; it may be negative.
    pub cost: i64,
}

/// Which selections a search looks for.
#[derive(Clone, Copy, PartialEq, Eq)]
pub enum Kind {
    /// Those that need no change, with the least waste.
    Changeless,
    /// Those that leave enough for change, with the least weight.
    Lean,
}

/// The greatest number of items of a pool.
const MOST_ITEMS: usize = 10_000;

/// Whether the item's numbers are in their ranges.
fn is_item(item: &Item) -> bool
    ensures { IsTrue result ↔ IsItem item.now }
{
    item.value >= 1
        && item.value <= 210_000_000_000_000_000
        && item.weight >= 1
        && item.weight <= 40_000_000
        && item.cost >= -10_000_000_000_000
        && item.cost <= 1_000_000_000_000_000_000
}

/// Whether the first item may stand before the second.
fn is_in_order(a: &Item, b: &Item) -> bool
    ensures { IsTrue result ↔ IsInOrder a.now b.now }
{
    if a.value != b.value {
        a.value > b.value
    } else if a.weight != b.weight {
        a.weight < b.weight
    } else {
        a.cost <= b.cost
    }
}

/// Whether each item's numbers are in their ranges.
fn each_is_item(items: &[Item]) -> bool
    ensures { IsTrue result ↔ All IsItem items.now }
{
    items.iter().all(|item| is_item(item))
}

/// Whether each item may stand before the next.
fn are_in_order(items: &[Item]) -> bool
    ensures { IsTrue result ↔ AllAdjacentBelow IsInOrder items.now (length items.now) }
{
    for next in 1..items.len() {
        if !is_in_order(&items[next - 1], &items[next]) {
            return false;
        }
    }
    true
}

/// Whether the items are a pool: at most 10,000, each value from 1 to 210,000,000,000,000,000 satoshi, each weight
/// from 1 to 40,000,000 weight units, each cost from -10,000,000,000,000 to 1,000,000,000,000,000,000 satoshi, and
/// in order: value falling, then weight rising, then cost rising.
pub fn are_items(items: &[Item]) -> bool
    ensures { IsTrue result ↔ AreItems items.now }
{
    items.len() <= MOST_ITEMS && each_is_item(items) && are_in_order(items)
}

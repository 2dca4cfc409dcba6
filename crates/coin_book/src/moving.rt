//! Coins that wait, and move where a block holds their transaction.

ghost use Rattle.std.specs.Prelude.{◌≡◌, ◌<◌, filter, length, nat_lt, if◌then◌else◌};
ghost use Rattle.std.specs.Map.{keys_of};
ghost use Rattle.coin_book.specs.Merging.{shares, staying, stays};

use crate::held::Held;
use fund_base::{OutPoint, Txid};
use indexmap::{IndexMap, IndexSet};

/// Whether one of the txids has a height.
fn any_known(txids: &IndexSet<Txid>, heights: &IndexMap<Txid, u32>) -> bool
    ensures { result ≡ shares txids.now.keys heights.now.entries }
{
    for txid in heights.keys() {
        if txids.contains(txid) {
            return true;
        }
    }
    false
}

/// How many coins have a txid without a height.
fn count_left(pending: &IndexMap<OutPoint, Held>, heights: &IndexMap<Txid, u32>) -> usize
    ensures { result ≡ length (filter (stays heights.now.entries) (keys_of pending.now.entries)) }
{
    pending
        .keys()
        .filter(|point| !heights.contains_key(&point.txid))
        .count()
}

/// How many coins still wait after a block whose transactions have these heights. They are all looked at only where one
/// of the txids has a height.
pub fn left_of(
    txids: &IndexSet<Txid>,
    pending: &IndexMap<OutPoint, Held>,
    heights: &IndexMap<Txid, u32>,
) -> usize
    ensures { result ≡ (if shares txids.now.keys heights.now.entries then length (filter (stays heights.now.entries) (keys_of pending.now.entries)) else length pending.now.entries) }
{
    if any_known(txids, heights) {
        count_left(pending, heights)
    } else {
        pending.len()
    }
}

/// Removes the coins whose txid has a height, where fewer than there are shall be left.
pub fn settle(pending: &mut IndexMap<OutPoint, Held>, heights: &IndexMap<Txid, u32>, left: usize)
    ensures { pending.new.entries ≡ (if nat_lt left (length pending.old.entries) then staying heights.now.entries pending.old.entries else pending.old.entries) }
{
    if left < pending.len() {
        pending.retain(|point, _| !heights.contains_key(&point.txid));
    }
}

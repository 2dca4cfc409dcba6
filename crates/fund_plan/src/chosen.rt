//! The coins of a result: those of its places, and those that are given.

ghost use Rattle.std.specs.Prelude.{◌≡◌, ◌≤◌, ◌++◌, All, IfOk, OnOk, length, sum};
ghost use Rattle.fund_steps.specs.Selection.{in_order};

use coin_candidates::Candidate;
use fund_base::Memory;
use fund_steps::in_order;
use std::alloc::Global;

/// Appends copies of coins.
fn add(alloc: Global, coins: &mut Vec<Candidate>, more: &[Candidate]) -> Result<(), Memory>
    ensures { OnOk result (coins.new.items ≡ coins.old.items ++ more.now) }
{
    for coin in more {
        let copy = coin.copy(alloc)?;
        coins.push(copy)?;
    }
    Ok(())
}

/// Given coins and chosen ones together, in the order of their outpoints.
pub fn together(
    alloc: Global,
    presets: &[Candidate],
    chosen: &[Candidate],
) -> Result<Vec<Candidate>, Memory>
    ensures { IfOk result (λ v. v.items ≡ in_order (presets.now ++ chosen.now)) }
{
    let mut coins = Candidate::copy_all(alloc, presets)?;
    add(alloc, &mut coins, chosen)?;
    let coins = in_order(alloc, coins)?;
    Ok(coins)
}

/// How many coins there are together, by how many each group has: at most 10,000 groups of at most 100 coins each.
pub fn at_hand(sizes: &[u8]) -> u64
    requires few { length sizes.now ≤ 10_000 }
    requires each { All (λ n. n ≤ 100) sizes.now }
    ensures value { result ≡ sum sizes.now }
    ensures most { result ≤ 1_000_000 }
{
    let mut sum = 0;
    for size in sizes {
        sum += u64::from(*size);
    }
    sum
}

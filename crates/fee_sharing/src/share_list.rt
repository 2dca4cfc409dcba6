//! What each recipient bears of a fee, and what it is left with.

ghost use Rattle.std.specs.Prelude.{◌≡◌, ◌++◌, ◌-◌, ◌<◌, ◌≤◌, IfErr, IfOk, MatchOption, OnOk, length, map, All};
ghost use Rattle.psbt_codec.specs.Fault.{shown};
ghost use Rattle.fee_sharing.specs.Shares.{AllReach, AreLeft, IsFirstShort, IsShareFault, left_of, less_parts, share_of};

use crate::fault::ShareFault;
use fund_base::Memory;
use std::alloc::Global;
use std::marker::Model;

/// What is left of amounts that bore their shares, in satoshi. It is seen as the list of them.
#[derive(Drop)]
pub struct ShareList {
    amounts: Vec<u64>,
}

impl Model for ShareList {
    ghost use Rattle.std.specs.Prelude.{ℕ, List};

    ghost Value = { List ℕ };

    ghost view = { λ l. l.amounts.items };
}

impl ShareList {
    /// The amounts, in the order of those that bore the shares.
    pub fn as_slice(&self) -> &[u64]
        ensures { result.now ≡ self.now }
    {
        self.amounts.as_slice()
    }
}

/// What the recipient at a place bears of a sum that `count` recipients bear.
fn share(borne: u64, count: u64, place: usize) -> u64
    requires { 0 < count }
    ensures value { result ≡ share_of borne count place }
    ensures most { result ≤ borne }
{
    let part = borne / count;
    if place == 0 {
        part + borne % count
    } else {
        part
    }
}

/// The place of the first amount that is below the sum of its share and its dust threshold.
fn first_short(borne: u64, amounts: &[u64], dusts: &[u64]) -> Option<usize>
    requires { length dusts.now ≡ length amounts.now }
    ensures { MatchOption result (AllReach borne amounts.now dusts.now) (IsFirstShort borne amounts.now dusts.now) }
{
    let count = amounts.len() as u64;
    for place in 0..amounts.len() {
        let share = share(borne, count, place);
        let amount = amounts[place];
        if amount < share || amount - share < dusts[place] {
            return Some(place);
        }
    }
    None
}

/// An index as a fault shows it: one that doesn't fit counts as the greatest that does.
fn shown(place: usize) -> u32
    ensures { result ≡ shown place }
{
    place.min(u32::MAX as usize) as u32
}

/// Appends what is left of each of these amounts, which bear an equal part.
fn add_others(left: &mut Vec<u64>, part: u64, others: &[u64]) -> Result<(), Memory>
    ensures { OnOk result (left.new.items ≡ left.old.items ++ map (λ n. n - part) others.now) }
{
    for amount in others {
        left.push(amount.saturating_sub(part))?;
    }
    Ok(())
}

/// What is left of the amounts: the first bears what is left over of the equal parts besides.
fn left(alloc: Global, borne: u64, amounts: &[u64]) -> Result<Vec<u64>, Memory>
    ensures { IfOk result (λ v. v.items ≡ left_of borne amounts.now) }
{
    let mut left = Vec::with_capacity(alloc, amounts.len())?;
    let Some((first, others)) = amounts.split_first() else {
        return Ok(left);
    };
    let count = amounts.len() as u64;
    let part = borne / count;
    left.push(first.saturating_sub(share(borne, count, 0)))?;
    add_others(&mut left, part, others)?;
    Ok(left)
}

/// What is left of these amounts once the recipients bear `borne` satoshi together, in satoshi. Each bears an equal part,
/// rounded down, and the first bears what is left over besides (Bitcoin Core, `subtractFeeFromOutputs`). The lists are of one
/// length, which isn't 0, and a dust threshold is at most 1,000,000 satoshi.
///
/// The error is [`ShareFault::ShareDust`] exactly where an amount is below the sum of its share and its dust threshold, with
/// the index of the first such. [`ShareFault::Memory`] comes only where there is no such amount.
#[tactic(auto, using(crate::proofs::ShareLaws::first_at))]
pub fn shares(
    alloc: Global,
    borne: u64,
    amounts: &[u64],
    dusts: &[u64],
) -> Result<ShareList, ShareFault>
    requires same { length dusts.now ≡ length amounts.now }
    requires some { 0 < length amounts.now }
    requires small { All (λ n. n ≤ 1_000_000) dusts.now }
    ensures value { IfOk result (λ l. l ≡ left_of borne amounts.now) }
    // They lost what is borne, share by share, and each keeps its dust threshold.
    ensures left { IfOk result (AreLeft borne amounts.now dusts.now) }
    ensures reach { OnOk result (AllReach borne amounts.now dusts.now) }
    ensures short { IfErr result (IsShareFault borne amounts.now dusts.now) }
{
    if let Some(place) = first_short(borne, amounts, dusts) {
        return Err(ShareFault::ShareDust(shown(place)));
    }
    let amounts = left(alloc, borne, amounts)?;
    Ok(ShareList { amounts })
}

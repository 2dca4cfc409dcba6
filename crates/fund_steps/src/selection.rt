//! The coins that a request lists, among those that may be spent.

ghost use Rattle.std.specs.Prelude.{◌≡◌, ◌≢◌, ◌&&◌, ◌||◌, None, Some, filter, find, map, not, option_map, IfErr, IfOk, OnOk};
ghost use Rattle.std.specs.BTreeMap.{insert_entry};
ghost use Rattle.indexmap.specs.IndexSet.{contains};
ghost use Rattle.fund_base.specs.Outpoints.{outpoint_cmp, same_outpoint};
ghost use Rattle.coin_candidates.specs.declared.candidate.Candidate.{Candidate};
ghost use Rattle.fund_base.specs.declared.outpoint.OutPoint.{OutPoint};
ghost use Rattle.fund_steps.specs.Listed.{burden_by, is_preset, presets_by};
ghost use Rattle.fund_steps.specs.Selection.{first_missing, has_coin, in_order, is_listed, unlisted};
ghost use Rattle.fund_steps.specs.declared.fault.PlanFault.TheVariants.{Memory as NoMemory, NotEligible};

use crate::bump::BumpInput;
use crate::fault::PlanFault;
use coin_candidates::Candidate;
use fund_base::{Memory, OutPoint};
use indexmap::IndexSet;
use request_text::Request;
use std::alloc::Global;
use std::collections::BTreeMap;

/// The outpoints as a set.
fn set_of(alloc: Global, points: &[OutPoint]) -> Result<IndexSet<OutPoint>, Memory>
    ensures { (q : OutPoint) → IfOk result (λ set. contains same_outpoint set q ≡ is_listed points.now q) }
{
    let mut set = IndexSet::new(alloc);
    for point in points {
        set.insert(*point)?;
    }
    Ok(set)
}

/// The outpoints of coins, in order.
fn points_of(alloc: Global, coins: &[Candidate]) -> Result<Vec<OutPoint>, Memory>
    ensures { IfOk result (λ v. v.items ≡ map (λ (c : Candidate). c.coin) coins.now) }
{
    Ok(coins.iter().map(|coin| coin.coin).collect(alloc)?)
}

/// The outpoints of coins as a set.
fn points_in(alloc: Global, coins: &[Candidate]) -> Result<IndexSet<OutPoint>, Memory>
    ensures { (q : OutPoint) → IfOk result (λ set. contains same_outpoint set q ≡ has_coin coins.now q) }
{
    let points = points_of(alloc, coins)?;
    let set = set_of(alloc, &points)?;
    Ok(set)
}

/// The first of the outpoints that isn't in the set. It takes no memory.
fn missing(there: &IndexSet<OutPoint>, points: &[OutPoint]) -> Option<OutPoint>
    ensures { result ≡ find (λ p. not (contains same_outpoint there.now p)) points.now }
{
    for point in points {
        if !there.contains(point) {
            return Some(*point);
        }
    }
    None
}

/// That each of the outpoints is in the set. Otherwise the fault is the first that isn't. It takes no memory.
fn check_listed(there: &IndexSet<OutPoint>, points: &[OutPoint]) -> Result<(), PlanFault>
    ensures there { OnOk result (find (λ p. not (contains same_outpoint there.now p)) points.now ≡ None) }
    ensures missing { IfErr result (λ e. option_map NotEligible (find (λ p. not (contains same_outpoint there.now p)) points.now) ≡ Some e) }
{
    match missing(there, points) {
        Some(point) => Err(PlanFault::NotEligible(point)),
        None => Ok(()),
    }
}

/// That one of the coins is at each of the outpoints. Otherwise the fault is the first at which none is, or out of memory.
pub fn are_there(alloc: Global, coins: &[Candidate], points: &[OutPoint]) -> Result<(), PlanFault>
    ensures there { OnOk result (first_missing coins.now points.now ≡ None) }
    ensures missing { IfErr result (λ e. e ≢ NoMemory → option_map NotEligible (first_missing coins.now points.now) ≡ Some e) }
{
    let there = points_in(alloc, coins)?;
    match check_listed(&there, points) {
        Ok(()) => Ok(()),
        Err(fault) => Err(fault),
    }
}

/// Puts the coin at its outpoint.
fn put(coins: &mut BTreeMap<OutPoint, Candidate>, coin: Candidate) -> Result<(), Memory>
    ensures { OnOk result (coins.new.entries ≡ insert_entry outpoint_cmp coins.old.entries coin.coin coin) }
{
    coins.insert(coin.coin, coin)?;
    Ok(())
}

/// The coins in the order of their outpoints. Of two of one outpoint the later one is taken. The error is out of memory.
pub fn in_order(alloc: Global, coins: Vec<Candidate>) -> Result<Vec<Candidate>, Memory>
    ensures { IfOk result (λ v. v.items ≡ in_order coins.items) }
{
    let mut ordered = BTreeMap::new(alloc);
    for coin in coins {
        put(&mut ordered, coin)?;
    }
    let coins = ordered.into_values().collect(alloc)?;
    Ok(coins)
}

/// The coins that each payment spends, and what it pays beside its fee.
#[derive(Drop)]
pub struct Given {
    /// The coins, in the order of their outpoints.
    pub presets: Vec<Candidate>,
    /// In satoshi.
    pub burden: u64,
}

/// The coins of a replaced payment and what a replacement pays beside its fee, and where none is replaced the listed coins
/// and nothing.
pub fn presets_and_burden(
    alloc: Global,
    listed: Vec<Candidate>,
    bump: Option<BumpInput>,
) -> Result<Given, Memory>
    ensures presets { IfOk result (λ g. g.presets.items ≡ presets_by bump listed.items) }
    ensures burden { IfOk result (λ g. g.burden ≡ burden_by bump) }
{
    match bump {
        Some(bump) => {
            let BumpInput { presets, burden } = bump;
            let presets = in_order(alloc, presets)?;
            Ok(Given { presets, burden })
        }
        None => Ok(Given {
            presets: listed,
            burden: 0,
        }),
    }
}

/// Whether a candidate is at one of these outpoints, and safe or taken as it is.
fn is_preset(wanted: &IndexSet<OutPoint>, include_unsafe: bool, candidate: &Candidate) -> bool
    ensures { result ≡ (contains same_outpoint wanted.now candidate.now.coin && (candidate.now.safe || include_unsafe)) }
{
    wanted.contains(&candidate.coin) && (candidate.safe || include_unsafe)
}

/// The candidates of a request.
#[derive(Drop)]
pub struct Parted {
    /// Those that it lists and may list, in the order of their outpoints.
    pub listed: Vec<Candidate>,
    /// Those that it doesn't list.
    pub rest: Vec<Candidate>,
}

/// Splits the candidates by what the request lists. Where it lists nothing they stay where they are.
pub fn split(alloc: Global, request: &Request, candidates: Vec<Candidate>) -> Result<Parted, Memory>
    ensures listed { IfOk result (λ s. s.listed.items ≡ in_order (filter (is_preset request.now) candidates.items)) }
    ensures rest { IfOk result (λ s. s.rest.items ≡ unlisted request.now.coins candidates.items) }
{
    if request.coins.is_empty() {
        return Ok(Parted {
            listed: Vec::new(alloc),
            rest: candidates,
        });
    }
    let wanted = set_of(alloc, &request.coins)?;
    let mut chosen = BTreeMap::new(alloc);
    let mut rest = Vec::new(alloc);
    for candidate in candidates {
        if is_preset(&wanted, request.include_unsafe, &candidate) {
            put(&mut chosen, candidate)?;
        } else if !wanted.contains(&candidate.coin) {
            rest.push(candidate)?;
        }
    }
    let listed = chosen.into_values().collect(alloc)?;
    Ok(Parted { listed, rest })
}

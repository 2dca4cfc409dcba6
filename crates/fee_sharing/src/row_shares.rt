//! A payment from a row's coins whose recipients bear the fee.

ghost use Rattle.std.specs.Prelude.{◌≡◌, ◌≤◌, ℕ, All, IfErr, IfOk};
ghost use Rattle.coin_candidates.specs.Candidates.{AreCandidates};
ghost use Rattle.output_groups.specs.PlainGroups.{pool_in};
ghost use Rattle.pick_problem.specs.Pool.{AreItems};
ghost use Rattle.wallet_text.specs.WalletRules.{IsWatch};
ghost use Rattle.fund_steps.specs.Amounts.{AreWithin, value_of};
ghost use Rattle.fund_steps.specs.Making.{KeepsFewOf};
ghost use Rattle.fund_steps.specs.Searches.{sizes_of};
ghost use Rattle.fee_sharing.specs.RowShares.{IsPaidBy, IsShared, IsShareRowFault, KeepsWorth, borne_with, change_with, needed_with};
ghost use Rattle.fee_sharing.specs.Searching.{IsClosed, IsRowSearch, IsSeenFault};

use crate::fault::ShareRowFault;
use crate::row_terms::{problem, row_terms, unpriced_all};
use crate::searching::{section, try_all};
use crate::shared::Shared;
use coin_candidates::Candidate;
use coin_grinder::Grinder;
use fee_rates::{Terms, fee, vsize};
use fund_base::Memory;
use fund_steps::{fees, in_order, paid, value};
use output_groups::{Groups, PoolFault, Row, RowItems};
use pick_problem::{Problem, Progress};
use request_text::Request;
use std::alloc::Global;
use wallet_text::Watch;

/// All of the excess as change, where it is no less than the least change.
fn change_from(least: u64, excess: u64) -> Option<u64>
    ensures { result ≡ change_with least excess }
{
    if excess >= least { Some(excess) } else { None }
}

/// What the recipients bear of the fee, in satoshi: all of it with a change, and without one what the excess doesn't pay.
fn borne_by(
    request: &Request,
    terms: &Terms,
    coins: &[Candidate],
    excess: u64,
    change: Option<u64>,
) -> u64
    requires coins { AreWithin coins.now }
    requires base { terms.now.base ≤ 5_000_000_000 }
    requires fee { terms.now.change_fee ≤ 100_000_000_000_000 }
    ensures { result ≡ borne_with (needed_with request.now terms.now.base coins.now) terms.now.change_fee excess change }
{
    request.keeps_rules();
    let needed = fee(request.rate, vsize(terms.base)) + fees(request.rate, coins);
    match change {
        Some(_) => needed + terms.change_fee,
        None => needed.saturating_sub(excess),
    }
}

/// What a row comes to whose search is done. The error is out of memory.
fn closed(
    alloc: Global,
    request: &Request,
    row: &Row,
    groups: &Groups,
    terms: &Terms,
    problem: &Problem,
    search: &Grinder,
) -> Result<Shared, Memory>
    requires search { IsRowSearch request.now row.now groups.now problem.now search.now }
    requires base { terms.now.base ≤ 5_000_000_000 }
    requires fee { terms.now.change_fee ≤ 100_000_000_000_000 }
    ensures { IfOk result (IsClosed request.now row.now groups.now terms.now problem.now search.now) }
{
    let section = section(alloc, row, problem, search)?;
    let tries = search.tries();
    let Some(places) = search.best() else {
        return Ok(Shared::None { section, tries });
    };
    let chosen = groups.members(alloc, row, places)?;
    let coins = in_order(alloc, chosen)?;
    let excess = value(&coins) - paid(request);
    let change = change_from(terms.change_least, excess);
    let borne = borne_by(request, terms, &coins, excess, change);
    Ok(Shared::Found {
        section,
        coins,
        change,
        borne,
        tries,
    })
}

/// What a search sees of the row's pool.
pub(crate) fn seen(alloc: Global, groups: &Groups, row: &Row) -> Result<RowItems, ShareRowFault>
    ensures items { IfOk result (λ p. p.items.items ≡ (pool_in groups.now row.now).items) }
    ensures sizes { IfOk result (λ p. p.sizes.items ≡ sizes_of (pool_in groups.now row.now).groups) }
    ensures fit { IfOk result (λ p. AreItems p.items.items) }
    ensures small { IfOk result (λ p. All (λ n. n ≤ 100) p.sizes.items) }
    ensures few { IfOk result (λ _. KeepsFewOf groups.now row.now) }
    ensures many { IfErr result (IsSeenFault groups.now row.now) }
{
    match groups.items(alloc, row) {
        Ok(seen) => Ok(seen),
        Err(PoolFault::TooMany(count)) => Err(ShareRowFault::TooMany(count)),
        Err(PoolFault::Memory) => Err(ShareRowFault::Memory),
    }
}

/// The payment from the coins of a row whose recipients bear the fee, after at most `budget` tries.
///
/// The pool is that of the row at rate 0 and without prices, so that a group is worth what its coins are, and no unconfirmed
/// parent is raised to the rate. A selection is to be worth the sum of the amounts, and at least 1 satoshi. It leaves the
/// weight that a change output takes. The lightest one is looked for, and of these the one that is worth least (Bitcoin Core,
/// `CoinGrinder`).
///
/// What it is worth above the amounts is change, exactly where that is no less than the least change that is worth making.
/// With a change the recipients bear the fees of the base, of each input and of the change output. Without one they bear what
/// the excess doesn't pay of the fees of base and inputs (Bitcoin Core, `subtractFeeFromOutputs`). Amounts are in satoshi.
///
/// The candidates are together worth at most [`fund_base::MAX_MONEY`]. The error is [`ShareRowFault::TooMany`] where the row
/// keeps more than 10,000 groups, with their number, or out of memory.
pub fn share_row(
    alloc: Global,
    candidates: &[Candidate],
    request: &Request,
    change: &Watch,
    row: &Row,
    budget: u64,
) -> Result<Shared, ShareRowFault>
    requires candidates { AreCandidates candidates.now }
    requires worth { value_of candidates.now ≤ 2_100_000_000_000_000 }
    requires change { IsWatch change.now }
    requires row { row.now.own ≤ row.now.foreign }
    // What the row comes to: the finished search with its tries, and of an answer the coins, the change, and what is borne.
    ensures shared { IfOk result (IsShared request.now change.now row.now candidates.now budget) }
    // The coins pay for all of it.
    ensures pays { IfOk result (IsPaidBy request.now change.now row.now candidates.now) }
    ensures few { IfOk result (λ _. (n : ℕ) → KeepsWorth request.now row.now candidates.now n → n ≤ 10_000) }
    ensures many { IfErr result (IsShareRowFault request.now row.now candidates.now) }
{
    request.keeps_rules();
    let coins = unpriced_all(alloc, candidates)?;
    let groups = Groups::new(alloc, &coins, 0, request.long_term, request.group)?;
    let seen = seen(alloc, &groups, row)?;
    let terms = row_terms(request, change, &seen.sizes);
    let problem = problem(alloc, request, terms.change_limit, seen.items)?;
    let mut search = Grinder::new(alloc, &problem)?;
    match try_all(&mut search, budget)? {
        Progress::Open => Ok(Shared::Open {
            tries: search.tries(),
        }),
        Progress::Done => {
            let closed = closed(alloc, request, row, &groups, &terms, &problem, &search)?;
            Ok(closed)
        }
    }
}

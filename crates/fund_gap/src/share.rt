//! What is missing where the recipients bear the fee.

ghost use Rattle.std.specs.Prelude.{◌≡◌, IfOk, map};
ghost use Rattle.coin_candidates.specs.Candidates.{AreCandidates};
ghost use Rattle.fee_sharing.specs.RowShares.{unpriced};
ghost use Rattle.fund_gap.specs.Share.{IsShareGap};

use crate::gap::{Gap, gap_from};
use crate::reach::row_reach;
use coin_candidates::Candidate;
use fee_sharing::last_row;
use fund_base::Memory;
use fund_steps::paid;
use output_groups::PoolFault;
use request_text::Request;
use std::alloc::Global;

/// The coin without its price.
fn unpriced(alloc: Global, candidate: &Candidate) -> Result<Candidate, Memory>
    ensures { IfOk result (λ c. c ≡ unpriced candidate.now) }
{
    let mut copy = candidate.copy(alloc)?;
    copy.price = 0;
    Ok(copy)
}

/// The coins without their prices, in order.
fn unpriced_all(alloc: Global, candidates: &[Candidate]) -> Result<Vec<Candidate>, Memory>
    ensures { IfOk result (λ v. v.items ≡ map unpriced candidates.now) }
{
    let mut coins = Vec::with_capacity(alloc, candidates.len())?;
    for candidate in candidates {
        let coin = unpriced(alloc, candidate)?;
        coins.push(coin)?;
    }
    Ok(coins)
}

/// What the coins are worth that may be spent where the recipients of a request bear the fee, what these are asked to get, and what is
/// missing, in satoshi. The coins are those that the last row of the ladder takes; where it keeps more than 10,000 groups of them there are
/// none of these figures. The candidates are at most 100,000, each outpoint once. The error is out of memory.
pub fn share_gap(
    alloc: Global,
    request: &Request,
    candidates: &[Candidate],
) -> Result<Option<Gap>, Memory>
    requires { AreCandidates candidates.now }
    ensures { IfOk result (IsShareGap request.now candidates.now) }
{
    request.keeps_rules();
    let coins = unpriced_all(alloc, candidates)?;
    let row = last_row(request);
    match row_reach(alloc, &coins, row, 0, request.long_term, request.group) {
        Ok(reach) => Ok(Some(gap_from(reach.value, 0, paid(request).max(1)))),
        Err(PoolFault::TooMany(_)) => Ok(None),
        Err(PoolFault::Memory) => Err(Memory),
    }
}

//! What is searched for in a row where the recipients bear the fee.

ghost use Rattle.std.specs.Prelude.{◌≡◌, ◌≤◌, All, IfOk, [], length, map, sum};
ghost use Rattle.fee_rates.specs.Terms.{terms_of};
ghost use Rattle.pick_problem.specs.Pool.{AreItems};
ghost use Rattle.pick_problem.specs.Problem.{IsProblem};
ghost use Rattle.pick_problem.specs.declared.item.Kind.TheVariants as kind;
ghost use Rattle.wallet_text.specs.WalletRules.{IsWatch};
ghost use Rattle.fund_steps.specs.Searches.{load_with};
ghost use Rattle.fund_steps.specs.Terms.{load_of, rates_of};
ghost use Rattle.fee_sharing.specs.RowShares.{least_worth, unpriced};

use coin_candidates::Candidate;
use fee_rates::{PaymentLoad, Terms};
use fund_base::Memory;
use fund_steps::{load, paid, rates};
use pick_problem::{Item, Kind, Problem};
use request_text::Request;
use std::alloc::Global;
use std::rc::Rc;
use wallet_text::Watch;

/// The coin without its price.
fn unpriced(alloc: Global, candidate: &Candidate) -> Result<Candidate, Memory>
    ensures { IfOk result (λ c. c ≡ unpriced candidate.now) }
{
    let mut copy = candidate.copy(alloc)?;
    copy.price = 0;
    Ok(copy)
}

/// The coins without their prices, in order. The error is out of memory.
pub fn unpriced_all(alloc: Global, candidates: &[Candidate]) -> Result<Vec<Candidate>, Memory>
    ensures { IfOk result (λ v. v.items ≡ map unpriced candidates.now) }
{
    let mut coins = Vec::with_capacity(alloc, candidates.len())?;
    for candidate in candidates {
        let coin = unpriced(alloc, candidate)?;
        coins.push(coin)?;
    }
    Ok(coins)
}

/// How many coins there are together, by how many each group has.
fn at_hand(sizes: &[u8]) -> u64
    requires few { length sizes.now ≤ 10_000 }
    requires each { All (λ n. n ≤ 100) sizes.now }
    ensures value { result ≡ sum sizes.now }
    ensures most { result ≤ 1_000_000 }
{
    let mut sum = 0;
    for size in sizes {
        sum += u64::from(*size);
    }
    sum
}

/// The terms of a payment that may spend all coins of a row's pool, by how many each of its groups has.
pub fn row_terms(request: &Request, change: &Watch, sizes: &[u8]) -> Terms
    requires change { IsWatch change.now }
    requires few { length sizes.now ≤ 10_000 }
    requires each { All (λ n. n ≤ 100) sizes.now }
    ensures value { result ≡ terms_of (rates_of request.now) (load_with (load_of request.now change.now [] 0) (sum sizes.now)) }
    ensures base { result.base ≤ 5_000_000_000 }
    ensures fee { result.change_fee ≤ 100_000_000_000_000 }
{
    let load = load(request, change, &[], 0);
    let coins = at_hand(sizes);
    let rates = rates(request);
    Terms::new(
        &rates,
        &PaymentLoad {
            coins: load.coins + coins,
            ..load
        },
    )
}

/// The lightest selection is looked for whose value is what the recipients are asked to get, within a weight.
pub fn problem(
    alloc: Global,
    request: &Request,
    most_weight: u64,
    items: Vec<Item>,
) -> Result<Problem, Memory>
    requires { AreItems items.items }
    ensures fits { IfOk result IsProblem }
    ensures value { IfOk result (λ x. x ≡ record { items = items.items; lo = least_worth request.now; hi = least_worth request.now; most_weight = most_weight; kind = kind.Lean }) }
{
    let least = paid(request).max(1);
    let items = Rc::new(alloc, items)?;
    let problem = Problem::new(items, least, least, most_weight, Kind::Lean);
    // A problem that is made keeps its rules.
    let _ = problem.items();
    Ok(problem)
}

//! The coins that may be spent.

ghost use Rattle.std.specs.Prelude.{◌≡◌, ◌<◌, ◌^◌, IfErr, IfOk};
ghost use Rattle.fund_steps.specs.Amounts.{value_of};
ghost use Rattle.fund_files.specs.Chain.{IsChain};
ghost use Rattle.command_amounts.specs.Coins.{AreCoins, AreTooMuch};

use coin_candidates::Candidate;
use fund_base::MAX_MONEY;
use fund_files::Chain;
use fund_steps::PlanFault;
use request_text::Request;
use std::alloc::Global;

/// What the coins are worth together, in satoshi.
fn total(coins: &[Candidate]) -> u128
    requires { value_of coins.now < 2 ^ 128 }
    ensures { result ≡ value_of coins.now }
{
    coins.iter().map(|coin| u128::from(coin.value)).sum()
}

/// The coins of a wallet that may be spent, with their prices at the request's rate.
///
/// The error is [`PlanFault::Total`] where they are worth more than 21,000,000 bitcoin together, with their worth in satoshi, or
/// out of memory.
pub fn coins_for(
    alloc: Global,
    held: &Chain,
    request: &Request,
) -> Result<Vec<Candidate>, PlanFault>
    requires { IsChain held.now }
    ensures coins { IfOk result (λ v. AreCoins held.now request.now v.items) }
    ensures fault { IfErr result (AreTooMuch held.now request.now) }
{
    request.keeps_rules();
    held.book.keeps_rules();
    let (_, coins) = held.states_and_coins(alloc, request.rate)?;
    let sum = total(&coins);
    if sum > u128::from(MAX_MONEY) {
        return Err(PlanFault::Total(sum));
    }
    Ok(coins)
}

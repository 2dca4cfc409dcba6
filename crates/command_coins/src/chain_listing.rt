//! The listing of a chain.

ghost use Rattle.std.specs.Prelude.{◌≡◌, IfOk, string_bytes};
ghost use Rattle.fund_files.specs.Chain.{IsChain};
ghost use Rattle.command_coins.specs.Outcome.{listing_in};

use crate::text::listing;
use fund_base::Memory;
use fund_files::Chain;
use std::alloc::Global;

/// The listing of the wallet and its chain.
#[tactic(auto, unfolding(crate::specs::Outcome::listing_in))]
pub fn listing_text(alloc: Global, held: &Chain) -> Result<String, Memory>
    requires { IsChain held.now }
    ensures { IfOk result (λ text. string_bytes text ≡ listing_in held.now) }
{
    let (states, coins) = held.states_and_coins(alloc, 0)?;
    listing(
        alloc,
        held.tip.height,
        &held.tip.hash,
        states.payments(),
        &coins,
    )
}

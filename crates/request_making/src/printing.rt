//! Printing amounts and rates.

ghost use Rattle.std.specs.Prelude.{◌≡◌, IfOk, string_bytes};
ghost use Rattle.request_making.specs.Printed.{btc_text, rate_text, sat_text};

use fund_base::Memory;
use std::alloc::Global;

/// An amount in satoshi, as `150000 sat`. It refuses only when out of memory.
#[tactic(auto, unfolding(crate::specs::Printed::sat_text))]
pub fn sat_text(alloc: Global, amount: u64) -> Result<String, Memory>
    ensures { IfOk result (λ text. string_bytes text ≡ sat_text amount) }
{
    Ok(format!(in alloc; "{} sat", amount)?)
}

/// An amount of satoshi in bitcoin, as `0.00150000 BTC`. It refuses only when out of memory.
#[tactic(auto, unfolding(crate::specs::Printed::btc_text))]
pub fn btc_text(alloc: Global, amount: u64) -> Result<String, Memory>
    ensures { IfOk result (λ text. string_bytes text ≡ btc_text amount) }
{
    Ok(format!(in alloc; "{}.{:08} BTC", amount / 100_000_000, amount % 100_000_000)?)
}

/// A rate of satoshi per 1,000 virtual bytes in satoshi per virtual byte, as `12.500 sat/vB`. It refuses only when out
/// of memory.
#[tactic(auto, unfolding(crate::specs::Printed::rate_text))]
pub fn rate_text(alloc: Global, rate: u64) -> Result<String, Memory>
    ensures { IfOk result (λ text. string_bytes text ≡ rate_text rate) }
{
    Ok(format!(in alloc; "{}.{:03} sat/vB", rate / 1_000, rate % 1_000)?)
}

//! What a replacement pays beside the fee of its rate.

ghost use Rattle.std.specs.Prelude.{◌≡◌, ◌≤◌};
ghost use Rattle.coin_candidates.specs.Candidates.{AreCandidates};
ghost use Rattle.fee_rates.specs.Terms.{AreRates, IsLoad, base_of};
ghost use Rattle.fee_bump.specs.Bump.{bare_load, burden_at, least_vsize, weight_of};

use coin_candidates::Candidate;
use fee_rates::{PaymentLoad, Rates, Terms, fee, vsize};
use request_text::{Request, outputs_count, outputs_size};

/// The rate by which a replacement pays for its own size, in satoshi per 1,000 virtual bytes (Bitcoin Core,
/// `DEFAULT_INCREMENTAL_RELAY_FEE`).
pub const INCREMENTAL: u64 = 1000;

/// Rates of nothing, since a weight depends on none.
fn no_rates() -> Rates
    ensures { AreRates result }
{
    Rates {
        rate: 0,
        long_term: 0,
        discard: 0,
        change_target: 0,
    }
}

/// A payment of the request's recipients from so many coins, without what these bring.
fn bare_load(request: &Request, coins: u64) -> PaymentLoad
    ensures value { result ≡ bare_load request.now coins }
    ensures fit { IsLoad result }
{
    PaymentLoad {
        paid: 0,
        outputs: outputs_size(&request.recipients),
        count: outputs_count(&request.recipients),
        coins,
        preset_effective: 0,
        preset_weight: 0,
        has_presets: false,
        burden: 0,
        change_size: 0,
        change_weight: 0,
        change_dust: 0,
    }
}

/// The weight of a payment of the request's recipients from so many coins, without these and without change.
fn base(request: &Request, coins: u64) -> u64
    ensures value { result ≡ base_of (bare_load request.now coins) }
    ensures most { result ≤ 5_000_000_000 }
{
    let rates = no_rates();
    let load = bare_load(request, coins);
    Terms::new(&rates, &load).base
}

/// What the inputs that spend coins are declared to weigh together, in weight units.
fn weight(coins: &[Candidate]) -> u64
    requires { weight_of coins.now ≤ 40_000_000_000 }
    ensures { result ≡ weight_of coins.now }
{
    coins.iter().map(|coin| coin.weight).sum()
}

/// The virtual size of a payment without change from these coins alone.
#[tactic(auto, using(crate::proofs::SizeLaws::weights_within), unfolding(crate::specs::Bump::least_vsize))]
fn least_vsize(request: &Request, presets: &[Candidate]) -> u64
    requires { AreCandidates presets.now }
    ensures value { result ≡ least_vsize request.now presets.now }
    ensures most { result ≤ 20_000_000_000 }
{
    let base = base(request, presets.len() as u64);
    vsize(base + weight(presets))
}

/// What a replacement from these coins pays beside the fee of its rate, where what it replaces pays these fees; in satoshi.
pub fn burden(request: &Request, presets: &[Candidate], fees: u64) -> u64
    requires presets { AreCandidates presets.now }
    requires fees { fees ≤ 210_000_000_000_000_000 }
    ensures value { result ≡ burden_at fees (least_vsize request.now presets.now) request.now.rate }
    ensures most { result ≤ 1_000_000_000_000_000_000 }
{
    request.keeps_rules();
    let size = least_vsize(request, presets);
    let due = fees + fee(INCREMENTAL, size) + 1;
    due.saturating_sub(fee(request.rate, size))
}

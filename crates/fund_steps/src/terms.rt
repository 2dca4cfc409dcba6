//! What a request has to pay for, where its coins are given.

ghost use Rattle.std.specs.Prelude.{◌≡◌, ◌≤◌, ◌≤ℤ◌, pos};
ghost use Rattle.fee_rates.specs.Terms.{AreRates, IsLoad};
ghost use Rattle.request_text.specs.PlainRequest.{paid_to};
ghost use Rattle.wallet_text.specs.WalletRules.{IsWatch};
ghost use Rattle.fund_steps.specs.Amounts.{AreWithin};
ghost use Rattle.fund_steps.specs.Terms.{load_of, rates_of};

use crate::amounts::{effective, weight};
use coin_candidates::Candidate;
use fee_rates::{PaymentLoad, Rates, dust, output_size};
use fund_base::MAX_MONEY;
use request_text::{Request, outputs_count, outputs_size};
use wallet_text::Watch;

/// The rates of a request.
pub fn rates(request: &Request) -> Rates
    ensures value { result ≡ rates_of request.now }
    ensures fit { AreRates result }
{
    request.keeps_rules();
    Rates {
        rate: request.rate,
        long_term: request.long_term,
        discard: request.discard,
        change_target: request.change_target,
    }
}

/// What the recipients get together, in satoshi.
pub fn paid(request: &Request) -> u64
    ensures value { result ≡ paid_to request.now.recipients }
    ensures most { result ≤ MAX_MONEY }
{
    request.keeps_rules();
    request
        .recipients
        .iter()
        .map(|recipient| recipient.amount)
        .sum()
}

/// The payment of a request from coins, beside which none is chosen, as its fee is reckoned. The burden is what it pays
/// beside that fee, in satoshi.
#[tactic(auto, using(crate::proofs::SumLaws::weights_within), unfolding(crate::specs::Terms::load_of))]
pub fn load(request: &Request, change: &Watch, coins: &[Candidate], burden: u64) -> PaymentLoad
    requires change { IsWatch change.now }
    requires coins { AreWithin coins.now }
    requires burden { burden ≤ 1_000_000_000_000_000_000 }
    ensures value { result ≡ load_of request.now change.now coins.now burden }
    ensures fit { IsLoad result }
    ensures worth { result.preset_effective ≤ℤ pos MAX_MONEY }
    // bounds, for those who make steps
    ensures dust { result.change_dust ≤ 31_000 }
    ensures few { result.coins ≤ 100_000 }
{
    request.keeps_rules();
    PaymentLoad {
        paid: paid(request),
        outputs: outputs_size(&request.recipients),
        count: outputs_count(&request.recipients),
        coins: coins.len() as u64,
        preset_effective: effective(request.rate, coins),
        preset_weight: weight(coins),
        has_presets: !coins.is_empty(),
        burden,
        change_size: output_size(&change.script),
        change_weight: change.weight,
        change_dust: dust(&change.script),
    }
}

//! The amounts and weights that a search for coins has to meet.

ghost use Rattle.std.specs.Prelude.{◌≡◌, ◌+◌, ◌≤◌, ◌≤ℤ◌, pos, neg_ℤ};
ghost use Rattle.fee_rates.specs.Terms.{AreRates, IsLoad, TermsAgree, asked_of, base_of, big_of, change_fee_of, change_least_of, change_limit_of, change_spend_of, hi_of, plain_limit_of, raw_of, small_of, target_of, terms_of};

use crate::fees::{fee, input_fee, vsize};
use crate::outputs::compact_len;
use fund_base::MAX_WEIGHT;

/// The greatest target, in satoshi: a greater one counts as this. No coins bring it.
const MOST_TARGET: i128 = 1_000_000_000_000_000_000;

/// The rates of a request, in satoshi per 1,000 virtual bytes, and the change that it aims at.
#[derive(Clone, Copy, PartialEq, Eq)]
pub struct Rates {
    /// The rate at which the payment pays its fee.
    pub rate: u64,
    /// The rate at which coins are expected to be spent in the long run. No term depends on it.
    pub long_term: u64,
    /// The rate at which the change is taken to be spent.
    pub discard: u64,
    /// The change that a payment with change aims at, in satoshi.
    pub change_target: u64,
}

/// What a payment is to carry, before coins are chosen for it.
#[derive(Clone, Copy, PartialEq, Eq)]
pub struct PaymentLoad {
    /// What the recipients get together, in satoshi.
    pub paid: u64,
    /// The sum of the sizes of the recipients' outputs, in bytes. A caller with more than 1,000,000,000 says
    /// 1,000,000,000: no payment is then within its weight.
    pub outputs: u64,
    /// The number of the recipients, the change not counted; more than 1,000,000,000 as with `outputs`.
    pub count: u64,
    /// How many coins the payment could have as inputs at most, presets among them.
    pub coins: u64,
    /// What the presets bring, in satoshi: the sum of their effective values, less their prices. The presets are the inputs that are given and not chosen.
    pub preset_effective: i128,
    /// The sum of the presets' weights, in weight units.
    pub preset_weight: u64,
    /// Whether there are presets.
    pub has_presets: bool,
    /// What a replacement has to pay above the fee of its weight, in satoshi; 0 for a payment that replaces none.
    pub burden: u64,
    /// The size of the change output, in bytes.
    pub change_size: u64,
    /// The weight that an input which spends the change is declared to have, in weight units.
    pub change_weight: u64,
    /// The least amount that the change output may have, in satoshi.
    pub change_dust: u64,
}

/// What a search for coins has to meet. Amounts are effective values in satoshi, weights are in weight units.
#[derive(Clone, Copy, PartialEq, Eq)]
pub struct Terms {
    /// The weight of the payment without its inputs and without change.
    pub base: u64,
    /// What the chosen coins have to bring at least; at most 1,000,000,000,000,000,000, which stands for more.
    pub target: i128,
    /// What they may bring at most if there is no change.
    pub hi: i128,
    /// What they have to bring for the least change: one more than `hi`.
    pub small: i128,
    /// What they have to bring for the change that is aimed at.
    pub big: i128,
    /// The fee of the change output.
    pub change_fee: u64,
    /// The fee of an input that spends the change, at the discard rate.
    pub change_spend: u64,
    /// The least change that is made.
    pub change_least: u64,
    /// What the chosen coins may weigh if there is no change.
    pub plain_limit: u64,
    /// What they may weigh beside a change.
    pub change_limit: u64,
}

/// The weight of a payment without its inputs and without change.
fn base(load: &PaymentLoad) -> u64
    requires outputs { load.now.outputs ≤ 1_000_000_000 }
    requires count { load.now.count ≤ 1_000_000_000 }
    ensures value { result ≡ base_of load.now }
    ensures most { result ≤ 5_000_000_000 }
{
    let inputs_count = if load.coins <= 252 { 1 } else { 3 };
    let outputs_count = compact_len(load.count + 1);
    4 * (4 + inputs_count + outputs_count + load.outputs + 4) + 2
}

/// What coins have to bring, however little it is.
fn raw(rates: &Rates, load: &PaymentLoad) -> i128
    requires rates { AreRates rates.now }
    requires load { IsLoad load.now }
    ensures value { result ≡ raw_of rates.now load.now }
    ensures low { neg_ℤ (pos 1_000_000_000_000_000_000_000) ≤ℤ result }
    ensures high { result ≤ℤ pos 1_002_000_000_000_000_000_000 }
{
    let fee = fee(rates.rate, vsize(base(load)));
    (load.paid + fee + load.burden) as i128 - load.preset_effective
}

/// What coins have to bring, and at least 1 where there are no presets.
fn asked(rates: &Rates, load: &PaymentLoad) -> i128
    requires rates { AreRates rates.now }
    requires load { IsLoad load.now }
    ensures value { result ≡ asked_of rates.now load.now }
    ensures low { neg_ℤ (pos 1_000_000_000_000_000_000_000) ≤ℤ result }
    ensures high { result ≤ℤ pos 1_002_000_000_000_000_000_000 }
{
    let raw = raw(rates, load);
    if load.has_presets { raw } else { raw.max(1) }
}

/// What coins have to bring at least, as it counts.
fn target(rates: &Rates, load: &PaymentLoad) -> i128
    requires rates { AreRates rates.now }
    requires load { IsLoad load.now }
    ensures value { result ≡ target_of rates.now load.now }
    ensures low { neg_ℤ (pos 1_000_000_000_000_000_000_000) ≤ℤ result }
    ensures high { result ≤ℤ pos 1_000_000_000_000_000_000 }
{
    asked(rates, load).min(MOST_TARGET)
}

impl Terms {
    /// The terms of a payment. The rates are at most [`crate::MAX_RATE`], `paid` and `change_target` at most
    /// [`fund_base::MAX_MONEY`], sizes and the count at most 1,000,000,000, the presets' weight at most 40,000,000,000
    /// and that of the change's input at most 400,000, the burden at most 10^18, and the presets' effective value from
    /// -10^21 to 10^21.
    pub fn new(rates: &Rates, load: &PaymentLoad) -> Terms
        requires rates { AreRates rates.now }
        requires load { IsLoad load.now }

        // Each figure is as defined.
        ensures base { result.base ≡ base_of load.now }
        ensures target { result.target ≡ target_of rates.now load.now }
        ensures hi { result.hi ≡ hi_of rates.now load.now }
        ensures small { result.small ≡ small_of rates.now load.now }
        ensures big { result.big ≡ big_of rates.now load.now }
        ensures change_fee { result.change_fee ≡ change_fee_of rates.now load.now }
        ensures change_spend { result.change_spend ≡ change_spend_of rates.now load.now }
        ensures change_least { result.change_least ≡ change_least_of rates.now load.now }
        ensures plain_limit { result.plain_limit ≡ plain_limit_of load.now }
        ensures change_limit { result.change_limit ≡ change_limit_of load.now }
        // So are all together, and they stand to one another as fees do.
        ensures all { result ≡ terms_of rates.now load.now }
        ensures agree { TermsAgree rates.now load.now result }

        // Bounds, for the sums of those who call.
        ensures base_most { result.base ≤ 5_000_000_000 }
        ensures target_low { neg_ℤ (pos 1_000_000_000_000_000_000_000) ≤ℤ result.target }
        ensures target_high { result.target ≤ℤ pos 1_000_000_000_000_000_000 }
        ensures big_high { result.big ≤ℤ pos 1_021_000_000_000_000_000_000 }
        ensures change_fee_most { result.change_fee ≤ 100_000_000_000_000 }
        ensures change_spend_most { result.change_spend ≤ 10_000_000_000 }
        ensures limit_most { result.plain_limit ≤ 400_000 }
    {
        let base = base(load);
        let target = target(rates, load);
        let change_fee = fee(rates.rate, load.change_size);
        let change_spend = input_fee(rates.discard, load.change_weight);
        let change_least = (change_spend + 1).max(load.change_dust);
        let with_change = target + change_fee as i128;
        let small = with_change + change_least as i128;
        let plain_limit = MAX_WEIGHT
            .saturating_sub(base)
            .saturating_sub(load.preset_weight);
        Terms {
            base,
            target,
            hi: small - 1,
            small,
            big: with_change + rates.change_target.max(change_least) as i128,
            change_fee,
            change_spend,
            change_least,
            plain_limit,
            change_limit: plain_limit.saturating_sub(4 * load.change_size),
        }
    }
}

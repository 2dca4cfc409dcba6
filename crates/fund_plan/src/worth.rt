//! What a payment from given coins comes to, by what it is to carry.

ghost use Rattle.std.specs.Prelude.{◌≡◌, ◌≤◌, ◌≤ℤ◌, ◌-ℤ◌, pos, neg_ℤ, unsigned_abs, IfSome};
ghost use Rattle.fee_rates.specs.Terms.{AreRates, IsLoad};
ghost use Rattle.request_text.specs.PlainRequest.{PlainRequest, paid_to};
ghost use Rattle.fund_steps.specs.Amounts.{AreWithin, charges_of, fees_of};
ghost use Rattle.fund_steps.specs.Terms.{rates_of};
ghost use Rattle.fund_plan.specs.Chosen.{change_with, left_with};
ghost use Rattle.fund_plan.specs.Figures.{waste_of};
ghost use Rattle.fund_plan.specs.Pays.{due_of, payment_weight};

use closing_log::Stage;
use coin_candidates::Candidate;
use fee_rates::{MAX_RATE, PaymentLoad, Rates, Terms, fee, vsize};
use fund_base::MAX_MONEY;
use fund_steps::{charges, effective, fees, value, weight};

/// What the inputs of a payment without change have to bring: the outputs, the fee of the base, those of the inputs, the
/// prices of the coins, the burden, and by what the target is raised so that a coin is chosen; in satoshi.
pub fn due(rates: &Rates, load: &PaymentLoad, coins: &[Candidate]) -> u128
    requires rates { AreRates rates.now }
    requires load { IsLoad load.now }
    requires coins { AreWithin coins.now }
    ensures value { result ≡ due_of rates.now.rate load.now coins.now load.now.paid }
    ensures most { result ≤ 220_000_000_000_000_000_000 }
{
    let terms = Terms::new(rates, load);
    let needed = load.paid + fee(rates.rate, vsize(terms.base)) + load.burden;
    let raised = if load.has_presets {
        0
    } else {
        1u64.saturating_sub(needed)
    };
    u128::from(needed + raised) + charges(rates.rate, coins)
}

/// What it costs to spend the coins now and not in the long run, their prices with it, in satoshi.
fn cost(rates: &Rates, coins: &[Candidate]) -> i128
    requires rates { AreRates rates.now }
    requires long_term { rates.now.long_term ≤ MAX_RATE }
    requires coins { AreWithin coins.now }
    ensures value { result ≡ (pos (charges_of rates.now.rate coins.now) -ℤ pos (fees_of rates.now.long_term coins.now)) }
    ensures low { neg_ℤ (pos 1_000_000_000_000_000) ≤ℤ result }
    ensures high { result ≤ℤ pos 210_001_000_000_000_000_000 }
{
    let now = charges(rates.rate, coins);
    let later = fees(rates.long_term, coins);
    now as i128 - i128::from(later)
}

/// The waste of the payment from these coins, in satoshi.
pub fn waste(rates: &Rates, load: &PaymentLoad, coins: &[Candidate], amount: Option<u64>) -> i128
    requires rates { AreRates rates.now }
    requires long_term { rates.now.long_term ≤ MAX_RATE }
    requires load { IsLoad load.now }
    requires coins { AreWithin coins.now }
    ensures { (r : PlainRequest) → rates.now ≡ rates_of r → load.now.paid ≡ paid_to r.recipients → result ≡ waste_of r load.now coins.now amount }
{
    let cost = cost(rates, coins);
    match amount {
        None => cost + (i128::from(value(coins)) - due(rates, load, coins) as i128),
        Some(_) => {
            let terms = Terms::new(rates, load);
            cost + i128::from(terms.change_fee + terms.change_spend)
        }
    }
}

/// The declared weight of the payment from these coins, in weight units.
#[tactic(auto, using(fund_steps::proofs::SumLaws::weights_within))]
pub fn declared_weight(
    rates: &Rates,
    load: &PaymentLoad,
    coins: &[Candidate],
    amount: Option<u64>,
) -> u64
    requires rates { AreRates rates.now }
    requires load { IsLoad load.now }
    requires coins { AreWithin coins.now }
    ensures { result ≡ payment_weight load.now coins.now amount }
{
    let terms = Terms::new(rates, load);
    let plain = terms.base + weight(coins);
    match amount {
        None => plain,
        Some(_) => plain + 4 * load.change_size,
    }
}

/// The size of an amount.
fn size(amount: i128) -> u64
    requires { unsigned_abs amount ≤ MAX_MONEY }
    ensures { result ≡ unsigned_abs amount }
{
    amount.unsigned_abs() as u64
}

/// What coins bring beyond the target and the fee of the change output, in satoshi.
fn left(rates: &Rates, load: &PaymentLoad, coins: &[Candidate]) -> u64
    requires rates { AreRates rates.now }
    requires load { IsLoad load.now }
    requires coins { AreWithin coins.now }
    requires most { left_with rates.now load.now coins.now ≤ MAX_MONEY }
    ensures { result ≡ left_with rates.now load.now coins.now }
{
    let terms = Terms::new(rates, load);
    let effective = effective(rates.rate, coins);
    size(effective - terms.target - i128::from(terms.change_fee))
}

/// The change of a result at a stage: what its coins bring beyond the target and the fee of the change output, and none
/// at the stage without change.
pub fn change(rates: &Rates, load: &PaymentLoad, coins: &[Candidate], stage: Stage) -> Option<u64>
    requires rates { AreRates rates.now }
    requires load { IsLoad load.now }
    requires coins { AreWithin coins.now }
    requires most { IfSome (change_with rates.now load.now coins.now stage) (λ n. n ≤ MAX_MONEY) }
    ensures { result ≡ change_with rates.now load.now coins.now stage }
{
    match stage {
        Stage::Changeless => None,
        Stage::Presets | Stage::LeanBig | Stage::Draw | Stage::LeanSmall | Stage::Wide => {
            Some(left(rates, load, coins))
        }
    }
}

//! Whether a report says what its coins come to.

ghost use Rattle.std.specs.Prelude.{◌≡◌, ◌≤◌, ◌+◌, ◌↔◌, IsTrue};
ghost use Rattle.fee_rates.specs.Terms.{AreRates, IsLoad, change_fee_of, change_least_of};
ghost use Rattle.fund_plan.specs.Pays.{due_of, outputs_of, payment_weight};
ghost use Rattle.fund_steps.specs.Amounts.{AreWithin, value_of};
ghost use Rattle.request_text.specs.PlainRequest.{paid_to};
ghost use Rattle.report_check.specs.Paying.{HasFigures, IsEven, Says};

use crate::names::are_lines;
use crate::shown::are_shown;
use coin_candidates::Candidate;
use fee_rates::{PaymentLoad, Rates, Terms, vsize};
use fund_base::{MAX_MONEY, MAX_WEIGHT};
use fund_plan::{declared_weight, due, waste};
use fund_report::FundedReport;
use fund_steps::{paid, rates, value};
use psbt_codec::Spent;
use request_text::Request;

/// Whether the payment from these coins is within the greatest weight.
fn is_light(rates: &Rates, load: &PaymentLoad, coins: &[Candidate], change: Option<u64>) -> bool
    requires rates { AreRates rates.now }
    requires load { IsLoad load.now }
    requires coins { AreWithin coins.now }
    ensures { IsTrue result ↔ (payment_weight load.now coins.now change ≤ 400_000) }
{
    declared_weight(rates, load, coins, change) <= MAX_WEIGHT
}

/// Whether the coins bring what is due without change, and less than the least change would take.
fn is_plain(rates: &Rates, load: &PaymentLoad, coins: &[Candidate]) -> bool
    requires rates { AreRates rates.now }
    requires load { IsLoad load.now }
    requires coins { AreWithin coins.now }
    ensures { IsTrue result
        ↔ ((due_of rates.now.rate load.now coins.now load.now.paid ≤ value_of coins.now)
        × (value_of coins.now + 1 ≤ due_of rates.now.rate load.now coins.now load.now.paid + change_fee_of rates.now load.now + change_least_of rates.now load.now)) }
{
    let terms = Terms::new(rates, load);
    let inputs = u128::from(value(coins));
    let needed = due(rates, load, coins);
    needed <= inputs
        && inputs < needed + u128::from(terms.change_fee) + u128::from(terms.change_least)
}

/// Whether the coins bring what is due and this change with the fee of its output, and the change is worth making.
fn is_changed(rates: &Rates, load: &PaymentLoad, coins: &[Candidate], amount: u64) -> bool
    requires rates { AreRates rates.now }
    requires load { IsLoad load.now }
    requires coins { AreWithin coins.now }
    ensures { IsTrue result
        ↔ ((change_least_of rates.now load.now ≤ amount)
        × (value_of coins.now ≡ due_of rates.now.rate load.now coins.now load.now.paid + amount + change_fee_of rates.now load.now)) }
{
    let terms = Terms::new(rates, load);
    let inputs = u128::from(value(coins));
    let needed = due(rates, load, coins);
    terms.change_least <= amount
        && inputs == needed + u128::from(amount) + u128::from(terms.change_fee)
}

/// Whether the coins bring what is due with this change, or with none, and the change is worth making; all within the
/// greatest weight of a payment.
fn is_even(request: &Request, load: &PaymentLoad, coins: &[Candidate], change: Option<u64>) -> bool
    requires load { IsLoad load.now }
    requires paid { load.now.paid ≡ paid_to request.now.recipients }
    requires coins { AreWithin coins.now }
    ensures { IsTrue result ↔ IsEven request.now load.now coins.now change }
{
    let rates = rates(request);
    match change {
        None => is_plain(&rates, load, coins) && is_light(&rates, load, coins, None),
        Some(amount) => {
            is_changed(&rates, load, coins, amount) && is_light(&rates, load, coins, Some(amount))
        }
    }
}

/// What the outputs take together, in satoshi.
fn outputs(request: &Request, change: Option<u64>) -> u64
    requires { outputs_of request.now change ≤ MAX_MONEY }
    ensures { result ≡ outputs_of request.now change }
{
    match change {
        None => paid(request),
        Some(amount) => paid(request) + amount,
    }
}

/// Whether weight, size, fee and waste of a report are those of its coins with its change.
fn are_figures(request: &Request, load: &PaymentLoad, f: &FundedReport, coins: &[Candidate]) -> bool
    requires load { IsLoad load.now }
    requires paid { load.now.paid ≡ paid_to request.now.recipients }
    requires coins { AreWithin coins.now }
    requires within { outputs_of request.now f.now.change ≤ value_of coins.now }
    ensures { IsTrue result ↔ HasFigures request.now load.now f.now coins.now }
{
    request.keeps_rules();
    let rates = rates(request);
    let weight = declared_weight(&rates, load, coins, f.change);
    let size = vsize(f.weight);
    let fee = value(coins) - outputs(request, f.change);
    let waste = waste(&rates, load, coins, f.change);
    f.weight == weight && f.vsize == size && f.fee == fee && f.waste == waste
}

/// Whether a report says what these coins come to, and the inputs show them.
pub(crate) fn says(
    request: &Request,
    load: &PaymentLoad,
    f: &FundedReport,
    coins: &[Candidate],
    spent: &[Spent],
) -> bool
    requires load { IsLoad load.now }
    requires paid { load.now.paid ≡ paid_to request.now.recipients }
    requires coins { AreWithin coins.now }
    ensures { IsTrue result ↔ Says request.now load.now f.now coins.now spent.now }
{
    if !is_even(request, load, coins, f.change) {
        return false;
    }
    are_figures(request, load, f, coins) && are_lines(&f.coins, coins) && are_shown(coins, spent)
}

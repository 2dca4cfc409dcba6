//! What a payment comes to.

ghost use Rattle.std.specs.Prelude.{◌≡◌, ◌≤◌, IfSome};
ghost use Rattle.fund_plan.specs.Answer.{IsSelection};
ghost use Rattle.fund_plan.specs.Figures.{figures_of};
ghost use Rattle.fund_plan.specs.Pays.{outputs_of};

use crate::outcome::Funded;
use fee_rates::vsize;
use fund_base::MAX_MONEY;
use fund_steps::{paid, value};
use request_text::Request;

/// What a payment comes to.
#[derive(Clone, Copy, PartialEq, Eq)]
pub struct Figures {
    /// The declared weight of the payment, in weight units: that of its base, of its inputs as the wallet declares them,
    /// and of its change output.
    pub weight: u64,
    /// Its virtual size, in virtual bytes.
    pub vsize: u64,
    /// What its inputs are worth less what its outputs take, in satoshi.
    pub fee: u64,
    /// What it costs to spend its coins now and not in the long run, their prices with it, and beside it the fee of making and of spending the
    /// change or, where there is none, what the coins bring beyond what is needed; in satoshi.
    pub waste: i128,
}

/// What the outputs take together, in satoshi.
fn outputs(request: &Request, amount: Option<u64>) -> u64
    requires { IfSome amount (λ n. n ≤ MAX_MONEY) }
    ensures { result ≡ outputs_of request.now amount }
{
    match amount {
        None => paid(request),
        Some(amount) => paid(request) + amount,
    }
}

impl Figures {
    /// What a payment of the request comes to, as a report gives it: its coins and its change are those of an outcome of
    /// [`crate::Plan::go`].
    pub fn new(request: &Request, funded: &Funded) -> Figures
        requires { IsSelection request.now funded.now }
        ensures { result ≡ figures_of request.now funded.now }
    {
        Figures {
            weight: funded.weight,
            vsize: vsize(funded.weight),
            fee: value(&funded.coins) - outputs(request, funded.change),
            waste: funded.waste,
        }
    }
}

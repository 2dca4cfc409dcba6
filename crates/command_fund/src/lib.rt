//! The command that funds a payment by the method of its request: what its files come to, how it ends, and the law of that.
#![tactic(auto)]

mod command;
mod laws;
mod leaving;

pub use command::fund;
pub use laws::{payments_are_due, payments_pay_for_packages, payments_replace};

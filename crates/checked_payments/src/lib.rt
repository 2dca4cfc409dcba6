//! That `check` accepts what a payment writes whose words were given: its request, its report and its log. It stands above the commands
//! that pay and check, and has a law alone.
#![tactic(auto)]

mod laws;

pub use laws::written_payments_are_accepted;

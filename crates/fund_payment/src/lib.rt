//! What is made of a payment once it is decided on: the PSBT that a signer gets (BIP 174), and the report.
#![tactic(auto)]

mod laws;
mod report;
mod signing;

pub use laws::inputs_show_coins;
pub use report::payment_report;
pub use signing::{coins_have_makers, psbt};

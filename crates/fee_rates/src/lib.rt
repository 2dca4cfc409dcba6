//! Fees, the least amounts that outputs may have, and the amounts and weights that a search for coins
//! has to meet. No call takes memory.
#![tactic(auto)]

mod fees;
mod laws;
mod outputs;
mod terms;

pub use fees::{MAX_RATE, effective, fee, input_fee, vsize};
pub use laws::{fee_of_all, fee_of_parts, fee_rises, fee_splits, output_text_size, terms_meet};
pub use outputs::{dust, is_program, output_size};
pub use terms::{PaymentLoad, Rates, Terms};

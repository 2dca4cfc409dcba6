//! The reports of payments whose amounts aren't the ones that are asked for: of a payment of all coins, and of one whose
//! recipients bear the fee. Each is read back from its text.
#![tactic(auto)]

mod fault;
mod laws;
mod lines;
mod shared;
mod swept;

pub use fault::AmountFault;
pub use laws::texts_have_one_report;
pub use shared::{SharedReport, read_shared};
pub use swept::{SweptReport, read_swept};

//! What the commands share that pay their recipients other amounts than the request asks for: the files that they read, the
//! coins that may be spent, the request with other amounts, the PSBT of such a payment, and lines of its report. Each of those
//! commands stands on this; it knows none of them.
#![tactic(auto)]

mod amounts;
mod coins;
mod lines;
mod reading;
mod signing;

pub use amounts::with_amounts;
pub use coins::coins_for;
pub use lines::{put_coins, put_figures, put_psbt};
pub use reading::read_files;
pub use signing::payment_text;

//! What coins bring toward a payment that no coins pay for, what it needs, and what is missing, in satoshi. It knows no file.
#![tactic(auto)]

mod gap;
mod reach;
mod share;
mod words;

pub use gap::{Gap, fund_gap};
pub use share::share_gap;
pub use words::{GapKind, gap_text};

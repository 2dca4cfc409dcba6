//! What people ask for, and the request file of it.
//!
//! Amounts and rates as people spell them: `150000`, `150000sat`, `0.0015 BTC`, `12.5 sat/vB`. They are read exactly or refused
//! with the first fault and its place, never rounded; and they are printed so that they are read back.
//!
//! The request file's JSON text, written from what people give: an address or a script for each recipient, coins by their
//! words, and settings. The text is read as exactly what was asked, or it is refused exactly where that breaks a rule of
//! requests.
#![tactic(auto)]

mod digits;
mod fault;
mod laws;
mod payment;
mod printing;
mod reading;
mod settings;
mod spelling_laws;
mod unit;
mod writing;

pub use fault::SpellingFault;
pub use laws::reads_made;
pub use payment::{Payee, Payment};
pub use printing::{btc_text, rate_text, sat_text};
pub use reading::{read_amount, read_rate};
pub use settings::Settings;
pub use spelling_laws::{judges_spellings, reads_printed};
pub use unit::Kind;
pub use writing::request_text;

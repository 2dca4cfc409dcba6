//! A payment whose PSBT gets what a keys file tells of it: it is paid as without, its log is written, and then the PSBT with the keys
//! takes the place of the one without, where it is shown and where it is written.
#![tactic(auto)]

mod outcome;
mod paying;

pub use outcome::KeyedEnding;
pub use paying::pay_keyed;

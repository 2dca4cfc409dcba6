//! The command that pays all coins of a wallet to one recipient: from what words ask for to the payment, by the command `sweep`
//! over a request that is made of them; the greatest fee that is taken; and the payment shown to people.
#![tactic(auto)]

mod fees;
mod laws;
mod outcome;
mod run;
mod sweeping;
mod table;

pub use fees::greatest_fee;
pub use laws::{all_coins_go_as_asked, sweeps_are_as_asked};
pub use outcome::Ending;
pub use sweeping::sweep_asked;
pub use table::sweep_table;

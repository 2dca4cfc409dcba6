//! The command that makes a PSBT whole and adds to it what a keys file tells: how the keys of each input and of each own output are
//! derived, and the scripts that a signer needs beside them. What its files come to, and how it ends.
#![tactic(auto)]

mod answer;
mod command;
mod files;
mod keyed;
mod stop;

pub use command::complete_keyed;
pub use stop::Stop;

//! The command that makes a PSBT whole: beside each output that it spends it puts the transaction that has the output, from
//! the wallet's file and the blocks. What its files come to, how it ends, and the laws of that.
#![tactic(auto)]

mod answering;
mod command;
mod fault;
mod files;
mod input;
mod laws;
mod making;
mod psbt;
mod stop;
mod whole_laws;
mod words;

pub use answering::answer;
pub use command::complete;
pub use fault::CompleteFault;
pub use files::completed;
pub use laws::{completed_files_stay, completions_have_one_outcome, refusals_are_told_apart};
pub use making::line_of;
pub use psbt::complete_psbt;
pub use stop::{Refusal, Stop};
pub use whole_laws::{
    completed_psbts_are_one, completed_stay, completions_are_psbts, payments_are_made_whole,
};

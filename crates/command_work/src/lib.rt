//! The command that makes a workload of a number and a count, funds a payment from it, and prints the summary of the run:
//! what that is, how it ends, and the law of that. It reads no file and writes none. A workload is a large valid input: a wallet
//! of up to 10,000 coins drawn by words of ChaCha20, and a request that pays a twentieth of them.
#![tactic(auto)]

mod coin;
mod command;
mod kind;
mod laws;
mod lines;
mod load;
mod load_laws;
mod making;
mod running;
mod summary;

pub use command::work;
pub use laws::{workloads_are_due, workloads_run_as_files};
pub use load::Workload;
pub use load_laws::{
    coins_are_within, keeps_all_but_coins_and_psbt, leaves_the_rest_out, texts_differ,
};
pub use summary::{summarize, write_summary};

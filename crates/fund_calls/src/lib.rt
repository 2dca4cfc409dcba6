//! The commands on bytes alone: the bytes of a wallet, blocks and a request go in, and a status, a report, a log and a packed job
//! come out. No file is touched, and nothing is remembered between two calls.
#![tactic(auto)]

mod answer;
mod called;
mod calls;
mod given;
mod laws;
mod output;
mod words;

pub use answer::Answer;
pub use calls::{
    check_bytes, coins_bytes, fund_bytes, resume_bytes, settle_bytes, share_bytes, sweep_bytes,
    wide_bytes, work_bytes,
};
pub use given::Given;
pub use laws::{calls_are_done, calls_give_the_same};
pub use packed_jobs::PackFault;

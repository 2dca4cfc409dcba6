//! What the commands of a payment share: the files that they read, the plan of their request, how a run of it ends,
//! and the line of what stops them. Each of those commands stands on this; it knows none of them.
#![tactic(auto)]

mod answering;
mod coins;
mod funding;
mod inputs;
mod names;
mod refusal;

pub use answering::{answer, name_of, refuse};
pub use coins::{PlanCoins, plan_coins};
pub use funding::{
    Ending, Left, Texts, conclude, ends, new_plan, none_texts, open_report, paid_texts,
};
pub use inputs::{Inputs, read_inputs, read_inputs_for, read_inputs_with_digest};
pub use names::Payment;
pub use refusal::{Refusal, Stop};

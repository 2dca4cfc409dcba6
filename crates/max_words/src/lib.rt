//! The words of `ninelace pay` in which a recipient gets `max`: all that the listed coins are worth, less their fees and prices and the fee
//! of the base. The amount is found by the files and put into the words; what then holds of `pay` holds of these words.
#![tactic(auto)]

mod amount;
mod asking;
mod fault;
mod filling;
mod sentence;
mod words;

pub use fault::MaxFault;
pub use filling::fill_max;
pub use sentence::{max_place, max_sentence};

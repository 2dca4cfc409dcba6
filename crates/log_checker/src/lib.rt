//! The separate checker of closing logs. It reads a log letter by letter, knows no search, and says whether the log
//! proves that its answer is the best selection of its problem, or, without an answer, that no selection is admissible.
#![tactic(auto)]

mod checker;
mod claim;
mod fault;
mod laws;
mod reading;
mod stepping;
mod testing;

pub use checker::Checker;
pub use fault::LogFault;
pub use laws::{pieces_are_the_whole, sections_are_judged};

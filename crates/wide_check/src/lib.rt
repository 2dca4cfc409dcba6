//! The separate checker of the logs of wide searches. A wide search looks for the least waste without change where a
//! selection may also hold items that aren't needed, since the others reach `lo` without them: where inputs are cheaper
//! now than later, one more can lower the waste. The checker reads a log letter by letter, and uses no code of a search. It
//! says whether the log proves that its answer is the best such selection of its problem, or, without an answer, that there
//! is none.
#![tactic(auto)]

mod best;
mod checker;
mod claim;
mod fault;
mod laws;
mod reading;
mod savings;
mod stepping;
mod testing;
mod token;
mod trees;

pub use best::{met_before_is_an_order, one_wide_best, wide_wastes_no_more};
pub use checker::WideChecker;
pub use fault::WideFault;
pub use laws::{wide_pieces_are_the_whole, wide_sections_are_judged};
pub use savings::Savings;
pub use token::{WideReason, WideToken};
pub use trees::{
    accepted_by_wide_steps, law_of_wide_steps, wide_accepted_is_best, wide_letters_in_pieces,
    wide_letters_stop_once, wide_steps_keep_what_is_known,
};

//! The closing log of a run of searches as a text: what a log holds, its text, and reading it back with the exact
//! place where bytes leave the grammar. The readers of words, numbers, places and digests serve other texts too.
#![tactic(auto)]

mod digesting;
mod fault;
mod laws;
mod lines;
mod log;
mod mark;
mod part;
mod reading;
mod tail;
mod tries;
mod writing;

pub use fault::{LineFault, LogTextFault};
pub use laws::{faults_have_one_place, texts_have_one_log};
pub use lines::{Worded, read_choice, read_digest, read_number, read_places, read_word};
pub use log::{LogText, OpenSection, Section, Stage};
pub use mark::Mark;
pub use reading::read_sections;
pub use tries::tries_in;
pub use writing::{
    text_digest, write_decimal, write_digest, write_places, write_sections, write_tail,
};

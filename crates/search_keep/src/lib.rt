//! A position of a search as a saved text: what is saved, its text, reading it back with the exact place of a fault, and
//! the search of either kind that goes on from it.
#![tactic(auto)]

mod fault;
mod laws;
mod lines;
mod reading;
mod resuming;
mod saved;
mod walk;
mod writing;

pub use fault::SavedFault;
pub use laws::{faults_have_one_place, saved_walks_can_go_on, texts_have_one_position};
pub use reading::read_saved;
pub use resuming::resume;
pub use saved::Saved;
pub use walk::Walk;
pub use writing::write_saved;

//! What a search for coins is asked: a pool of items, what a selection of them has to reach, which selections are
//! admissible, how they score, and which is the best. Then, as definitions with their laws, the closing log that a
//! search leaves, and the walk that it makes. Coins, fees and files are unknown here: a problem is numbers.
#![tactic(auto)]

mod closing;
mod digest;
mod ending;
mod item;
mod laws;
mod order;
mod position;
mod problem;
mod score;
mod standing;
mod steps;
mod sums;
mod tails;
mod token;
mod trying;
mod worked;

pub use closing::{
    accepted_is_best, finished_is_accepted, law_of_steps, positions_stay, steps_keep_what_is_known,
    tries_add_up, walks_are_bounded,
};
pub use ending::{Ending, waste};
pub use item::{Item, Kind, are_items};
pub use laws::{
    before_is_an_order, digest_bytes_tell_problems, lower_scores_are_better, one_best,
    parts_fall_short, windows_hold_admissible_parts,
};
pub use order::before;
pub use position::{Position, Progress, RestoreFault};
pub use problem::Problem;
pub use score::Score;
pub use standing::{positions_are_walks, tries_are_within, tries_do_not_look_back};
pub use steps::{accepted_by_steps, letters_in_pieces, letters_stop_once};
pub use tails::{Tail, Tails, tails_in_words};
pub use token::{Reason, Token};
pub use trying::best_by_trying;
pub use worked::{worked_changeless_walks, worked_lean_walks, worked_walks};

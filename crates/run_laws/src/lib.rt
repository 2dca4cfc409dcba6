//! Where runs over searches and draws stand, in words of these. It has laws alone.
#![tactic(auto)]

mod laws;

pub use laws::{
    all_else_is_searched_for, at_hand_is_of_the_column, enough_tries_end_a_run,
    kept_sections_stand_in_order, runs_stand_from_the_start,
};

//! The draw: the places of a pool are put in an order by a seed, and added one after another, the least valuable of
//! them dropped while they weigh too much, until they reach what is looked for. It knows no coins, fees or files.
#![tactic(auto)]

mod drawing;
mod kept;
mod laws;
mod shuffling;

pub use drawing::draw;
pub use laws::{
    draws_end_at_the_first_time, orders_hold_each_place_once, the_least_valuable_goes_first,
    the_most_valuable_stay,
};
pub use shuffling::order;

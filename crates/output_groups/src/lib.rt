//! What a payment may choose from: the rows of the ladder, the groups that coins form, and the pool of a row, which is
//! the groups that the row takes, in order, each with the item that a search sees of it.
#![tactic(auto)]

mod coin_refs;
mod fault;
mod formed;
mod forming;
mod group;
mod groups;
mod kept;
mod laws;
mod measures;
mod row_pool;
mod rows;

pub use fault::PoolFault;
pub use group::Group;
pub use groups::{Groups, RowItems};
pub use laws::{
    counts_kept, least_stands_first, one_pool, pool_is_one, rows_grow_laxer, rows_take_groups,
    scripts_stand_in_hundreds, values_are_effective,
};
pub use measures::charge;
pub use row_pool::{RowPool, pool};
pub use rows::{Row, ladder, meets};

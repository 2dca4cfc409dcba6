//! Payments whose recipients bear the fee, and payments of all coins to one recipient: what each recipient bears and is
//! left with, which coins of a row of the ladder are spent, and what a sweep leaves. All coins are those of the ladder's last
//! row that are worth more than the fee and the price of their input.
#![tactic(auto)]

mod fault;
mod row_shares;
mod row_terms;
mod searching;
mod share_list;
mod shared;
mod sweeping;
mod swept;
mod weighing;
mod worked;

pub use fault::{ShareFault, ShareRowFault, SweepFault};
pub use row_shares::share_row;
pub use share_list::{ShareList, shares};
pub use shared::Shared;
pub use sweeping::{last_row, sweep, sweep_weight};
pub use swept::Swept;
pub use weighing::share_weight;
pub use worked::worked_shares;

//! Laws of the faults of wallet files and request files: which one a value or an entry gets. It has laws alone.
#![tactic(auto)]

mod entries;
mod requests;
mod values;

pub use entries::{
    tells_change_forms, tells_earlier_forms, tells_lists, tells_pending_forms, tells_script_forms,
};
pub use requests::{requires_a_seed_of_draws, tells_coins, tells_methods, tells_take_from_stop};
pub use values::{objects_have_one_fault, tells_hashes_and_coins, tells_kinds};

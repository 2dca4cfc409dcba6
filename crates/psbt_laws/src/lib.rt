//! What the faults of PSBTs mean, field by field. It has laws alone.
#![tactic(auto)]

mod laws;

pub use laws::{judges_psbt_fields, psbts_have_one_verdict};

//! What the faults of transactions mean, field by field. It has laws alone.
#![tactic(auto)]

mod laws;

pub use laws::{judges_transaction_fields, texts_have_one_verdict};

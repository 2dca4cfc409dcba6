//! A keys file at a shelf: read whole, or refused with its fault line. And what its keys tell, added to the text of a PSBT.
#![tactic(auto)]

mod answer;
mod keyed;
mod keys_file;
mod stop;
mod words;

pub use answer::{refuse_keys, refuse_unkeyed};
pub use keyed::add_keys_to_text;
pub use keys_file::read_keys_file;
pub use stop::KeysStop;

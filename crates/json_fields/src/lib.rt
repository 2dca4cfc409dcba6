//! Looking into the JSON files of Ninelace: objects with known members, numbers, hex, txids, coins, and lists, each
//! read exactly or refused with the first fault. A reader that has rules of its own holds a [`FieldFault`] in one
//! variant of its own fault, and converts by `From`.
#![tactic(auto)]

mod fault;
mod field;
mod hex_text;
mod laws;
mod number;
mod object;
mod tree;

pub use fault::{FieldFault, MemberName, Name};
pub use field::{coin_of, flag_of, hash_of, number_of, text_of, txid_of};
pub use hex_text::{HexText, hex_of, hex_text_of};
pub use laws::{
    reads_coins, reads_hashes, reads_hex, reads_last_values, reads_lists, reads_numbers,
    reads_objects,
};
pub use object::{member_of, object_of};
pub use tree::{items_in, member_in, parse, str_in};

//! The plain types that every crate of Ninelace speaks in, the one reader and writer of bytes that its
//! codecs share, and decimal numbers.
#![tactic(auto)]

mod comparing;
mod cursor;
mod decimal;
mod judging;
mod limits;
mod memory;
mod money;
mod outpoint;
mod places;
mod script;
mod writer;

pub use comparing::compare_outpoints;
pub use cursor::{Cursor, CutFault, are_bytes};
pub use decimal::{read_decimal, reads_decimals};
pub use judging::judges_compact;
pub use limits::{MAX_WEIGHT, MOST_TRIES};
pub use memory::Memory;
pub use money::{MAX_MONEY, Sat};
pub use outpoint::{OutPoint, Txid};
pub use places::Places;
pub use script::Script;
pub use writer::{Length, Writer, write_compact, write_prefixed};

//! The outside: files that are read and written, and a place where text is put; whole files read and whole
//! texts put, piece by piece.
#![tactic(auto)]

mod failures;
mod file_shelf;
mod mem_shelf;
mod mem_sink;
mod pieces;
mod shelf;
mod sink;
mod std_sink;
mod store;
mod sure_shelf;
mod sure_sink;
mod system;

pub use failures::Failures;
pub use file_shelf::FileShelf;
pub use mem_shelf::MemShelf;
pub use mem_sink::MemSink;
pub use pieces::{Front, PIECE, ReadError, put_all, read_front, read_whole};
pub use shelf::{Fault, Shelf};
pub use sink::Sink;
pub use std_sink::StdSink;
pub use sure_shelf::SureShelf;
pub use sure_sink::SureSink;

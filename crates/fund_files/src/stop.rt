//! Why the reading of files stops.

use crate::refusal::{File, FileRefusal};

/// Why the reading of files stops.
#[derive(Drop)]
pub enum Stop {
    /// A read of the file failed.
    Read(File),
    /// A file is refused.
    Refused(FileRefusal),
    /// There was not enough memory.
    Memory,
}

//! The new files, and why they aren't written.

/// A new file that is asked for. They are written in this order.
#[derive(Clone, Copy, PartialEq, Eq)]
pub enum NewFile {
    /// That of the request.
    Request,
    /// That of the log.
    Log,
    /// That of the report.
    Report,
    /// That of the PSBT.
    Psbt,
}

/// Why the new files aren't all written.
#[derive(Clone, Copy)]
pub enum PutFault {
    /// The writing of this one failed, once those before it were written.
    Unwritten(NewFile),
    /// There was not enough memory.
    Memory,
}

//! How long the parts of an answer are.

/// How long the parts of an answer are, in bytes. They stand one after the other at the front of the caller's buffer, in this
/// order.
#[derive(Clone, Copy)]
#[repr(C)]
pub struct NinelaceSizes {
    /// What was printed: a report, a listing, a summary or a fault line.
    pub printed: usize,
    /// The log.
    pub log: usize,
    /// The packed job.
    pub job: usize,
}

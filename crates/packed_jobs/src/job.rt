//! A job by itself.

/// A kept job, without its name.
#[derive(Drop)]
pub struct Job {
    /// Its saved text.
    pub saved: Vec<u8>,
    /// The parts of its log, in order.
    pub parts: Vec<Vec<u8>>,
}

//! The names of the files of a payment.

/// The names of the files of a payment.
#[derive(Clone, Copy)]
pub struct Payment<'a> {
    /// The request file.
    pub request: &'a str,
    /// The file that is written.
    pub log: &'a str,
}

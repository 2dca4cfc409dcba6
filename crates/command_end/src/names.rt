//! The names of files.

/// The names of the files from which the coins are told.
#[derive(Clone, Copy)]
pub struct Sources<'a> {
    /// The wallet file.
    pub wallet: &'a str,
    /// The block file.
    pub blocks: &'a str,
}

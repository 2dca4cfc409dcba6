//! Where a try leads.

/// The next place, and whether the walk is done.
#[derive(Clone, Copy)]
pub(crate) struct Stop {
    pub(crate) next: u32,
    pub(crate) done: bool,
}

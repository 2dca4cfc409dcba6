//! What a run comes to.

use crate::found::Found;

/// What a run comes to, as far as its tries led.
#[derive(Drop)]
pub enum End {
    /// It came to its end: the result that was taken, or `None` where no step has one.
    Ended(Option<Found>),
    /// A step is left, and a result of its column was taken for want of tries.
    Partial(Found),
    /// A step is left, and nothing was taken.
    Unfinished,
}

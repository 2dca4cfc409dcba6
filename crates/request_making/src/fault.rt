//! Why a text is no amount and no rate.

/// Why a text is no amount or no rate. A place counts the bytes of the text from 0.
#[derive(Clone, Copy, PartialEq, Eq)]
pub enum SpellingFault {
    /// A digit has to stand at this place: at the beginning, or right behind the point.
    Digit(usize),
    /// What stands from this place on is no unit that is known here.
    Unit(usize),
    /// The digit at this place is behind the last that the unit has parts for.
    Fine(usize),
    /// The number is above the greatest that is taken.
    Range,
}

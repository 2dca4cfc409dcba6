//! What a payment's coins promise.

use crate::lines::Worded;

/// How the coins of a payment were found, and so what they promise.
#[derive(Clone, Copy, PartialEq, Eq)]
pub enum Mark {
    /// By a search that came to its end: none of what may be chosen has a lesser measure.
    Exhausted,
    /// By a run that ended before the last of its searches did: something better may be left.
    Partial,
    /// By a draw, as a seed orders the coins.
    Drawn,
    /// They were given: a request lists them, or they are spent in any case.
    Given,
}

/// The mark's word, as in `exhausted`.
impl Worded for Mark {
    ghost use Rattle.closing_log.specs.MarkWord.{mark_word};

    ghost text = { mark_word };

    fn word(self) -> &'static str {
        match self {
            Mark::Exhausted => "exhausted",
            Mark::Partial => "partial",
            Mark::Drawn => "drawn",
            Mark::Given => "given",
        }
    }
}

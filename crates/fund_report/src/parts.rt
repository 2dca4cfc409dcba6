//! The parts of a report's text.

ghost use Rattle.std.specs.Prelude.{◌≡◌};

use closing_log::{Mark, Stage, Worded};

/// What the lines before the coins say.
#[derive(Clone, Copy)]
pub(crate) struct Start {
    pub(crate) mark: Mark,
    pub(crate) row: u8,
    pub(crate) stage: Stage,
    pub(crate) tries: u64,
}

/// What the payment comes to.
#[derive(Clone, Copy)]
pub(crate) struct Figures {
    pub(crate) weight: u64,
    pub(crate) vsize: u64,
    pub(crate) fee: u64,
    pub(crate) waste: i128,
}

/// Which line stands after the line of a coin: another one of a coin, or that of the weight.
#[derive(Clone, Copy)]
pub(crate) enum Next {
    Coin,
    Weight,
}

impl Worded for Next {
    ghost use Rattle.fund_report.specs.NextWord.{next_word};

    ghost text = { next_word };

    fn word(self) -> &'static str {
        match self {
            Next::Coin => "in ",
            Next::Weight => "weight ",
        }
    }
}

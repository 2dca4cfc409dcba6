//! The parts of a log's text.

ghost use Rattle.std.specs.Prelude.{◌≡◌};

use crate::lines::Worded;
use crate::log::{OpenSection, Section, Stage};

/// What a section's first line says.
#[derive(Clone, Copy)]
pub(crate) struct Head {
    pub(crate) row: u8,
    pub(crate) stage: Stage,
    pub(crate) digest: [u8; 32],
}

/// What stands at the beginning of a part: the last line, or a section's first word.
#[derive(Clone, Copy)]
pub(crate) enum Lead {
    Ends,
    Begins,
}

impl Worded for Lead {
    ghost use Rattle.closing_log.specs.Reading.{lead_word};

    ghost text = { lead_word };

    fn word(self) -> &'static str {
        match self {
            Lead::Ends => "end\n",
            Lead::Begins => "section ",
        }
    }
}

/// A part: the last line, an open section with which the text ends, or the three lines of a section.
#[derive(Drop)]
pub(crate) enum Part {
    End,
    Open(OpenSection),
    Closed(Section),
}

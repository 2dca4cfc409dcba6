//! What is saved of a job beside its log.

use closing_log::{Stage, Worded};
use fund_base::Places;
use std::marker::Model;

/// The versions of a saved text. The second has a digest of the log.
#[derive(Clone, Copy, PartialEq, Eq)]
pub(crate) enum Version {
    First,
    Second,
}

/// The number of the version.
impl Worded for Version {
    ghost use Rattle.search_keep.specs.SavedText.{version_word};

    ghost text = { version_word };

    fn word(self) -> &'static str {
        match self {
            Version::First => "1",
            Version::Second => "2",
        }
    }
}

/// Where a job stands: at a search that goes on.
#[derive(Drop)]
pub struct Saved {
    /// The digest of the job.
    pub job: [u8; 32],
    /// The tries of all its searches so far.
    pub tries: u64,
    /// The row of the ladder.
    pub row: u8,
    /// The stage of that row.
    pub stage: Stage,
    /// The places that the search has chosen.
    pub chosen: Places,
    /// Its next place.
    pub next: u32,
    /// The best selection that it met so far.
    pub best: Option<Places>,
    /// In how many parts the log is kept.
    pub parts: u32,
    /// The SHA-256 of these parts joined. The first version of the text doesn't have it.
    pub log: Option<[u8; 32]>,
}

impl Model for Saved {
    ghost use Rattle.search_keep.specs.SavedText.{PlainSaved};

    ghost Value = { PlainSaved };

    ghost view = { λ s. record { job = s.job; tries = s.tries; row = s.row; stage = s.stage; chosen = s.chosen; next = s.next; best = s.best; parts = s.parts; log = s.log } };
}

//! What a log holds: the searches of a run in order, each with its closing tree and its answer.

use crate::lines::Worded;
use fund_base::Places;
use std::marker::Model;

/// A stage of a request: by the presets alone, one of the searches, the draw, or the wide search.
#[derive(Clone, Copy, PartialEq, Eq)]
pub enum Stage {
    Presets,
    Changeless,
    LeanBig,
    Draw,
    LeanSmall,
    /// A log's text has no section of it.
    Wide,
}

/// The stage's word, as in `lean-big`.
impl Worded for Stage {
    ghost use Rattle.closing_log.specs.LogText.{stage_word};

    ghost text = { stage_word };

    fn word(self) -> &'static str {
        match self {
            Stage::Presets => "presets",
            Stage::Changeless => "changeless",
            Stage::LeanBig => "lean-big",
            Stage::Draw => "draw",
            Stage::LeanSmall => "lean-small",
            Stage::Wide => "wide",
        }
    }
}

/// A search that came to its end.
#[derive(Drop)]
pub struct Section {
    /// The row of the ladder.
    pub row: u8,
    /// Which search of that row.
    pub stage: Stage,
    /// The digest of the search's problem.
    pub digest: [u8; 32],
    /// The letters of its closing tree, in preorder.
    pub tokens: Vec<u8>,
    /// The places that it chose, or none.
    pub answer: Option<Places>,
}

impl Model for Section {
    ghost use Rattle.closing_log.specs.Log.{PlainSection};

    ghost Value = { PlainSection };

    ghost view = { λ s. record { row = s.row; stage = s.stage; digest = s.digest; letters = s.tokens.items; answer = s.answer } };
}

/// A search that goes on.
#[derive(Drop)]
pub struct OpenSection {
    /// The row of the ladder.
    pub row: u8,
    /// Which search of that row.
    pub stage: Stage,
    /// The digest of the search's problem.
    pub digest: [u8; 32],
    /// The letters that it has written so far.
    pub tokens: Vec<u8>,
}

impl Model for OpenSection {
    ghost use Rattle.closing_log.specs.Log.{PlainOpen};

    ghost Value = { PlainOpen };

    ghost view = { λ s. record { row = s.row; stage = s.stage; digest = s.digest; letters = s.tokens.items } };
}

/// The searches of a run, in order. A log that isn't ended has one that goes on.
#[derive(Drop)]
pub struct LogText {
    /// The searches that came to their ends.
    pub closed: Vec<Section>,
    /// The search that goes on.
    pub tail: Option<OpenSection>,
    /// Whether the run came to its end.
    pub ended: bool,
}

impl Model for LogText {
    ghost use Rattle.closing_log.specs.Log.{PlainLog};

    ghost Value = { PlainLog };

    ghost view = { λ t. record { closed = t.closed.items; tail = t.tail; ended = t.ended } };
}

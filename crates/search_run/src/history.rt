//! What a run leaves after it.

ghost use Rattle.std.specs.Prelude.{◌≡◌, ◌++◌, ◌∷◌, ◌<◌, ◌≤◌, [], List, OnErr, OnOk, drop, length, option_to_list, if◌then◌else◌};
ghost use Rattle.search_run.specs.Run.{ends};
ghost use Rattle.search_run.specs.Step.{PlainStep};

use crate::found::Found;
use crate::step::Step;
use closing_log::Section;
use fund_base::Memory;
use std::marker::Model;

/// The results of the column that a run is in, the finished searches, and the tries made.
pub(crate) struct History {
    pub(crate) found: Vec<Found>,
    pub(crate) closed: Vec<Section>,
    pub(crate) tries: u64,
}

/// One call, wherever it is dropped.
impl Drop for History {
    fn drop(self) {
        let History {
            found: _,
            closed: _,
            tries: _,
        } = self;
    }
}

impl Model for History {
    ghost use Rattle.search_run.specs.Run.{Past};

    ghost Value = { Past };

    ghost view = { λ t. record { found = t.found.items; closed = t.closed.items; tries = t.tries } };
}

impl History {
    /// Puts a result and a finished search after the others. The error is out of memory: then neither is there.
    pub(crate) fn put(
        &mut self,
        found: Option<Found>,
        section: Option<Section>,
    ) -> Result<(), Memory>
        ensures ok { OnOk result (self.new ≡ record {
          found = self.old.found ++ option_to_list found;
          closed = self.old.closed ++ option_to_list section;
          tries = self.old.tries;
        }) }
        ensures err { OnErr result (self.new ≡ self.old) }
    {
        self.found.reserve(1)?;
        self.closed.reserve(1)?;
        match found {
            None => {}
            Some(found) => {
                let _ = self.found.push(found);
            }
        }
        match section {
            None => {}
            Some(section) => {
                let _ = self.closed.push(section);
            }
        }
        Ok(())
    }
}

/// The place of the step after this one: where this is the last of its column and the column has a result, none is
/// left.
pub(crate) fn next(steps: &[Step], at: usize, found: &[Found]) -> usize
    requires { at < length steps.now }
    ensures within { result ≤ length steps.now }
    ensures left { (x : PlainStep) (rest : List PlainStep) → drop at steps.now ≡ x ∷ rest →
        drop result steps.now ≡ (if ends x found.now then [] else rest) }
{
    if steps[at].is_last() && !found.is_empty() {
        return steps.len();
    }
    at + 1
}

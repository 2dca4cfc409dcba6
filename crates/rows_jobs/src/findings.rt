//! What a keeper holds after a stop, held against what is to be kept.

use crate::saves::{held, put_line, say};
use crate::tables::Step;
use fund_outside::{KeepFault, Keeper};
use row_columns::Answer;
use std::alloc::Global;

/// What is to be kept of the job `a` before a save of it and after it, and of the job `b`.
#[derive(Drop)]
pub(crate) struct Due {
    pub(crate) before: Vec<u8>,
    pub(crate) after: Vec<u8>,
    pub(crate) other: Vec<u8>,
}

/// What a keeper is found to hold. Where the job is neither as before nor as after it is something else, or the files are
/// refused.
#[derive(Drop)]
pub(crate) struct Found {
    pub(crate) is_before: bool,
    pub(crate) is_after: bool,
    pub(crate) is_other_same: bool,
}

impl Found {
    /// Nothing that is due.
    pub(crate) fn nothing() -> Found {
        Found {
            is_before: false,
            is_after: false,
            is_other_same: false,
        }
    }

    /// The word of what is kept of the job that was saved.
    pub(crate) fn word(&self) -> &'static str {
        if self.is_before {
            "before"
        } else if self.is_after {
            "after"
        } else {
            "neither"
        }
    }
}

/// What a keeper holds of the job `a`, which was saved, and of the job `b`.
pub(crate) fn judge<K: Keeper>(
    alloc: Global,
    keeper: &mut K,
    due: &Due,
) -> Result<Found, KeepFault> {
    let job = held(alloc, keeper, &["a"])?;
    let other = held(alloc, keeper, &["b"])?;
    let is_before = job == due.before;
    Ok(Found {
        is_before,
        is_after: !is_before && job == due.after,
        is_other_same: other == due.other,
    })
}

/// What the stops of a case were found to leave.
#[derive(Drop)]
pub(crate) struct Findings {
    /// Each leaves it as before the save or as after it.
    is_one_of_two: bool,
    /// A stop before the save leaves it as before.
    is_early_before: bool,
    /// A stop after the save was answered leaves it as after.
    is_late_after: bool,
    /// Each leaves the other job as it was.
    is_other_same: bool,
}

impl Findings {
    /// Those of no stop.
    pub(crate) fn new() -> Findings {
        Findings {
            is_one_of_two: true,
            is_early_before: true,
            is_late_after: true,
            is_other_same: true,
        }
    }

    /// Takes in what was found after a stop at a step.
    pub(crate) fn add(&mut self, step: &Step, found: &Found) {
        self.is_one_of_two = self.is_one_of_two && (found.is_before || found.is_after);
        self.is_other_same = self.is_other_same && found.is_other_same;
        match step {
            Step::Open => self.is_early_before = self.is_early_before && found.is_before,
            Step::Save => {}
            Step::Close | Step::Done => self.is_late_after = self.is_late_after && found.is_after,
        }
    }

    /// Puts them.
    pub(crate) fn put(&self, out: &mut Answer) {
        put_line(out, "as before or as after", say(self.is_one_of_two));
        let early = say(self.is_early_before);
        put_line(out, "as before, stopped before the save", early);
        let late = say(self.is_late_after);
        put_line(out, "as after, stopped after the save", late);
        put_line(out, "the other job as it was", say(self.is_other_same));
    }
}

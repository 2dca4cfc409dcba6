//! How many tries a log tells of.

ghost use Rattle.std.specs.Prelude.{◌≡◌, ◌↔◌, IsTrue};
ghost use Rattle.report_check.specs.Proved.{tries_in};

use closing_log::{Section, tries_in};

/// Whether the letters of all sections tell of so many tries.
pub(crate) fn are_tries(sections: &[Section], tries: u64) -> bool
    ensures { IsTrue result ↔ (tries ≡ tries_in sections.now) }
{
    let mut left = tries;
    for section in sections {
        match left.checked_sub(tries_in(&section.tokens)) {
            Some(rest) => left = rest,
            None => return false,
        }
    }
    left == 0
}

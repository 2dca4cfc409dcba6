//! The rows of the ladder.

ghost use Rattle.std.specs.Prelude.{◌≡◌, ◌≤◌, ◌↔◌, IsTrue, All};
ghost use Rattle.output_groups.specs.Ladder.{ladder_of, reaches, Meets};

use coin_candidates::Candidate;

/// Which groups of coins may be used. The rows are tried one after another, each laxer than those before it. They and
/// their numbers are this project's own, in the manner of Bitcoin Core's eligibility filters
/// (`CoinEligibilityFilter`).
#[derive(Clone, Copy, PartialEq, Eq)]
pub struct Row {
    /// Its number, from 1.
    pub number: u8,
    /// The least depth, in blocks, of a group whose coins are all mine.
    pub own: u32,
    /// The least depth, in blocks, of any other group.
    pub foreign: u32,
    /// The greatest number of pending ancestors of a group.
    pub ancestors: u64,
    /// The greatest number of pending descendants of a group.
    pub descendants: u64,
    /// Whether a partial group may be used: one of fewer than 100 coins, whose script has a full group.
    pub partial: bool,
    /// Whether a group may be used that has an unsafe coin.
    pub unsafe_too: bool,
}

/// The seven rows.
static ROWS: [Row; 7] = [
    Row {
        number: 1,
        own: 1,
        foreign: 6,
        ancestors: 0,
        descendants: 0,
        partial: false,
        unsafe_too: false,
    },
    Row {
        number: 2,
        own: 1,
        foreign: 1,
        ancestors: 0,
        descendants: 0,
        partial: false,
        unsafe_too: false,
    },
    Row {
        number: 3,
        own: 0,
        foreign: 1,
        ancestors: 2,
        descendants: 2,
        partial: false,
        unsafe_too: false,
    },
    Row {
        number: 4,
        own: 0,
        foreign: 1,
        ancestors: 4,
        descendants: 4,
        partial: false,
        unsafe_too: false,
    },
    Row {
        number: 5,
        own: 0,
        foreign: 1,
        ancestors: 12,
        descendants: 12,
        partial: false,
        unsafe_too: false,
    },
    Row {
        number: 6,
        own: 0,
        foreign: 1,
        ancestors: 24,
        descendants: 24,
        partial: true,
        unsafe_too: false,
    },
    Row {
        number: 7,
        own: 0,
        foreign: 0,
        ancestors: 24,
        descendants: 24,
        partial: true,
        unsafe_too: true,
    },
];

/// The rows of a request, in the order in which they are tried: rows 1 and 2; with `zero_conf` rows 1 to 6, and with
/// `include_unsafe` beside it row 7 too.
pub fn ladder(zero_conf: bool, include_unsafe: bool) -> &'static [Row]
    ensures rows { result.now ≡ ladder_of zero_conf include_unsafe }
    ensures own { All (λ r. r.own ≤ r.foreign) result.now }
{
    if !zero_conf {
        &ROWS[..2]
    } else if include_unsafe {
        &ROWS[..]
    } else {
        &ROWS[..6]
    }
}

/// Whether the numbers of a coin or of a group are within the row: how deep it is, how many pending ancestors and
/// descendants it has, and whether it is safe.
pub(crate) fn reaches(
    row: &Row,
    mine: bool,
    safe: bool,
    depth: u32,
    ancestors: u64,
    descendants: u32,
) -> bool
    ensures { result ≡ reaches row.now mine safe depth ancestors descendants }
{
    let least = if mine { row.own } else { row.foreign };
    least <= depth
        && ancestors <= row.ancestors
        && descendants as u64 <= row.descendants
        && (safe || row.unsafe_too)
}

/// Whether the coin by itself is within the row's numbers.
pub fn meets(row: &Row, candidate: &Candidate) -> bool
    ensures meaning { IsTrue result ↔ Meets row.now candidate.now }
    ensures numbers { result ≡ reaches row.now candidate.now.mine candidate.now.safe candidate.now.depth candidate.now.ancestors candidate.now.descendants }
{
    reaches(
        row,
        candidate.mine,
        candidate.safe,
        candidate.depth,
        candidate.ancestors as u64,
        candidate.descendants,
    )
}

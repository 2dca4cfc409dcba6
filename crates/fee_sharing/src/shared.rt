//! What a row comes to where the recipients bear the fee.

use closing_log::Section;
use coin_candidates::Candidate;

/// What a row comes to where the recipients bear the fee.
#[derive(Drop)]
pub enum Shared {
    /// The search is done, and no groups of the row reach the amounts within the weight.
    None {
        /// The finished search, for the log.
        section: Section,
        /// The tries that it made.
        tries: u64,
    },
    /// The search is done, and found coins.
    Found {
        /// The finished search, for the log.
        section: Section,
        /// The coins that are spent, in the order of their outpoints and without their prices.
        coins: Vec<Candidate>,
        /// The change in satoshi, if there is any.
        change: Option<u64>,
        /// What the recipients bear together, in satoshi.
        borne: u64,
        /// The tries that the search made.
        tries: u64,
    },
    /// The budget is used up, and the search isn't done.
    Open {
        /// The tries that it made.
        tries: u64,
    },
}

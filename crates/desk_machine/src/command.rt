//! What a desk is told to do.

use fund_base::Txid;

/// A command. A name is 1 to 32 of the characters A to Z, a to z, 0 to 9 and `-`.
#[derive(Drop)]
pub enum Command {
    /// Opens a job of this name for the request that a file of these bytes asks for.
    Open { name: String, request: Vec<u8> },
    /// Goes on with the job of this name by so many tries, 1 to 10,000,000. They take the place of the request's.
    Turn { name: String, tries: u64 },
    /// Commits the payment that the job of this name came to, and closes the job.
    Commit { name: String },
    /// Closes the job of this name.
    Close { name: String },
    /// Lets the coins of the committed payments of this txid be spent again.
    Release { txid: Txid },
    /// Adds the blocks of a block file of these bytes, at most 67,108,864, behind the tip.
    Blocks { bytes: Vec<u8> },
    /// Adds a transaction, in these hex digits, to those that wait for a block.
    Pending { hex: Vec<u8> },
}

//! The bytes that columns stand for.

use fund_base::Memory;
use row_columns::{number_in, unescaped};
use std::alloc::Global;

/// Puts bytes so often behind others.
fn put_pieces(bytes: &mut Vec<u8>, piece: &[u8], count: u64) -> Result<(), Memory> {
    for _ in 0..count {
        bytes.extend_from_slice(piece)?;
    }
    Ok(())
}

/// These bytes, and behind them so often those that a column stands for; once where the count is no number.
pub(crate) fn with_pieces(
    alloc: Global,
    before: &[u8],
    piece: &str,
    count: &str,
) -> Result<Vec<u8>, Memory> {
    let mut bytes = Vec::from_slice(alloc, before)?;
    let piece = unescaped(alloc, piece.as_bytes())?;
    put_pieces(&mut bytes, &piece, number_in(count, 1))?;
    Ok(bytes)
}

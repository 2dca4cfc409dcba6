//! The lines of a report that a summary has.

ghost use Rattle.std.specs.Prelude.{◌≡◌, ◌==◌, ◌<◌, ◌≤◌, ◌∷◌, ◌++◌, drop, length, OnOk, position, take};
ghost use Rattle.command_work.specs.Lines.{is_long_line, lines_of, short_line, short_lines};

use fund_base::Memory;

/// The place of the first line feed.
fn feed_place(text: &[u8]) -> Option<usize>
    ensures { result ≡ position (λ b. b == 10) text.now }
{
    text.iter().position(|byte| *byte == b'\n')
}

/// How many bytes the first line has, with the line feed that ends it.
#[tactic(auto, using(crate::proofs::LineLaws::line_found, crate::proofs::LineLaws::line_whole))]
fn line_len(text: &[u8]) -> usize
    requires { 0 < length text.now }
    ensures some { 0 < result }
    ensures within { result ≤ length text.now }
    ensures line { lines_of text.now ≡ take result text.now ∷ lines_of (drop result text.now) }
{
    match feed_place(text) {
        Some(place) => place + 1,
        None => text.len(),
    }
}

/// Whether it is the line of a coin or of a PSBT.
fn is_long(line: &[u8]) -> bool
    ensures { result ≡ is_long_line line.now }
{
    line.starts_with(b"in ") || line.starts_with(b"psbt ")
}

/// Adds a line that isn't of a coin or of a PSBT.
fn put_line(out: &mut Vec<u8>, line: &[u8]) -> Result<(), Memory>
    ensures { OnOk result (out.new.items ≡ out.old.items ++ short_line line.now) }
{
    if is_long(line) {
        return Ok(());
    }
    out.extend_from_slice(line)?;
    Ok(())
}

/// Adds the lines that aren't of a coin or of a PSBT.
pub(crate) fn put_short(out: &mut Vec<u8>, text: &[u8]) -> Result<(), Memory>
    ensures { OnOk result (out.new.items ≡ out.old.items ++ short_lines text.now) }
{
    let mut rest = text;
    while !rest.is_empty() {
        let (line, after) = rest.split_at(line_len(rest));
        put_line(out, line)?;
        rest = after;
    }
    Ok(())
}

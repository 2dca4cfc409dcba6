//! Bytes: `\n`, `\t` and `\\` are a line feed, a tab and a backslash, `\xHH` is the byte HH, and `-` alone is no byte.

use fund_base::Memory;
use std::alloc::Global;

/// The byte of two hex digits, 63 where they are none.
fn byte_of(high: u8, low: u8) -> u8 {
    let digits = [high, low];
    let mut byte = [b'?'];
    match hex::decode_to_slice(digits.as_slice(), &mut byte) {
        Ok(()) => byte[0],
        Err(_) => b'?',
    }
}

/// The bytes that a column stands for. The error is out of memory.
pub fn unescaped(alloc: Global, line: &[u8]) -> Result<Vec<u8>, Memory> {
    let mut bytes = Vec::new(alloc);
    let mut rest = match line {
        [b'-'] => &[],
        _ => line,
    };
    for _ in 0..line.len() {
        let (byte, after) = match rest {
            [] => break,
            [b'\\', b'n', after @ ..] => (b'\n', after),
            [b'\\', b't', after @ ..] => (b'\t', after),
            [b'\\', b'x', high, low, after @ ..] => (byte_of(*high, *low), after),
            [b'\\', byte, after @ ..] => (*byte, after),
            [byte, after @ ..] => (*byte, after),
        };
        bytes.push(byte)?;
        rest = after;
    }
    Ok(bytes)
}

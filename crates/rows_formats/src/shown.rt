//! What is put in words of its own: faults, and hashes as they are shown.

use command_end::{Part, shown_hash, words_of};
use row_columns::Answer;

/// Puts a word, and the words of a fault.
pub(crate) fn put_fault(out: &mut Answer, word: &str, parts: &[Part]) {
    let words = words_of(out.alloc, parts);
    out.words(word, words);
}

/// Puts a word and a hash as it is shown.
pub(crate) fn put_shown(out: &mut Answer, word: &str, hash: &[u8; 32]) {
    let digits = shown_hash(out.alloc, hash);
    out.words(word, digits);
}

//! The words of a line.

ghost use Rattle.std.specs.Prelude.{◌≡◌, ◌≤◌, length, option_copied};
ghost use Rattle.std.specs.Char.{is_ascii_graphic};
ghost use Rattle.std.specs.List.{prefix_len};
ghost use Rattle.fault_lines.specs.Word.{after_word, begins, behind, is_no_blank, word};

/// What stands behind this front, if the bytes begin with it.
pub fn behind<'a>(bytes: &'a [u8], front: &[u8]) -> Option<&'a [u8]>
    ensures { option_copied result ≡ behind front.now bytes.now }
{
    match bytes.strip_prefix(front) {
        Some(rest) => Some(rest),
        None => None,
    }
}

/// Whether the bytes begin with this front.
pub fn begins(bytes: &[u8], front: &[u8]) -> bool
    ensures { result ≡ begins front.now bytes.now }
{
    behind(bytes, front).is_some()
}

/// How many printable bytes of ASCII without a blank stand at the front.
fn word_len(bytes: &[u8]) -> usize
    ensures count { result ≡ prefix_len is_ascii_graphic bytes.now }
    ensures within { result ≤ length bytes.now }
{
    for (i, byte) in bytes.iter().enumerate() {
        if !byte.is_ascii_graphic() {
            return i;
        }
    }
    bytes.len()
}

/// The first word.
pub fn word(bytes: &[u8]) -> &[u8]
    ensures { result.now ≡ word bytes.now }
{
    let (front, _) = bytes.split_at(word_len(bytes));
    front
}

/// Whether the byte is no blank.
fn is_no_blank(byte: u8) -> bool
    ensures { result ≡ is_no_blank byte }
{
    byte != b' '
}

/// How many bytes stand before the first blank.
fn blank_at(bytes: &[u8]) -> usize
    ensures count { result ≡ prefix_len is_no_blank bytes.now }
    ensures within { result ≤ length bytes.now }
{
    for (i, byte) in bytes.iter().enumerate() {
        if !is_no_blank(*byte) {
            return i;
        }
    }
    bytes.len()
}

/// What stands behind the first blank.
pub fn after_word(bytes: &[u8]) -> &[u8]
    ensures { result.now ≡ after_word bytes.now }
{
    let (_, rest) = bytes.split_at(blank_at(bytes));
    match rest {
        [_, rest @ ..] => rest,
        [] => rest,
    }
}

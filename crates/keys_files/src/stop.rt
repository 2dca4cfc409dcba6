//! Why a keys file isn't taken.

use keys_text::KeysFault;

/// Why a keys file isn't taken.
#[derive(Drop)]
pub enum KeysStop {
    /// A read of it failed.
    Read,
    /// It is longer than its limit.
    TooLong,
    /// It is no keys file, for this fault first, which isn't that there was not enough memory.
    Refused(KeysFault),
    /// There was not enough memory.
    Memory,
}

//! Tries that letters tell of.

ghost use Rattle.std.specs.Prelude.{◌≡◌, ◌==◌};
ghost use Rattle.std.specs.List.{count_by};

/// How many tries letters tell of: each writes one I, and the other letters tell of none. Each byte adds 1 or 0, so
/// that no branch hangs on it.
pub fn tries_in(letters: &[u8]) -> u64
    ensures { result ≡ count_by (λ b. b == 73) letters.now }
{
    let mut tries = 0;
    for letter in letters {
        tries += u64::from(*letter == b'I');
    }
    tries
}

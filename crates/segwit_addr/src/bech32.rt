//! The checksum and the alphabet of bech32 and bech32m (BIP 173 and BIP 350).

ghost use Rattle.std.specs.Prelude.{◌≡◌, ◌≤◌, ◌<◌, ◌^◌, ◌++◌, IfSome, length};
ghost use Rattle.segwit_addr.specs.Bech32.{polymod, expanded, polymod_step, generator_at, found_at, place_of, letter_at, value_of, letter_of};

/// The letters of the values from 0 to 31.
const ALPHABET: &[u8] = b"qpzry9x8gf2tvdw0s3jn54khce6mua7l";

/// The checksum of a whole bech32 text.
pub(crate) const BECH32: u32 = 1;

/// The checksum of a whole bech32m text.
pub(crate) const BECH32M: u32 = 0x2bc8_30a3;

/// The generator where the bit of that number is set, and else 0.
#[tactic(auto, unfolding(crate::specs::Bech32::generator_at))]
fn generator(top: u32, bit: u32, generator: u32) -> u32
    requires { bit < 5 }
    ensures { result ≡ generator_at top bit generator }
{
    if (top >> bit) % 2 == 1 { generator } else { 0 }
}

/// The checksum with one value more.
#[tactic(auto, unfolding(crate::specs::Bech32::polymod_step))]
fn checksum_step(sum: u32, value: u8) -> u32
    ensures { result ≡ polymod_step sum value }
{
    let top = sum >> 25;
    let moved = (sum % (1 << 25)) * 32;
    moved
        ^ value as u32
        ^ generator(top, 0, 0x3b6a_57b2)
        ^ generator(top, 1, 0x2650_8e6d)
        ^ generator(top, 2, 0x1ea1_19fa)
        ^ generator(top, 3, 0x3d42_33dd)
        ^ generator(top, 4, 0x2a14_62b3)
}

/// The checksum of a human-readable part and of the values after the separator.
#[tactic(auto, using(crate::proofs::Folds::parts))]
pub(crate) fn checksum(prefix: &[u8], values: &[u8]) -> u32
    ensures { result ≡ polymod (expanded prefix.now ++ values.now) }
{
    let high = prefix.iter().fold(1, |sum, c| checksum_step(sum, *c / 32));
    let middle = checksum_step(high, 0);
    let low = prefix
        .iter()
        .fold(middle, |sum, c| checksum_step(sum, *c % 32));
    values
        .iter()
        .fold(low, |sum, value| checksum_step(sum, *value))
}

/// The place of the first such letter. None exactly where there is none.
#[tactic(auto, unfolding(crate::specs::Bech32::found_at))]
fn find_in(letters: &[u8], c: u8) -> Option<usize>
    ensures value { result ≡ found_at letters.now c }
    ensures most { IfSome result (λ n. n ≤ length letters.now) }
{
    letters.iter().position(|a| *a == c)
}

/// The place of the first such letter, and the number of letters where there is none.
fn place_in(letters: &[u8], c: u8) -> usize
    ensures value { result ≡ place_of letters.now c }
    ensures most { result ≤ length letters.now }
{
    find_in(letters, c).unwrap_or(letters.len())
}

/// The value of a letter, and 32 where it is not in the alphabet.
#[tactic(auto, unfolding(crate::specs::Bech32::value_of))]
pub(crate) fn value(c: u8) -> u8
    ensures { result ≡ value_of c }
{
    place_in(ALPHABET, c) as u8
}

/// The letter at a place below 32.
#[tactic(auto, unfolding(crate::specs::Bech32::letter_at))]
fn letter_in(letters: &[u8], place: u8) -> u8
    requires { 32 ≤ length letters.now }
    ensures { result ≡ letter_at letters.now place }
{
    letters[(place % 32) as usize]
}

/// The letter of a value of five bits.
pub(crate) fn letter(value: u8) -> u8
    ensures { result ≡ letter_of value }
{
    letter_in(ALPHABET, value)
}

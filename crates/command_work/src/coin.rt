//! The coins of a workload, drawn by words of ChaCha20.

ghost use Rattle.std.specs.Prelude.{◌≡◌, ◌+◌, ◌*◌, ◌%◌, ◌<◌, ◌≤◌, ◌^◌, ℕ};
ghost use Rattle.command_work.specs.Coins.{coin_at, seed_of, words_at};

use crate::kind::Kind;
use fund_base::{MAX_MONEY, Sat};
use rand_chacha::ChaCha20Rng;
use rand_core::SeedableRng;
use rand_core::utils::NextWord;

/// A coin.
#[derive(Clone, Copy)]
pub(crate) struct Coin {
    /// What it is worth, in satoshi: 10,000 to 5,009,999.
    pub(crate) value: Sat,
    /// What it pays to.
    pub(crate) kind: Kind,
}

impl Coin {
    /// What it is worth, in satoshi.
    pub(crate) fn worth(&self) -> u64
        ensures value { result ≡ self.now.value }
        ensures most { result ≤ MAX_MONEY }
    {
        self.value.get()
    }
}

/// The seed of a number: its eight bytes, low byte first, and 24 zero bytes.
#[tactic(auto, unfolding(crate::specs::Coins::seed_of))]
fn seed_of(number: u64) -> [u8; 32]
    ensures { result ≡ seed_of number }
{
    let mut seed = [0; 32];
    seed[..8].copy_from_slice(&number.to_le_bytes());
    seed
}

/// The words of a number, from the first on.
pub(crate) fn words_of(number: u64) -> ChaCha20Rng
    ensures { result ≡ words_at number 0 }
{
    ChaCha20Rng::from_seed(seed_of(number))
}

/// The value that a word draws, in satoshi.
fn value_of(word: u32) -> Sat
    ensures { result ≡ 10_000 + word % 5_000_000 }
{
    Sat::new(10_000 + u64::from(word % 5_000_000)).unwrap()
}

/// The next coin, which takes two words.
pub(crate) fn next_coin(words: &mut ChaCha20Rng) -> Coin
    ensures coin { (number i : ℕ) → i < 2 ^ 32 → words.old ≡ words_at number (2 * i) → result ≡ coin_at number i }
    ensures words { (number i : ℕ) → i < 2 ^ 32 → words.old ≡ words_at number (2 * i) → words.new ≡ words_at number (2 * (i + 1)) }
{
    let first = words.next_word();
    let second = words.next_word();
    Coin {
        value: value_of(first),
        kind: Kind::of(second),
    }
}

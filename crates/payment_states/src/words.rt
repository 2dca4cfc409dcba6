//! Flags of 64 places in one word: bit k is the flag of the place `first + k`.

ghost use Rattle.std.specs.Prelude.{◌≡◌, ◌+◌, ◌<◌, ◌≤◌, ◌&&◌, ◌||◌, ◌==◌, ◌⊎◌, ℕ, All, false, length, min, nat_le, slice_index_or};
ghost use Rattle.std.specs.List.{list_any};
ghost use Rattle.payment_states.specs.Words.{flag_count, has_flag};

/// A word with the flag at `k` alone, or without any.
#[tactic(auto, unfolding(crate::specs::Words::has_flag))]
fn flag_if(set: bool, k: usize) -> u64
    requires { k < 64 }
    ensures { (j : ℕ) → has_flag result j ≡ (set && (k == j)) }
{
    if set { 1 << k } else { 0 }
}

/// The word with the flag of a place alone. A place behind the 64 from `first` on has none.
pub fn own_flag(first: usize, place: usize) -> u64
    requires { first ≤ place }
    ensures { (k : ℕ) → k < 64 → has_flag result k ≡ (place == first + k) }
{
    let behind = place - first;
    if behind < 64 {
        flag_if(true, behind)
    } else {
        0
    }
}

/// The place behind the last of the 64 from `first` on, where there are so many places.
pub fn span_end(first: usize, count: usize) -> usize
    requires { first < count }
    ensures least { first < result }
    ensures most { result ≤ count }
    ensures span { (result ≡ first + 64) ⊎ ((result ≡ count) × (count ≤ first + 64)) }
{
    if count - first <= 64 {
        count
    } else {
        first + 64
    }
}

/// The word of the flags from `first` on. A place behind the last has none.
pub fn word_of(flags: &[bool], first: usize) -> u64
    requires { first < length flags.now }
    ensures { (k : ℕ) → k < 64 → has_flag result k ≡ slice_index_or flags.now (first + k) false }
{
    let end = span_end(first, flags.len());
    let mut word = 0;
    for place in first..end {
        word |= flag_if(flags[place], place - first);
    }
    word
}

/// The word of a place from `first` on. One before it has no flag.
fn word_from(words: &[u64], first: usize, place: usize) -> u64
    requires { place < length words.now }
    ensures { (k : ℕ) → has_flag result k ≡ (nat_le first place && has_flag (slice_index_or words.now place 0) k) }
{
    if first <= place { words[place] } else { 0 }
}

/// The flags of a word, and those that the places from `first` on have.
pub fn joined(words: &[u64], places: &[usize], first: usize, own: u64) -> u64
    requires { All (λ p. p < length words.now) places.now }
    ensures { (k : ℕ) → has_flag result k ≡ (has_flag own k || list_any (λ p. nat_le first p && has_flag (slice_index_or words.now p 0) k) places.now) }
{
    let mut word = own;
    for place in places {
        word |= word_from(words, first, *place);
    }
    word
}

/// So many more as flags are set in both words, up to the greatest number.
pub fn add_flags(count: u32, word: u64, counted: u64) -> u32
    ensures { result ≡ min 4294967295 (count + flag_count (has_flag word) counted) }
{
    count.saturating_add((word & counted).count_ones())
}

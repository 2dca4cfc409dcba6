//! How many counted ancestors and descendants each place has, of 64 places at a time.

ghost use Rattle.std.specs.Prelude.{◌≡◌, ◌+◌, ◌<◌, ◌≤◌, ◌&&◌, ◌||◌, ◌==◌, ℕ, false, true, IfOk, All, length, min, nat_lt, vec_len, slice_index_or};
ghost use Rattle.std.specs.List.{list_any};
ghost use Rattle.payment_states.specs.Counts.{downs, is_counted, ups};
ghost use Rattle.payment_states.specs.Graph.{IsInOrder, steps, within};
ghost use Rattle.payment_states.specs.Words.{flag_count, has_flag};

use crate::ancestry::Parents;
use crate::words::{add_flags, joined, own_flag, span_end, word_of};
use fund_base::Memory;
use std::alloc::Global;

/// Adds to the number of each place from `first` on how many of the 64 places from `first` on are counted and are it or
/// an ancestor. The words are put anew.
fn count_up(parents: &[Parents], first: usize, counted: u64, words: &mut [u64], numbers: &mut [u32])
    requires order { IsInOrder parents.now }
    requires words { length words.old ≡ length parents.now }
    requires numbers { length numbers.old ≡ length parents.now }
    ensures more { (i : ℕ) → first ≤ i → i < length parents.now → slice_index_or numbers.new i 0 ≡ min 4294967295 (slice_index_or numbers.old i 0 + flag_count (λ k. within parents.now (length parents.now) i (first + k)) counted) }
    ensures others { (i : ℕ) → i < first → slice_index_or numbers.new i 0 ≡ slice_index_or numbers.old i 0 }
{
    for place in first..parents.len() {
        let here = &parents[place];
        let word = joined(words, here.as_slice(), first, own_flag(first, place));
        words[place] = word;
        numbers[place] = add_flags(numbers[place], word, counted);
    }
}

/// Counts the counted places among each place and its ancestors, where nothing is counted yet.
fn count_ancestors(parents: &[Parents], counted: &[bool], words: &mut [u64], numbers: &mut [u32])
    requires order { IsInOrder parents.now }
    requires counted { length counted.now ≡ length parents.now }
    requires words { length words.old ≡ length parents.now }
    requires numbers { length numbers.old ≡ length parents.now }
    requires none { (i : ℕ) → slice_index_or numbers.old i 0 ≡ 0 }
    ensures { (i : ℕ) → i < length parents.now → slice_index_or numbers.new i 0 ≡ min 4294967295 (ups parents.now counted.now i) }
{
    let mut first = 0;
    while first < parents.len() {
        let word = word_of(counted, first);
        count_up(parents, first, word, words, numbers);
        first = span_end(first, parents.len());
    }
}

/// Gives each place from `first` on and before `end` its own flag, where none has a flag.
fn flag_own(words: &mut [u64], first: usize, end: usize)
    requires first { first ≤ end }
    requires end { end ≤ length words.old }
    requires clean { (j k : ℕ) → k < 64 → has_flag (slice_index_or words.old j 0) k ≡ false }
    ensures own { (j k : ℕ) → k < 64 → first + k < end → has_flag (slice_index_or words.new j 0) k ≡ (first + k == j) }
    ensures none { (j k : ℕ) → k < 64 → end ≤ first + k → has_flag (slice_index_or words.new j 0) k ≡ false }
{
    for place in first..end {
        words[place] = own_flag(first, place);
    }
}

/// Gives the places the flags of a word, and gives the least of them and `low`.
fn flag_places(words: &mut [u64], places: &[usize], word: u64, mut low: usize) -> usize
    requires { All (λ p. p < length words.old) places.now }
    ensures flags { (j k : ℕ) → has_flag (slice_index_or words.new j 0) k ≡ ((has_flag word k && list_any (λ p. p == j) places.now) || has_flag (slice_index_or words.old j 0) k) }
    ensures low { result ≤ low }
    ensures least { All (λ p. result ≤ p) places.now }
{
    for place in places {
        words[*place] |= word;
        low = low.min(*place);
    }
    low
}

/// Gives the parents of a place its flags.
fn flag_parents(parents: &[Parents], place: usize, words: &mut [u64], low: usize) -> usize
    requires order { IsInOrder parents.now }
    requires place { place < length parents.now }
    requires same { length words.old ≡ length parents.now }
    requires low { (j k : ℕ) → j < low → k < 64 → has_flag (slice_index_or words.old j 0) k ≡ false }
    ensures flags { (j k : ℕ) → has_flag (slice_index_or words.new j 0) k ≡ ((has_flag (slice_index_or words.old place 0) k && list_any (λ p. p == j) (steps parents.now place)) || has_flag (slice_index_or words.old j 0) k) }
    ensures low { result ≤ low }
    ensures below { (j k : ℕ) → j < result → k < 64 → has_flag (slice_index_or words.new j 0) k ≡ false }
{
    let word = words[place];
    if word == 0 {
        return low;
    }
    let here = &parents[place];
    flag_places(words, here.as_slice(), word, low)
}

/// Gives each place the flags of those that are it or descend from it, of the places from `first` on and before `end`. No
/// place has a flag before the one that comes back.
fn flag_kin(parents: &[Parents], first: usize, end: usize, words: &mut [u64]) -> usize
    requires order { IsInOrder parents.now }
    requires first { first < end }
    requires end { end ≤ length parents.now }
    requires same { length words.old ≡ length parents.now }
    requires own { (j k : ℕ) → k < 64 → first + k < end → has_flag (slice_index_or words.old j 0) k ≡ (first + k == j) }
    requires none { (j k : ℕ) → k < 64 → end ≤ first + k → has_flag (slice_index_or words.old j 0) k ≡ false }
    ensures flags { (j k : ℕ) → k < 64 → first + k < end → has_flag (slice_index_or words.new j 0) k ≡ within parents.now (length parents.now) (first + k) j }
    ensures others { (j k : ℕ) → k < 64 → end ≤ first + k → has_flag (slice_index_or words.new j 0) k ≡ false }
    ensures low { result ≤ first }
    ensures below { (j k : ℕ) → j < result → k < 64 → has_flag (slice_index_or words.new j 0) k ≡ false }
{
    let mut low = first;
    let mut place = end;
    while place > low {
        place -= 1;
        low = flag_parents(parents, place, words, low);
    }
    low
}

/// Adds to the number of each place from `low` on and before `end` how many of its flags are counted, and takes its flags.
fn count_flags(words: &mut [u64], counted: u64, numbers: &mut [u32], low: usize, end: usize)
    requires low { low ≤ end }
    requires end { end ≤ length words.old }
    requires numbers { length numbers.old ≡ length words.old }
    requires below { (j k : ℕ) → j < low → k < 64 → has_flag (slice_index_or words.old j 0) k ≡ false }
    requires above { (j k : ℕ) → end ≤ j → k < 64 → has_flag (slice_index_or words.old j 0) k ≡ false }
    ensures more { (j : ℕ) → low ≤ j → j < end → slice_index_or numbers.new j 0 ≡ min 4294967295 (slice_index_or numbers.old j 0 + flag_count (has_flag (slice_index_or words.old j 0)) counted) }
    ensures before { (j : ℕ) → j < low → slice_index_or numbers.new j 0 ≡ slice_index_or numbers.old j 0 }
    ensures behind { (j : ℕ) → end ≤ j → slice_index_or numbers.new j 0 ≡ slice_index_or numbers.old j 0 }
    ensures clean { (j k : ℕ) → k < 64 → has_flag (slice_index_or words.new j 0) k ≡ false }
{
    for place in low..end {
        numbers[place] = add_flags(numbers[place], words[place], counted);
        words[place] = 0;
    }
}

/// Adds to the number of each place how many of the 64 places from `first` on are counted and are it or a descendant. No
/// place has a flag before and after.
fn count_down(
    parents: &[Parents],
    first: usize,
    counted: u64,
    words: &mut [u64],
    numbers: &mut [u32],
)
    requires order { IsInOrder parents.now }
    requires first { first < length parents.now }
    requires words { length words.old ≡ length parents.now }
    requires numbers { length numbers.old ≡ length parents.now }
    requires clean { (j k : ℕ) → k < 64 → has_flag (slice_index_or words.old j 0) k ≡ false }
    requires few { (j : ℕ) → slice_index_or numbers.old j 0 ≤ 4294967295 }
    ensures numbers { (j : ℕ) → slice_index_or numbers.new j 0 ≡ min 4294967295 (slice_index_or numbers.old j 0 + flag_count (λ k. nat_lt (first + k) (length parents.now) && within parents.now (length parents.now) (first + k) j) counted) }
    ensures clean { (j k : ℕ) → k < 64 → has_flag (slice_index_or words.new j 0) k ≡ false }
{
    let end = span_end(first, parents.len());
    flag_own(words, first, end);
    let low = flag_kin(parents, first, end, words);
    count_flags(words, counted, numbers, low, end);
}

/// Counts the counted places among each place and its descendants, where nothing is counted yet and no place has a flag.
fn count_descendants(parents: &[Parents], counted: &[bool], words: &mut [u64], numbers: &mut [u32])
    requires order { IsInOrder parents.now }
    requires counted { length counted.now ≡ length parents.now }
    requires words { length words.old ≡ length parents.now }
    requires numbers { length numbers.old ≡ length parents.now }
    requires none { (i : ℕ) → slice_index_or numbers.old i 0 ≡ 0 }
    requires clean { (j : ℕ) → slice_index_or words.old j 0 ≡ 0 }
    ensures { (i : ℕ) → slice_index_or numbers.new i 0 ≡ min 4294967295 (downs parents.now counted.now i) }
{
    let mut first = 0;
    while first < parents.len() {
        let word = word_of(counted, first);
        count_down(parents, first, word, words, numbers);
        first = span_end(first, parents.len());
    }
}

/// The number of counted places among each place and its ancestors.
fn ancestors_of(alloc: Global, parents: &[Parents], counted: &[bool]) -> Result<Vec<u32>, Memory>
    requires order { IsInOrder parents.now }
    requires counted { length counted.now ≡ length parents.now }
    ensures numbers { (i : ℕ) → i < length parents.now → IfOk result (λ v. slice_index_or v.items i 0 ≡ min 4294967295 (ups parents.now counted.now i)) }
    ensures len { IfOk result (λ v. vec_len v ≡ length parents.now) }
{
    let mut words = vec![in alloc; 0; parents.len()]?;
    let mut numbers = vec![in alloc; 0; parents.len()]?;
    count_ancestors(parents, counted, &mut words, &mut numbers);
    Ok(numbers)
}

/// The number of counted places among each place and its descendants.
fn descendants_of(alloc: Global, parents: &[Parents], counted: &[bool]) -> Result<Vec<u32>, Memory>
    requires order { IsInOrder parents.now }
    requires counted { length counted.now ≡ length parents.now }
    ensures numbers { (i : ℕ) → IfOk result (λ v. slice_index_or v.items i 0 ≡ min 4294967295 (downs parents.now counted.now i)) }
    ensures len { IfOk result (λ v. vec_len v ≡ length parents.now) }
{
    let mut words = vec![in alloc; 0; parents.len()]?;
    let mut numbers = vec![in alloc; 0; parents.len()]?;
    count_descendants(parents, counted, &mut words, &mut numbers);
    Ok(numbers)
}

/// How many counted ancestors and descendants each place has, itself included.
#[derive(Drop)]
pub struct Counts {
    /// Its counted ancestors, itself included.
    pub ancestors: Vec<u32>,
    /// Its counted descendants, itself included.
    pub descendants: Vec<u32>,
}

/// The numbers of each place.
pub fn numbers(alloc: Global, parents: &[Parents], counted: &[bool]) -> Result<Counts, Memory>
    requires order { IsInOrder parents.now }
    requires counted { length counted.now ≡ length parents.now }
    ensures ancestors { (i : ℕ) → is_counted counted.now i ≡ true → IfOk result (λ n. slice_index_or n.ancestors.items i 0 ≡ min 4294967295 (ups parents.now counted.now i)) }
    ensures descendants { (i : ℕ) → IfOk result (λ n. slice_index_or n.descendants.items i 0 ≡ min 4294967295 (downs parents.now counted.now i)) }
    ensures ancestors_len { IfOk result (λ n. vec_len n.ancestors ≡ length parents.now) }
    ensures descendants_len { IfOk result (λ n. vec_len n.descendants ≡ length parents.now) }
{
    let ancestors = ancestors_of(alloc, parents, counted)?;
    let descendants = descendants_of(alloc, parents, counted)?;
    Ok(Counts {
        ancestors,
        descendants,
    })
}

//! How many counted ancestors one place has.

ghost use Rattle.std.specs.Prelude.{◌≡◌, ◌+◌, ◌<◌, ◌≤◌, ◌&&◌, ◌||◌, ◌==◌, ℕ, false, IfOk, All, length, min, count_by, slice_index_or, if◌then◌else◌};
ghost use Rattle.std.specs.List.{list_any};
ghost use Rattle.payment_states.specs.Counts.{is_counted, ups};
ghost use Rattle.payment_states.specs.Graph.{IsInOrder, below, steps, within};

use crate::ancestry::Parents;
use fund_base::Memory;
use std::alloc::Global;

/// Marks the places, and gives the least of them and `low`.
fn mark_places(marks: &mut [bool], places: &[usize], mut low: usize) -> usize
    requires { All (λ p. p < length marks.old) places.now }
    ensures marks { (j : ℕ) → slice_index_or marks.new j false ≡ (list_any (λ p. p == j) places.now || slice_index_or marks.old j false) }
    ensures low { result ≤ low }
    ensures least { All (λ p. result ≤ p) places.now }
{
    for place in places {
        marks[*place] = true;
        low = low.min(*place);
    }
    low
}

/// Marks the parents of a place that is marked itself.
fn mark_parents(parents: &[Parents], place: usize, marks: &mut [bool], low: usize) -> usize
    requires order { IsInOrder parents.now }
    requires place { place < length parents.now }
    requires same { length marks.old ≡ length parents.now }
    requires low { (j : ℕ) → j < low → slice_index_or marks.old j false ≡ false }
    ensures marks { (j : ℕ) → slice_index_or marks.new j false ≡ ((slice_index_or marks.old place false && list_any (λ p. p == j) (steps parents.now place)) || slice_index_or marks.old j false) }
    ensures low { result ≤ low }
    ensures below { (j : ℕ) → j < result → slice_index_or marks.new j false ≡ false }
{
    if marks[place] {
        let here = &parents[place];
        mark_places(marks, here.as_slice(), low)
    } else {
        low
    }
}

/// Marks a place and its ancestors, where nothing is marked. No place is marked below that which comes back.
pub fn mark_kin(parents: &[Parents], start: usize, marks: &mut [bool]) -> usize
    requires order { IsInOrder parents.now }
    requires start { start < length parents.now }
    requires same { length marks.old ≡ length parents.now }
    requires clean { (j : ℕ) → slice_index_or marks.old j false ≡ false }
    ensures marks { (j : ℕ) → slice_index_or marks.new j false ≡ within parents.now (length parents.now) start j }
    ensures least { result ≤ start }
    ensures below { (j : ℕ) → j < result → slice_index_or marks.new j false ≡ false }
{
    marks[start] = true;
    let mut low = start;
    let mut place = start + 1;
    while place > low {
        place -= 1;
        low = mark_parents(parents, place, marks, low);
    }
    low
}

/// One more, where the test passes, up to the greatest number.
fn more(n: u32, test: bool) -> u32
    ensures { result ≡ (if test then min 4294967295 (n + 1) else n) }
{
    if test { n.saturating_add(1) } else { n }
}

fn both(a: bool, b: bool) -> bool
    ensures { result ≡ (a && b) }
{
    a && b
}

/// Counts the marked places from `low` to `high` that are counted.
fn tally(marks: &[bool], counted: &[bool], low: usize, high: usize) -> u32
    // One flag for each place, and marks from `low` to `high` alone.
    requires counted { length counted.now ≡ length marks.now }
    requires low { low ≤ high }
    requires high { high < length marks.now }
    requires below { (j : ℕ) → j < low → slice_index_or marks.now j false ≡ false }
    requires above { (j : ℕ) → high < j → slice_index_or marks.now j false ≡ false }
    ensures { result ≡ min 4294967295 (count_by (λ j. is_counted counted.now j && slice_index_or marks.now j false) (below (length marks.now))) }
{
    let mut count = 0;
    for place in low..high + 1 {
        count = more(count, both(counted[place], marks[place]));
    }
    count
}

/// How many counted ones are among a place and its ancestors, whether or not it is counted itself. The error is out of
/// memory.
pub fn count_at(
    alloc: Global,
    parents: &[Parents],
    counted: &[bool],
    place: usize,
) -> Result<u32, Memory>
    requires order { IsInOrder parents.now }
    requires place { place < length parents.now }
    requires counted { length counted.now ≡ length parents.now }
    ensures { IfOk result (λ n. n ≡ min 4294967295 (ups parents.now counted.now place)) }
{
    let mut marks = vec![in alloc; false; parents.len()]?;
    Ok(count_kin(parents, counted, place, &mut marks))
}

/// Counts the counted ones among a place and its ancestors, whether or not it is counted itself, where nothing is marked.
fn count_kin(parents: &[Parents], counted: &[bool], place: usize, marks: &mut [bool]) -> u32
    requires order { IsInOrder parents.now }
    requires place { place < length parents.now }
    requires counted { length counted.now ≡ length parents.now }
    requires marks { length marks.old ≡ length parents.now }
    requires clean { (j : ℕ) → slice_index_or marks.old j false ≡ false }
    ensures { result ≡ min 4294967295 (ups parents.now counted.now place) }
{
    let low = mark_kin(parents, place, marks);
    tally(marks, counted, low, place)
}

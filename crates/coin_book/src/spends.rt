//! What spends each outpoint.

ghost use Rattle.std.specs.Prelude.{ℕ, ◌≡◌, ◌+◌, ◌-◌, ◌≤◌, ◌<◌, ◌++◌, ◌∷◌, ◌||◌, [], IfOk, IfSome, List, OnErr, OnOk, Some, is_some, length, option_map, slice_get, take, true, if◌then◌else◌};
ghost use Rattle.std.specs.List.{IsDistinct};
ghost use Rattle.std.specs.Map.{keys_of, lookup};
ghost use Rattle.fund_base.specs.Outpoints.{same_outpoint};
ghost use Rattle.fund_base.specs.declared.outpoint.OutPoint.{OutPoint};
ghost use Rattle.coin_book.specs.Places.{all_in, list_at, spends_in};
ghost use Rattle.coin_book.specs.declared.coin.Spend.{Spend};

use crate::coin::Spend;
use fund_base::{Memory, OutPoint};
use indexmap::IndexMap;
use indexmap::map::Entry;
use std::alloc::Global;
use std::marker::Model;
use std::slice::from_ref;

/// The spends of each outpoint, in chain order. What a transaction spends is kept once, and its place under each outpoint.
#[derive(Drop)]
pub struct Spends {
    all: Vec<Spend>,
    // under each outpoint the place of its first spend
    places: IndexMap<OutPoint, u32>,
    // those of an outpoint that several transactions spend, as a coinbase's
    lists: IndexMap<OutPoint, Vec<Spend>>,
}

impl Model for Spends {
    ghost use Rattle.std.specs.Prelude.{List};
    ghost use Rattle.fund_base.specs.declared.outpoint.OutPoint.{OutPoint};
    ghost use Rattle.coin_book.specs.Places.{AreKept, shown};
    ghost use Rattle.coin_book.specs.declared.coin.Spend.{Spend};

    ghost Value = { List (OutPoint × List Spend) };

    ghost view = { λ s. shown s.all.items s.places.entries s.lists.entries };

    ghost invariant = { λ s. AreKept s.all.items s.places.entries s.lists.entries };
}

impl Spends {
    /// No spends.
    pub fn new(alloc: Global) -> Spends
        ensures { (o : OutPoint) → spends_in result o ≡ [] }
    {
        Spends {
            all: Vec::new(alloc),
            places: IndexMap::new(alloc),
            lists: IndexMap::new(alloc),
        }
    }

    /// Makes room for so many transactions more, each of which spends one outpoint.
    pub fn reserve(&mut self, count: usize) -> Result<(), Memory>
        ensures { self.new ≡ self.old }
    {
        self.all.reserve(count)?;
        self.places.reserve(count)?;
        Ok(())
    }

    /// The spends of an outpoint, in chain order.
    pub fn at(&self, point: &OutPoint) -> &[Spend]
        ensures { result.now ≡ spends_in self.now point.now }
    {
        let Some(place) = self.places.get(point) else {
            return &[];
        };
        match self.lists.get(point) {
            Some(list) => list.as_slice(),
            None => from_ref(&self.all[*place as usize]),
        }
    }

    /// How many outpoints are spent.
    fn len(&self) -> usize
        ensures count { result ≡ length self.now }
        ensures apart { IsDistinct same_outpoint (keys_of self.now) }
    {
        self.places.len()
    }

    /// The outpoint of this number, from 0, and its spends. None exactly from the number of outpoints on.
    fn entry(&self, i: usize) -> Option<(&OutPoint, &[Spend])>
        ensures { option_map (λ p. (p.0.now, p.1.now)) result ≡ slice_get self.now i }
    {
        let (point, _) = self.places.get_index(i)?;
        Some((point, self.at(point)))
    }

    /// Puts a spend of an outpoint after those that it has.
    pub fn put(&mut self, alloc: Global, point: &OutPoint, spend: &Spend) -> Result<(), Memory>
        ensures grown { (o : OutPoint) → OnOk result (spends_in self.new o ≡ spends_in self.old o ++ (if same_outpoint point.now o then spend.now ∷ [] else [])) }
        ensures kept { (o : OutPoint) → OnErr result (spends_in self.new o ≡ spends_in self.old o) }
    {
        match self.places.get(point) {
            Some(place) => {
                let first = &self.all[*place as usize];
                put_again(alloc, &mut self.lists, point, first, spend)
            }
            None => {
                let place = place_of(&mut self.all, spend)?;
                self.places.insert(*point, place)?;
                Ok(())
            }
        }
    }

    /// Takes the last spends of an outpoint away, so many.
    fn cut(&mut self, point: &OutPoint, count: usize)
        ensures { (o : OutPoint) → spends_in self.new o ≡ (if same_outpoint point.now o then take (length (spends_in self.old o) - count) (spends_in self.old o) else spends_in self.old o) }
    {
        match self.lists.get_mut(point) {
            Some(list) => {
                let kept = list.len().saturating_sub(count);
                list.truncate(kept);
            }
            None => {
                if count > 0 {
                    self.places.swap_remove(point);
                }
            }
        }
    }

    /// Puts spends of an outpoint after those that it has: all of them, or none.
    fn put_list(&mut self, alloc: Global, point: &OutPoint, list: &[Spend]) -> Result<(), Memory>
        ensures grown { (o : OutPoint) → OnOk result (spends_in self.new o ≡ spends_in self.old o ++ (if same_outpoint point.now o then list.now else [])) }
        ensures kept { (o : OutPoint) → OnErr result (spends_in self.new o ≡ spends_in self.old o) }
    {
        for i in 0..list.len() {
            match self.put(alloc, point, &list[i]) {
                Ok(()) => {}
                Err(e) => {
                    self.cut(point, i);
                    return Err(e);
                }
            }
        }
        Ok(())
    }

    /// Puts the spends of one outpoint of others after those that it has.
    fn put_entry(&mut self, alloc: Global, more: &Spends, i: usize) -> Result<(), Memory>
        requires { i < length more.now }
        ensures grown { (front : OutPoint → List Spend) → ((o : OutPoint) → spends_in self.old o ≡ front o ++ all_in (take i more.now) o) → (o : OutPoint) → OnOk result (spends_in self.new o ≡ front o ++ all_in (take (i + 1) more.now) o) }
        ensures kept { (o : OutPoint) → OnErr result (spends_in self.new o ≡ spends_in self.old o) }
    {
        match more.entry(i) {
            Some((point, list)) => self.put_list(alloc, point, list),
            None => Ok(()),
        }
    }

    /// Takes the spends of the first outpoints of others away again, so many, from the last on.
    fn cut_entries(&mut self, more: &Spends, count: usize)
        requires { count ≤ length more.now }
        ensures { (front : OutPoint → List Spend) → ((o : OutPoint) → spends_in self.old o ≡ front o ++ all_in (take count more.now) o) → (o : OutPoint) → spends_in self.new o ≡ front o }
    {
        let mut left = count;
        while left > 0 {
            left -= 1;
            match more.entry(left) {
                Some((point, list)) => self.cut(point, list.len()),
                None => {}
            }
        }
    }

    /// Puts the spends of each outpoint of others after those that it has. When out of memory, these stay as they were.
    pub fn append(&mut self, alloc: Global, more: &Spends) -> Result<(), Memory>
        ensures grown { (o : OutPoint) → OnOk result (spends_in self.new o ≡ spends_in self.old o ++ spends_in more.now o) }
        ensures kept { (o : OutPoint) → OnErr result (spends_in self.new o ≡ spends_in self.old o) }
    {
        for i in 0..more.len() {
            match self.put_entry(alloc, more, i) {
                Ok(()) => {}
                Err(e) => {
                    self.cut_entries(more, i);
                    return Err(e);
                }
            }
        }
        Ok(())
    }
}

/// Whether the spend is the last of these.
fn ends_with(all: &[Spend], spend: &Spend) -> bool
    ensures { result ≡ true → slice_get all.now (length all.now - 1) ≡ Some spend.now }
{
    match all.last() {
        Some(last) => last == spend,
        None => false,
    }
}

/// A place, in 32 bits. No map holds so many outpoints that one has no place.
fn narrowed(place: usize) -> Result<u32, Memory>
    ensures { IfOk result (λ n. n ≡ place) }
{
    if place > u32::MAX as usize {
        return Err(Memory);
    }
    Ok(place as u32)
}

/// The place of a spend among these, which it is put after unless it is the last of them already.
fn place_of(all: &mut Vec<Spend>, spend: &Spend) -> Result<u32, Memory>
    ensures kept { (rest : List Spend) × (all.new.items ≡ all.old.items ++ rest) }
    ensures place { IfOk result (λ p. slice_get all.new.items p ≡ Some spend.now) }
{
    let count = all.len();
    if ends_with(all, spend) {
        return narrowed(count.saturating_sub(1));
    }
    all.push(*spend)?;
    narrowed(count)
}

/// The two in a list.
fn pair(alloc: Global, first: &Spend, second: &Spend) -> Result<Vec<Spend>, Memory>
    ensures { IfOk result (λ v. v.items ≡ first.now ∷ second.now ∷ []) }
{
    let mut list = Vec::with_capacity(alloc, 2)?;
    list.push(*first)?;
    list.push(*second)?;
    Ok(list)
}

/// Puts a spend of an outpoint after those of its list. Where it has none, this is its first spend.
fn put_again(
    alloc: Global,
    lists: &mut IndexMap<OutPoint, Vec<Spend>>,
    point: &OutPoint,
    first: &Spend,
    spend: &Spend,
) -> Result<(), Memory>
    ensures grown { (o : OutPoint) (other : List Spend) → OnOk result (list_at lists.new.entries o other ≡ (if same_outpoint point.now o then list_at lists.old.entries o (first.now ∷ []) ++ spend.now ∷ [] else list_at lists.old.entries o other)) }
    ensures listed { (o : OutPoint) → OnOk result (is_some (lookup (same_outpoint o) lists.new.entries) ≡ (same_outpoint point.now o || is_some (lookup (same_outpoint o) lists.old.entries))) }
    ensures kept { (o : OutPoint) (other : List Spend) → OnErr result (list_at lists.new.entries o other ≡ list_at lists.old.entries o other) }
    ensures kept_listed { (o : OutPoint) → OnErr result (is_some (lookup (same_outpoint o) lists.new.entries) ≡ is_some (lookup (same_outpoint o) lists.old.entries)) }
{
    match lists.entry(*point)? {
        Entry::Occupied(held) => {
            held.into_mut().push(*spend)?;
        }
        Entry::Vacant(place) => {
            let list = pair(alloc, first, spend)?;
            place.insert(list);
        }
    }
    Ok(())
}

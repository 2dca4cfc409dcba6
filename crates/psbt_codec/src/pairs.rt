//! Reading the maps of a PSBT, pair by pair.

ghost use Rattle.std.specs.Prelude.{◌≡◌, ◌≢◌, ◌<◌, ◌⊎◌, [], ◌∷◌, ◌++◌, false, length, Err, IfOk, IsOkAnd, OnErr, option_copied};
ghost use Rattle.fund_base.specs.Cursor.{compact_at, take_at};
ghost use Rattle.fund_base.specs.Parsing.{Yields, YieldsAll, string_at};
ghost use Rattle.psbt_codec.specs.declared.fault.PsbtFault.TheVariants.{Field, Memory as OutOfMemory};
ghost use Rattle.psbt_codec.specs.Reading.{cut, has_meaning, kind_in, unless, value_fits, has_key, form_fits, input_field_fits, spent_fits, keyed_at, pair_at, map_at, value_of};
ghost use Rattle.psbt_codec.specs.Fault.{type_fault};
ghost use Rattle.psbt_codec.specs.FirstPair.{HasFirstPair, IsInput};

use crate::fault::PsbtFault;
use crate::values::{number32_in, number64_in, paid_in, tx_in, txid_in};
use fund_base::{Cursor, CutFault, Memory};
use std::alloc::Global;
use std::collections::BTreeSet;
use std::marker::Model;

/// Whose map it is. The last two are those of version 2, which tell the input or the output itself.
#[derive(Clone, Copy, PartialEq, Eq)]
pub enum Part {
    Global,
    Input,
    Output,
    InputFields,
    OutputFields,
}

/// A key and its value.
#[derive(Drop)]
pub struct Pair<'a> {
    pub key: &'a [u8],
    pub value: &'a [u8],
}

impl<'a> Model for Pair<'a> {
    ghost use Rattle.psbt_codec.specs.Psbt.{Pair as Plain};

    ghost Value = { Plain };

    ghost view = { λ p. record { key = p.key.now; value = p.value.now } };
}

/// The pairs of a map that were read so far, and their keys in order. Each further key is looked up among these by few
/// comparisons, since a stranger's file may hold millions of pairs.
#[derive(Drop)]
struct Seen<'a> {
    pairs: Vec<Pair<'a>>,
    keys: BTreeSet<&'a [u8]>,
}

impl<'a> Model for Seen<'a> {
    ghost use Rattle.std.specs.Prelude.{List};
    ghost use Rattle.psbt_codec.specs.Psbt.{Pair as Plain};
    ghost use Rattle.psbt_codec.specs.Keys.{AreKeysOf};

    ghost Value = { List Plain };

    ghost view = { λ s. s.pairs.items };

    ghost invariant = { λ s. AreKeysOf s.pairs.items s.keys };
}

impl<'a> Seen<'a> {
    fn new(alloc: Global) -> Seen<'a>
        ensures { result ≡ [] }
    {
        Seen {
            pairs: Vec::new(alloc),
            keys: BTreeSet::new(alloc),
        }
    }

    fn has_key(&self, key: &[u8]) -> bool
        ensures { result ≡ has_key key.now self.now }
    {
        self.keys.contains(key)
    }

    /// The same and one pair more. The error is out of memory.
    fn with(self, pair: Pair<'a>) -> Result<Seen<'a>, Memory>
        ensures { IfOk result (λ seen. seen ≡ self.entry ++ pair.entry ∷ []) }
    {
        let Seen {
            mut pairs,
            mut keys,
        } = self;
        keys.insert(pair.key)?;
        pairs.push(pair)?;
        Ok(Seen { pairs, keys })
    }

    fn into_pairs(self) -> Vec<Pair<'a>>
        ensures { result.items ≡ self.entry }
    {
        let Seen { pairs, keys: _ } = self;
        pairs
    }
}

#[tactic(auto, unfolding(fund_base::specs::Parsing::string_at))]
fn string_of<'a>(cursor: &mut Cursor<'a>) -> Result<&'a [u8], PsbtFault>
    ensures gives { Yields OutOfMemory (λ b. b.now) cursor.new result (cut (string_at cursor.old)) }
    ensures never_short { result ≢ Err OutOfMemory }
{
    let len = cursor.compact()?;
    Ok(cursor.take(len)?)
}

fn has_meaning(part: Part, kind: u64) -> bool
    ensures { result ≡ has_meaning part kind }
{
    match part {
        Part::Global => kind == 0 || kind == 251,
        Part::Input => kind == 0 || kind == 1,
        Part::Output => false,
        Part::InputFields => (kind == 0 || kind == 1) || (kind == 14 || (kind == 15 || kind == 16)),
        Part::OutputFields => kind == 3 || kind == 4,
    }
}

fn type_fault(pair_place: u64, key_place: u64, fault: CutFault) -> PsbtFault
    ensures { result ≡ type_fault pair_place key_place fault }
{
    match fault {
        CutFault::Truncated(_) => PsbtFault::Field(pair_place),
        CutFault::LongCompact(_) => PsbtFault::LongCompact(key_place),
    }
}

/// The type that a key begins with; one that has a meaning is the whole key.
#[tactic(auto, unfolding(crate::specs::Reading::kind_in))]
fn kind_in(part: Part, pair_place: u64, key_place: u64, key: &[u8]) -> Result<u64, PsbtFault>
    ensures gives { YieldsAll OutOfMemory (λ n. n) result (kind_in part pair_place key_place key.now) }
    ensures never_short { result ≢ Err OutOfMemory }
{
    let mut cursor = Cursor::new(key);
    match cursor.compact() {
        Ok(kind) if has_meaning(part, kind) && !cursor.rest().is_empty() => {
            Err(PsbtFault::Field(pair_place))
        }
        Ok(kind) => Ok(kind),
        Err(fault) => Err(type_fault(pair_place, key_place, fault)),
    }
}

/// That a value is of its form. It never runs out of memory.
fn check_form(place: u64, fits: bool) -> Result<(), PsbtFault>
    ensures { result ≡ unless fits (Field place) }
{
    if fits {
        Ok(())
    } else {
        Err(PsbtFault::Field(place))
    }
}

/// Whether an input's value is of the form that its type asks for, where it tells of the spent output.
fn spent_fits(alloc: Global, kind: u64, value: &[u8]) -> Result<bool, Memory>
    ensures gives { IfOk result (λ fits. fits ≡ spent_fits kind value.now) }
    ensures short { OnErr result ((kind ≡ 0) ⊎ (kind ≡ 1)) }
{
    match kind {
        0 => Ok(tx_in(alloc, value)?.is_some()),
        1 => Ok(paid_in(alloc, value)?.is_some()),
        _ => Ok(true),
    }
}

/// The same where it tells of the input itself.
fn input_field_fits(kind: u64, value: &[u8]) -> bool
    ensures { result ≡ input_field_fits kind value.now }
{
    match kind {
        14 => txid_in(value).is_some(),
        15 | 16 => number32_in(value).is_some(),
        _ => true,
    }
}

/// Whether a value is of the form that its type asks for.
fn form_fits(alloc: Global, part: Part, kind: u64, value: &[u8]) -> Result<bool, Memory>
    ensures gives { IfOk result (λ fits. fits ≡ form_fits part kind value.now) }
    ensures short { OnErr result (IsInput part × ((kind ≡ 0) ⊎ (kind ≡ 1))) }
{
    match part {
        Part::Global if kind == 251 => Ok(number32_in(value).is_some()),
        Part::Input => spent_fits(alloc, kind, value),
        Part::InputFields => {
            let fits = spent_fits(alloc, kind, value)?;
            Ok(fits && input_field_fits(kind, value))
        }
        Part::OutputFields if kind == 3 => Ok(number64_in(value).is_some()),
        _ => Ok(true),
    }
}

/// That a value is of the form that its type asks for.
#[tactic(auto, unfolding(crate::specs::Reading::value_fits))]
fn check_value(
    alloc: Global,
    part: Part,
    place: u64,
    kind: u64,
    value: &[u8],
) -> Result<(), PsbtFault>
    ensures gives { YieldsAll OutOfMemory (λ u. u) result (value_fits part place kind value.now) }
    ensures short { result ≡ Err OutOfMemory → IsInput part × ((kind ≡ 0) ⊎ (kind ≡ 1)) }
{
    let fits = form_fits(alloc, part, kind, value)?;
    check_form(place, fits)
}

#[tactic(auto, unfolding(crate::specs::Reading::keyed_at))]
fn keyed_of<'a>(
    alloc: Global,
    part: Part,
    before: &Seen,
    place: u64,
    len: u64,
    cursor: &mut Cursor<'a>,
) -> Result<Pair<'a>, PsbtFault>
    ensures gives { Yields OutOfMemory (λ p. p) cursor.new result (keyed_at part before.now place len cursor.old) }
    ensures short { result ≡ Err OutOfMemory → IsOkAnd (take_at len cursor.old) (λ key. has_key key.0 before.now ≡ false) }
    ensures input { result ≡ Err OutOfMemory → IsInput part }
    ensures meant { result ≡ Err OutOfMemory → IsOkAnd (take_at len cursor.old) (λ key. IsOkAnd (kind_in part place cursor.old.place key.0) (λ kind. (kind ≡ 0) ⊎ (kind ≡ 1))) }
{
    let key_place = cursor.place();
    let key = cursor.take(len)?;
    if before.has_key(key) {
        return Err(PsbtFault::RepeatKey(place));
    }
    let kind = kind_in(part, place, key_place, key)?;
    let value = string_of(cursor)?;
    check_value(alloc, part, place, kind, value)?;
    Ok(Pair { key, value })
}

/// The next pair after others of its map, or none where the map ends.
#[tactic(auto, unfolding(crate::specs::Reading::pair_at))]
fn pair_of<'a>(
    alloc: Global,
    part: Part,
    before: &Seen,
    cursor: &mut Cursor<'a>,
) -> Result<Option<Pair<'a>>, PsbtFault>
    ensures gives { Yields OutOfMemory (λ o. o) cursor.new result (pair_at part before.now cursor.old) }
    ensures short { result ≡ Err OutOfMemory → IsOkAnd (compact_at cursor.old) (λ len. len.0 ≢ 0) }
    ensures input { result ≡ Err OutOfMemory → IsInput part }
{
    let place = cursor.place();
    let len = cursor.compact()?;
    if len == 0 {
        return Ok(None);
    }
    let pair = keyed_of(alloc, part, before, place, len, cursor)?;
    Ok(Some(pair))
}

/// The pairs of a map, which ends at a key without bytes. It has fewer pairs than bytes are left.
#[tactic(auto, using(crate::proofs::MapLaws::pairs_none, crate::proofs::MapLaws::pairs_more, crate::proofs::MapLaws::pairs_end, crate::proofs::MapLaws::pairs_cut))]
pub fn pairs_of<'a>(
    alloc: Global,
    part: Part,
    cursor: &mut Cursor<'a>,
) -> Result<Vec<Pair<'a>>, PsbtFault>
    ensures gives { Yields OutOfMemory (λ v. v.items) cursor.new result (map_at part cursor.old) }
    ensures short { result ≡ Err OutOfMemory → 0 < length cursor.old.rest }
    ensures begun { result ≡ Err OutOfMemory → (IsInput part → ⊥) → HasFirstPair part cursor.old }
{
    let mut seen = Seen::new(alloc);
    for _ in 0..cursor.rest().len() {
        match pair_of(alloc, part, &seen, cursor)? {
            Some(pair) => seen = seen.with(pair)?,
            None => return Ok(seen.into_pairs()),
        }
    }
    Err(PsbtFault::Truncated(cursor.place()))
}

/// The value of the pair whose key is this type.
pub fn value_of<'a>(pairs: &[Pair<'a>], kind: u8) -> Option<&'a [u8]>
    ensures { option_copied result ≡ value_of kind pairs.now }
{
    match pairs.iter().find(|pair| pair.key == [kind].as_slice()) {
        Some(pair) => Some(pair.value),
        None => None,
    }
}

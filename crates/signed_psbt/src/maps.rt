//! What a map of a PSBT has under a type, where the bytes are known to be maps.

ghost use Rattle.std.specs.Prelude.{◌≡◌, ◌<◌, ◌∷◌, ◌++◌, List, ℕ, IfSome, None, length, option_copied};
ghost use Rattle.psbt_codec.specs.Psbt.{Pair, map_text, pair_text};
ghost use Rattle.psbt_codec.specs.Reading.{value_of};
ghost use Rattle.signed_psbt.specs.Maps.{ArePairs, IsPlain, Tells, first_of};

use crate::strings::bytes_of;
use fund_base::Cursor;

/// The key and the value of the next pair, or none where the map ends.
fn pair_of<'a>(cursor: &mut Cursor<'a>) -> Option<(&'a [u8], &'a [u8])>
    ensures pair { (p : Pair) (behind : List ℕ) → IsPlain p → cursor.old.rest ≡ pair_text p ++ behind → Tells result p × (cursor.new.rest ≡ behind) }
    ensures end { (behind : List ℕ) → cursor.old.rest ≡ 0 ∷ behind → (result ≡ None) × (cursor.new.rest ≡ behind) }
    ensures shorter { IfSome result (λ _. length cursor.new.rest < length cursor.old.rest) }
{
    let Ok(key) = bytes_of(cursor) else {
        return None;
    };
    if key.is_empty() {
        return None;
    }
    let Ok(value) = bytes_of(cursor) else {
        return None;
    };
    Some((key, value))
}

/// What was found before, or else this value where its key is the type.
fn first_of<'a>(found: Option<&'a [u8]>, kind: u8, key: &[u8], value: &'a [u8]) -> Option<&'a [u8]>
    ensures { option_copied result ≡ first_of kind (option_copied found.entry) key.now value.now }
{
    match found {
        Some(value) => Some(value),
        None => {
            if key == [kind].as_slice() {
                Some(value)
            } else {
                None
            }
        }
    }
}

/// The value of the first pair whose key is this type, where the map that the cursor stands at has one. The cursor then
/// stands behind the map.
pub(crate) fn value_at<'a>(cursor: &mut Cursor<'a>, kind: u8) -> Option<&'a [u8]>
    ensures { (pairs : List Pair) (behind : List ℕ) → ArePairs pairs → cursor.old.rest ≡ map_text pairs ++ behind → (option_copied result ≡ value_of kind pairs) × (cursor.new.rest ≡ behind) }
{
    let mut found = None;
    'looking: while let Some((key, value)) = pair_of(cursor) {
        found = first_of(found, kind, key, value);
    }
    found
}

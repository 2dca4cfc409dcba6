//! The words of units.

ghost use Rattle.std.specs.Prelude.{◌≡◌, ◌≤◌, ◌||◌, map, bytes_eq, IfSome};
ghost use Rattle.std.specs.Char.{to_ascii_lowercase};
ghost use Rattle.request_making.specs.Units.{amount_places, places_of, rate_places};

/// What is spelled.
#[derive(Clone, Copy)]
pub enum Kind {
    /// An amount, counted in satoshi.
    Amount,
    /// A rate, counted in satoshi per 1,000 virtual bytes.
    Rate,
}

/// Whether the text is this word of lower-case letters, which it may spell in either case.
fn is_spelled(text: &[u8], word: &[u8]) -> bool
    requires { map to_ascii_lowercase word.now ≡ word.now }
    ensures { result ≡ bytes_eq (map to_ascii_lowercase text.now) word.now }
{
    text.eq_ignore_ascii_case(word)
}

/// Whether the unit is this word, or this word behind a blank.
fn is_word(unit: &[u8], word: &[u8], spaced: &[u8]) -> bool
    requires lower { map to_ascii_lowercase word.now ≡ word.now }
    requires spaced_lower { map to_ascii_lowercase spaced.now ≡ spaced.now }
    ensures { result ≡ (bytes_eq (map to_ascii_lowercase unit.now) word.now || bytes_eq (map to_ascii_lowercase unit.now) spaced.now) }
{
    is_spelled(unit, word) || is_spelled(unit, spaced)
}

/// How many digits may stand behind the point of a number with this unit behind it; none where the unit isn't known.
#[tactic(auto, unfolding(crate::specs::Units::places_of))]
pub fn places_of(kind: Kind, pointed: bool, unit: &[u8]) -> Option<usize>
    ensures value { result ≡ places_of kind pointed unit.now }
    ensures few { IfSome result (λ places. places ≤ 8) }
{
    match kind {
        Kind::Amount => amount_places(pointed, unit),
        Kind::Rate => rate_places(unit),
    }
}

/// The same of an amount.
fn amount_places(pointed: bool, unit: &[u8]) -> Option<usize>
    ensures value { result ≡ amount_places pointed unit.now }
    ensures few { IfSome result (λ places. places ≤ 8) }
{
    if unit.is_empty() {
        if pointed { Some(8) } else { Some(0) }
    } else if is_word(unit, b"sat", b" sat") {
        Some(0)
    } else if is_word(unit, b"btc", b" btc") {
        Some(8)
    } else {
        None
    }
}

/// The same of a rate.
fn rate_places(unit: &[u8]) -> Option<usize>
    ensures value { result ≡ rate_places unit.now }
    ensures few { IfSome result (λ places. places ≤ 8) }
{
    if unit.is_empty() || is_word(unit, b"sat/vb", b" sat/vb") {
        Some(3)
    } else {
        None
    }
}

//! Numbers as JSON texts write them.

ghost use Rattle.std.specs.Prelude.{◌≡◌, ◌==◌, false, true, option_map, slice_index};
ghost use Rattle.serde_json.specs.Read.{number_from, number_of};
ghost use Rattle.serde_json.specs.View.{number_view};

use fast_float::Numeral;
use serde_json::Number;

/// The number without a sign: whole where it has 64 bits, else the nearest float. There is none where that is infinite.
fn positive(numeral: &Numeral) -> Option<Number>
    ensures { option_map number_view result ≡ number_from false numeral.now }
{
    match numeral.to_u64() {
        Some(n) => Some(Number::from(n)),
        None => Number::from_f64(numeral.to_float::<f64>(false)),
    }
}

/// The same below zero.
fn negative(numeral: &Numeral) -> Option<Number>
    ensures { option_map number_view result ≡ number_from true numeral.now }
{
    if let Some(n) = numeral.to_i64(true) {
        if n < 0 {
            return Some(Number::from(n));
        }
    }
    Number::from_f64(numeral.to_float::<f64>(true))
}

/// Whether the first byte is a minus sign.
fn has_minus(bytes: &[u8]) -> bool
    ensures { result ≡ (slice_index bytes.now 0 == 45) }
{
    bytes.first() == Some(&b'-')
}

/// The number that a JSON text writes, as `serde_json` reads it. There is none where it is too large for a float.
pub fn number_in(text: &str) -> Option<Number>
    ensures { option_map number_view result ≡ number_of text.now }
{
    let bytes = text.as_bytes();
    if has_minus(bytes) {
        negative(&Numeral::scan(&bytes[1..]))
    } else {
        positive(&Numeral::scan(bytes))
    }
}

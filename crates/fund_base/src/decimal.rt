//! The one reader of decimal numbers.

ghost use Rattle.std.specs.Prelude.{◌≡◌, ◌↔◌, IsTrue, length, slice_index, ◌≤◌, ◌<◌, ◌+◌, ◌-◌, ◌*◌, ◌^◌, ℕ, List, IfSome, IfNone};
ghost use Rattle.std.specs.Fmt.{decimal};
ghost use Rattle.std.specs.Int.{IsInRange};
ghost use Rattle.std.specs.Str.Parse.{AllDigits, digits_value};
ghost use Rattle.fund_base.specs.Decimal.{number_of};

/// The number of at most `most` whose decimal spelling the text is: ASCII digits, no sign, no leading zero
/// but for 0 itself. None exactly where there is none.
#[tactic(auto, using(crate::proofs::Decimals::found_of, crate::proofs::Decimals::only))]
pub fn read_decimal(text: &[u8], most: u64) -> Option<u64>
    ensures value { result ≡ number_of most text.now }
    ensures found { IfSome result (λ n. (text.now ≡ decimal n) × (n ≤ most)) }
    ensures only { (n : ℕ) → n ≤ most → text.now ≡ decimal n → result ≡ Some n }
{
    number_in(text, most)
}

/// The same, as one equation.
#[tactic(auto, using(crate::proofs::Decimals::no_digit, crate::proofs::Decimals::leading_zero, crate::proofs::Decimals::reads))]
fn number_in(text: &[u8], most: u64) -> Option<u64>
    ensures { result ≡ number_of most text.now }
{
    if text.is_empty() {
        return None;
    }
    if has_leading_zero(text) {
        return None;
    }
    digits_of(text, most)
}

/// Whether a 0 stands before another byte.
fn has_leading_zero(text: &[u8]) -> bool
    ensures { IsTrue result ↔ (slice_index text.now 0 ≡ 48) × (2 ≤ length text.now) }
{
    matches!(text, [b'0', _, ..])
}

/// The number of at most `most` that these digits write. None exactly where there is none.
fn digits_of(text: &[u8], most: u64) -> Option<u64>
    ensures found { IfSome result (λ n. AllDigits 10 text.now × (n ≡ digits_value 10 text.now) × (n ≤ most)) }
    ensures none { IfNone result (AllDigits 10 text.now → most < digits_value 10 text.now) }
{
    let mut number: u64 = 0;
    for digit in text {
        number = with_digit(number, *digit, most)?;
    }
    Some(number)
}

/// The number that one digit more makes. None exactly where it is no digit or the number is above `most`.
fn with_digit(number: u64, digit: u8, most: u64) -> Option<u64>
    ensures found { IfSome result (λ n. IsInRange 48 57 digit × (n ≡ number * 10 + (digit - 48)) × (n ≤ most)) }
    ensures none { IfNone result (IsInRange 48 57 digit → most < number * 10 + (digit - 48)) }
{
    if !digit.is_ascii_digit() {
        return None;
    }
    let next = number.checked_mul(10)?.checked_add((digit - b'0') as u64)?;
    if next <= most { Some(next) } else { None }
}

/// The law of decimal numbers: a text is read as `n` exactly where it is the spelling of `n`.
pub fn reads_decimals()
    ensures found { (most : ℕ) (text : List ℕ) (n : ℕ) → number_of most text ≡ Some n → (text ≡ decimal n) × (n ≤ most) }
    ensures only { (most n : ℕ) → most < 2 ^ 64 → n ≤ most → number_of most (decimal n) ≡ Some n }
{}

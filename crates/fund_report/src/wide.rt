//! Numbers of up to 128 bits, read from their decimal digits.

ghost use Rattle.std.specs.Prelude.{◌≡◌, ◌≤◌, ◌<◌, ◌+◌, ◌-◌, ◌*◌, [], length, take, drop, IfNone, IfOk, IfSome};
ghost use Rattle.std.specs.Fmt.{decimal};
ghost use Rattle.std.specs.Int.{IsInRange};
ghost use Rattle.std.specs.Str.{bytes_eq};
ghost use Rattle.std.specs.Str.Parse.{AllDigits, digits_value};
ghost use Rattle.closing_log.specs.Gives.{Reads};
ghost use Rattle.closing_log.specs.Lines.{number_line};
ghost use Rattle.closing_log.specs.Reading.{digits_at, end_at, number_at};
ghost use Rattle.fund_base.specs.Decimal.{number_of};

use itoa::Buffer;

/// The number that one digit more makes. None exactly where it is no digit or the number is above `most`.
fn with_digit(number: u128, digit: u8, most: u128) -> Option<u128>
    ensures found { IfSome result (λ n. IsInRange 48 57 digit × (n ≡ number * 10 + (digit - 48)) × (n ≤ most)) }
    ensures none { IfNone result (IsInRange 48 57 digit → most < number * 10 + (digit - 48)) }
{
    if !digit.is_ascii_digit() {
        return None;
    }
    let next = number.checked_mul(10)?.checked_add((digit - b'0') as u128)?;
    if next <= most { Some(next) } else { None }
}

/// The number of at most `most` that these digits write. None exactly where there is none.
fn digits_of(text: &[u8], most: u128) -> Option<u128>
    ensures found { IfSome result (λ n. AllDigits 10 text.now × (n ≡ digits_value 10 text.now) × (n ≤ most)) }
    ensures none { IfNone result (AllDigits 10 text.now → most < digits_value 10 text.now) }
{
    let mut number: u128 = 0;
    for digit in text {
        number = with_digit(number, *digit, most)?;
    }
    Some(number)
}

/// Whether these bytes are how the number is written.
fn is_written(number: u128, text: &[u8]) -> bool
    ensures { result ≡ bytes_eq text.now (decimal number) }
{
    let mut buffer = Buffer::new();
    text == buffer.format(number).as_bytes()
}

/// The number of at most `most` whose decimal spelling the text is. None exactly where there is none.
#[tactic(auto, using(crate::proofs::WideNumbers::read_written, crate::proofs::WideNumbers::read_other, crate::proofs::WideNumbers::read_none))]
fn read_wide(text: &[u8], most: u128) -> Option<u128>
    ensures value { result ≡ number_of most text.now }
    ensures bound { IfSome result (λ n. n ≤ most) }
{
    let number = match digits_of(text, most) {
        Some(number) => number,
        None => return None,
    };
    if is_written(number, text) {
        Some(number)
    } else {
        None
    }
}

/// How many bytes still are a number of at most `most`.
#[tactic(auto, using(closing_log::proofs::Loops::digits_more, closing_log::proofs::Loops::digits_end, closing_log::proofs::Loops::digits_all))]
fn wide_len(bytes: &[u8], most: u128) -> usize
    ensures within { result ≤ length bytes.now }
    ensures value { digits_at most [] bytes.now ≡ (take result bytes.now, drop result bytes.now) }
{
    for i in 0..bytes.len() {
        if read_wide(&bytes[..i + 1], most).is_none() {
            return i;
        }
    }
    bytes.len()
}

/// The byte after a number, if it is one of `ends`.
#[tactic(auto, unfolding(closing_log::specs::Reading::end_at))]
fn read_end<'a>(
    number: u128,
    bytes: &'a [u8],
    ends: &[u8],
) -> Result<((u128, u8), &'a [u8]), &'a [u8]>
    ensures value { Reads (λ x. (x.0, x.1.now)) result (end_at ends.now number bytes.now) }
    ensures same { IfOk result (λ x. x.0.0 ≡ number) }
{
    match bytes {
        [end, rest @ ..] if ends.contains(end) => Ok(((number, *end), rest)),
        _ => Err(bytes),
    }
}

/// A decimal number of at most `most` without a leading zero, and one of the bytes `ends` after it.
#[tactic(auto, unfolding(closing_log::specs::Reading::number_at))]
fn read_ended<'a>(
    bytes: &'a [u8],
    most: u128,
    ends: &[u8],
) -> Result<((u128, u8), &'a [u8]), &'a [u8]>
    ensures value { Reads (λ x. (x.0, x.1.now)) result (number_at most ends.now bytes.now) }
    ensures bound { IfOk result (λ x. x.0.0 ≤ most) }
{
    let (digits, rest) = bytes.split_at(wide_len(bytes, most));
    match read_wide(digits, most) {
        Some(number) => read_end(number, rest, ends),
        None => Err(rest),
    }
}

/// A decimal number of at most `most` without a leading zero, and a line feed. The error is what is left where no
/// such line goes on as the bytes do.
pub(crate) fn read_wide_line(bytes: &[u8], most: u128) -> Result<(u128, &[u8]), &[u8]>
    ensures value { Reads (λ x. (x.0, x.1.now)) result (number_line most bytes.now) }
    ensures bound { IfOk result (λ x. x.0 ≤ most) }
{
    let ((number, _), rest) = read_ended(bytes, most, b"\n")?;
    Ok((number, rest))
}

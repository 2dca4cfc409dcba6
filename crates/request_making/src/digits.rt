//! Digits: how many a text begins with, and the number that they write.

ghost use Rattle.std.specs.Prelude.{◌≡◌, ◌≤◌, ◌<◌, ◌+◌, ◌-◌, ◌*◌, ◌^◌, length};
ghost use Rattle.std.specs.Char.{is_ascii_digit};
ghost use Rattle.std.specs.Int.{IsInRange};
ghost use Rattle.std.specs.List.{prefix_len};
ghost use Rattle.std.specs.Option.{SomeIff};
ghost use Rattle.std.specs.Str.Parse.{AllDigits, digits_value};

/// How many digits the text begins with.
pub fn digits_len(text: &[u8]) -> usize
    ensures count { result ≡ prefix_len is_ascii_digit text.now }
    ensures within { result ≤ length text.now }
{
    for (i, byte) in text.iter().enumerate() {
        if !byte.is_ascii_digit() {
            return i;
        }
    }
    text.len()
}

/// The number that one digit more makes. None exactly where it is 2^64 or more.
fn with_digit(number: u64, digit: u8) -> Option<u64>
    requires { IsInRange 48 57 digit }
    ensures { SomeIff result (number * 10 + (digit - 48) < 2 ^ 64) (number * 10 + (digit - 48)) }
{
    number.checked_mul(10)?.checked_add((digit - b'0') as u64)
}

/// The number that these digits write. None exactly where it is 2^64 or more.
pub fn number_of(digits: &[u8]) -> Option<u64>
    requires { AllDigits 10 digits.now }
    ensures { SomeIff result (digits_value 10 digits.now < 2 ^ 64) (digits_value 10 digits.now) }
{
    let mut number: u64 = 0;
    for digit in digits {
        number = with_digit(number, *digit)?;
    }
    Some(number)
}

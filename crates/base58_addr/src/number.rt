//! Numbers below 2^200, which 25 bytes write, and their digits in the bases 58 and 256.

ghost use Rattle.std.specs.Prelude.{◌≡◌, ◌<◌, ◌≤◌, ◌+◌, ◌*◌, ◌/◌, ◌%◌, ◌^◌, ◌==◌, ◌↔◌, IfSome, IsNone, IsTrue, length, map};
ghost use Rattle.std.specs.Int.Digits.{number_from_digits, AllBelowBase};
ghost use Rattle.base58_addr.specs.Base58.{value_of};
ghost use Rattle.base58_addr.specs.Rebasing.{leading, joined};

use crate::base58::value;

/// The number `high * 2^96 + low`.
#[derive(Clone, Copy)]
pub(crate) struct Number {
    high: u128,
    low: u128,
}

/// The number with one digit more at its end.
fn with_digit(number: Number, base: u128, digit: u8) -> Number
    requires high { number.high < 2 ^ 104 }
    requires low { number.low < 2 ^ 96 }
    requires base { base ≤ 256 }
    ensures value { joined result.high result.low ≡ joined number.high number.low * base + digit }
    ensures most { joined result.high result.low ≤ joined number.high number.low * base + 255 }
    ensures low { result.low < 2 ^ 96 }
{
    let sum = number.low * base + u128::from(digit);
    let carry = sum / (1 << 96);
    let high = number.high * base + carry;
    let low = sum % (1 << 96);
    Number { high, low }
}

/// The number that a text's letters write in base 58. None exactly where it isn't below 2^200.
#[tactic(auto, using(crate::proofs::Numbers::letters_more, crate::proofs::Numbers::letters_rise))]
pub(crate) fn number_of_letters(text: &[u8]) -> Option<Number>
    ensures value { IfSome result (λ n. joined n.high n.low ≡ number_from_digits 58 (map value_of text.now)) }
    ensures high { IfSome result (λ n. n.high < 2 ^ 104) }
    ensures low { IfSome result (λ n. n.low < 2 ^ 96) }
    ensures none { IsNone result → 2 ^ 200 ≤ number_from_digits 58 (map value_of text.now) }
{
    let mut number = Number { high: 0, low: 0 };
    for c in text {
        let next = with_digit(number, 58, value(*c));
        if next.high >= 1 << 104 {
            return None;
        }
        number = next;
    }
    Some(number)
}

/// The number that at most 25 bytes write in base 256.
pub(crate) fn number_of_bytes(bytes: &[u8]) -> Number
    requires most { length bytes.now ≤ 25 }
    ensures value { joined result.high result.low ≡ number_from_digits 256 bytes.now }
    ensures high { result.high < 2 ^ 104 }
    ensures low { result.low < 2 ^ 96 }
{
    let mut number = Number { high: 0, low: 0 };
    for byte in bytes {
        number = with_digit(number, 256, *byte);
    }
    number
}

/// The number without its last digit.
fn without_digit(number: Number, base: u128) -> Number
    requires low { number.low < 2 ^ 96 }
    requires least { 1 ≤ base }
    requires most { base ≤ 256 }
    ensures value { joined result.high result.low ≡ joined number.high number.low / base }
    ensures high { result.high ≤ number.high }
    ensures low { result.low < 2 ^ 96 }
{
    let high = number.high / base;
    let rest = number.high % base * (1 << 96) + number.low;
    let low = rest / base;
    Number { high, low }
}

/// The last digit of the number.
fn last_digit(number: Number, base: u128) -> u8
    requires low { number.low < 2 ^ 96 }
    requires least { 1 ≤ base }
    requires most { base ≤ 256 }
    ensures value { result ≡ joined number.high number.low % base }
    ensures fits { result < base }
{
    let rest = number.high % base * (1 << 96) + number.low;
    (rest % base) as u8
}

/// Writes the digits of the number, with zeros before them.
pub(crate) fn put_digits(number: Number, base: u128, room: &mut [u8])
    requires low { number.low < 2 ^ 96 }
    requires least { 2 ≤ base }
    requires most { base ≤ 256 }
    requires fits { joined number.high number.low < base ^ length room.old }
    ensures value { number_from_digits base room.new ≡ joined number.high number.low }
    ensures digits { AllBelowBase base room.new }
{
    let mut left = number;
    for i in 0..room.len() {
        let place = room.len() - 1 - i;
        room[place] = last_digit(left, base);
        left = without_digit(left, base);
    }
}

/// How many zeros a row begins with.
pub(crate) fn zeros(row: &[u8]) -> usize
    ensures { result ≡ length (leading row.now) }
{
    row.iter().take_while(|d| **d == 0).count()
}

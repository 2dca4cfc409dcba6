//! Reading amounts and rates.

ghost use Rattle.std.specs.Prelude.{◌≡◌, ◌≤◌, ◌<◌, ◌+◌, ◌-◌, ◌^◌, length, IfSome};
ghost use Rattle.std.specs.Option.{SomeIff};
ghost use Rattle.std.specs.Str.Parse.{AllDigits};
ghost use Rattle.request_making.specs.Spelled.{pointed, spelled, valued};
ghost use Rattle.request_making.specs.Spelling.{scaled};
ghost use Rattle.request_making.specs.declared.unit.Kind.TheVariants.{Amount, Rate};

use crate::digits::{digits_len, number_of};
use crate::fault::SpellingFault;
use crate::unit::{Kind, places_of};
use fund_base::MAX_MONEY;

/// The greatest rate of a request, in satoshi per 1,000 virtual bytes.
const MAX_RATE: u64 = 100_000_000;

/// The value of the digits before and behind a point, in parts of which 10^places make one. None exactly where it is
/// 2^64 or more.
fn scaled(places: usize, whole: &[u8], fraction: &[u8]) -> Option<u64>
    requires few { places ≤ 8 }
    requires fine { length fraction.now ≤ places }
    requires whole_digits { AllDigits 10 whole.now }
    requires fraction_digits { AllDigits 10 fraction.now }
    ensures { SomeIff result (scaled places whole.now fraction.now < 2 ^ 64) (scaled places whole.now fraction.now) }
{
    let ones = number_of(whole)?.checked_mul(10u64.pow(places as u32))?;
    let parts = number_of(fraction)?.checked_mul(10u64.pow((places - fraction.len()) as u32))?;
    ones.checked_add(parts)
}

/// The number of these digits, at most `most`, whose unit has these places and stands at this place of the text.
#[tactic(auto, unfolding(crate::specs::Spelled::valued))]
fn valued(
    most: u64,
    place: usize,
    places: Option<usize>,
    whole: &[u8],
    fraction: &[u8],
) -> Result<u64, SpellingFault>
    requires few { IfSome places (λ n. n ≤ 8) }
    requires room { length whole.now + 9 + length fraction.now < 2 ^ 64 }
    requires whole_digits { AllDigits 10 whole.now }
    requires fraction_digits { AllDigits 10 fraction.now }
    ensures { result ≡ valued most place places whole.now fraction.now }
{
    match places {
        None => Err(SpellingFault::Unit(place)),
        Some(places) => {
            if places < fraction.len() {
                return Err(SpellingFault::Fine(whole.len() + 1 + places));
            }
            match scaled(places, whole, fraction) {
                Some(number) if number <= most => Ok(number),
                _ => Err(SpellingFault::Range),
            }
        }
    }
}

/// The number of these digits and of what stands behind their point.
#[tactic(auto, unfolding(crate::specs::Spelled::pointed))]
fn pointed(kind: Kind, most: u64, whole: &[u8], behind: &[u8]) -> Result<u64, SpellingFault>
    requires room { length whole.now + 1 + length behind.now < 2 ^ 63 }
    requires whole_digits { AllDigits 10 whole.now }
    ensures { result ≡ pointed kind most whole.now behind.now }
{
    let n = digits_len(behind);
    if n == 0 {
        return Err(SpellingFault::Digit(whole.len() + 1));
    }
    let (fraction, unit) = behind.split_at(n);
    valued(
        most,
        whole.len() + 1 + n,
        places_of(kind, true, unit),
        whole,
        fraction,
    )
}

/// The number of at most `most` that the text spells.
#[tactic(auto, unfolding(crate::specs::Spelled::spelled))]
fn spelled(kind: Kind, most: u64, text: &[u8]) -> Result<u64, SpellingFault>
    ensures { result ≡ spelled kind most text.now }
{
    let n = digits_len(text);
    if n == 0 {
        return Err(SpellingFault::Digit(0));
    }
    let (whole, rest) = text.split_at(n);
    match rest {
        [b'.', behind @ ..] => pointed(kind, most, whole, behind),
        _ => valued(most, n, places_of(kind, false, rest), whole, &[]),
    }
}

/// The amount that the text spells, in satoshi, at most 21,000,000 bitcoin. Behind the number stands `sat` or `btc`, in
/// letters of either case and after one blank or none. Without a unit a number with a point is of bitcoin, and one
/// without is of satoshi. Nothing is rounded. The faults come in this order: [`SpellingFault::Digit`],
/// [`SpellingFault::Unit`], [`SpellingFault::Fine`], [`SpellingFault::Range`].
pub fn read_amount(text: &[u8]) -> Result<u64, SpellingFault>
    // The amount, or the first fault, as the law of spellings says of each text.
    ensures exact { result ≡ spelled Amount MAX_MONEY text.now }
{
    spelled(Kind::Amount, MAX_MONEY, text)
}

/// The rate that the text spells, in satoshi per 1,000 virtual bytes, at most 100,000,000. It is spelled in satoshi per
/// virtual byte, with at most three digits behind the point, and with `sat/vB` behind it or nothing. The faults are
/// those of an amount, in the same order.
pub fn read_rate(text: &[u8]) -> Result<u64, SpellingFault>
    ensures exact { result ≡ spelled Rate MAX_RATE text.now }
{
    spelled(Kind::Rate, MAX_RATE, text)
}

//! How many coins are of a class, and what they are worth together.

ghost use Rattle.std.specs.Prelude.{◌≡◌, ◌≤◌};
ghost use Rattle.coin_totals.specs.Totals.{count_of, one_of, total_of, value_of, worth_of};

use crate::class::{CoinClass, same_class};
use crate::classes::ClassedCoin;

/// What coins come to.
#[derive(Clone, Copy)]
pub struct Total {
    /// How many they are.
    pub count: u64,
    /// What they are worth together, in satoshi.
    pub value: u128,
}

/// One where the coin is of the class, and otherwise nothing.
fn one_of(class: CoinClass, coin: &ClassedCoin) -> u64
    ensures value { result ≡ one_of class coin.now }
    ensures most { result ≤ 1 }
{
    if same_class(class, coin.class) { 1 } else { 0 }
}

/// The coin's value, in satoshi, where it is of the class, and otherwise nothing.
fn worth_of(class: CoinClass, coin: &ClassedCoin) -> u64
    ensures { result ≡ worth_of class coin.now }
{
    if same_class(class, coin.class) {
        coin.value
    } else {
        0
    }
}

/// How many of the coins are of the class.
fn count_of(class: CoinClass, coins: &[ClassedCoin]) -> u64
    ensures { result ≡ count_of class coins.now }
{
    let mut count: u64 = 0;
    for coin in coins {
        count += one_of(class, coin);
    }
    count
}

/// What those of the class are worth together, in satoshi.
fn value_of(class: CoinClass, coins: &[ClassedCoin]) -> u128
    ensures { result ≡ value_of class coins.now }
{
    let mut value: u128 = 0;
    for coin in coins {
        value += u128::from(worth_of(class, coin));
    }
    value
}

/// What the coins of a class come to.
pub fn total_of(class: CoinClass, coins: &[ClassedCoin]) -> Total
    ensures { result ≡ total_of class coins.now }
{
    Total {
        count: count_of(class, coins),
        value: value_of(class, coins),
    }
}

//! How the coins of a payment stand to one another, and to the presets, which each payment spends.

ghost use Rattle.std.specs.Prelude.{◌↔◌, IsTrue};
ghost use Rattle.fund_steps.specs.Selection.{AreSorted};
ghost use Rattle.report_check.specs.Paying.{HasCoinOf, HasEach, IsBelow};

use coin_candidates::Candidate;

/// Whether a coin's outpoint comes before that of the first of the others, where there is one.
fn is_below(coin: &Candidate, rest: &[Candidate]) -> bool
    ensures { IsTrue result ↔ IsBelow coin.now rest.now }
{
    match rest {
        [] => true,
        [next, ..] => coin.coin.cmp(&next.coin).is_lt(),
    }
}

/// Whether coins stand in the order of their outpoints, no outpoint twice.
fn are_sorted(coins: &[Candidate]) -> bool
    ensures { IsTrue result ↔ AreSorted coins.now }
{
    'rising: for i in 0..coins.len() {
        if !is_below(&coins[i], &coins[i + 1..]) {
            return false;
        }
    }
    true
}

/// Whether one of the coins is at the outpoint of another coin. They stand in the order of their outpoints.
fn has_coin_of(coins: &[Candidate], coin: &Candidate) -> bool
    requires { AreSorted coins.now }
    ensures { IsTrue result ↔ HasCoinOf coins.now coin.now }
{
    coins
        .binary_search_by_key(&coin.coin, |own| own.coin)
        .is_ok()
}

/// Whether one of the coins is at the outpoint of each of the given coins. They stand in the order of their outpoints.
fn has_each(coins: &[Candidate], given: &[Candidate]) -> bool
    requires { AreSorted coins.now }
    ensures { IsTrue result ↔ HasEach coins.now given.now }
{
    'having: for coin in given {
        if !has_coin_of(coins, coin) {
            return false;
        }
    }
    true
}

/// Whether coins stand in the order of their outpoints, no outpoint twice, with one at that of each of the given coins.
pub(crate) fn are_own(coins: &[Candidate], given: &[Candidate]) -> bool
    ensures { IsTrue result ↔ (AreSorted coins.now × HasEach coins.now given.now) }
{
    are_sorted(coins) && has_each(coins, given)
}

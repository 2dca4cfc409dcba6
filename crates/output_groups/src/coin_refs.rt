//! Coins that are lent from a list of candidates.

ghost use Rattle.std.specs.Prelude.{◌≡◌};

use coin_candidates::Candidate;
use std::marker::Model;

/// A coin in the list where it stands: a copy of it takes no script. It is seen as the coin.
#[derive(Drop)]
pub struct CoinRef<'a> {
    coin: &'a Candidate,
}

impl<'a> Model for CoinRef<'a> {
    ghost use Rattle.coin_candidates.specs.declared.candidate.Candidate.{Candidate};

    ghost Value = { Candidate };

    ghost view = { λ l. l.coin.now };
}

impl<'a> CoinRef<'a> {
    /// The coin, lent.
    pub fn new(coin: &'a Candidate) -> CoinRef<'a>
        ensures { result ≡ coin.now }
    {
        CoinRef { coin }
    }

    /// The coin.
    pub fn coin(&self) -> &'a Candidate
        ensures { result.now ≡ self.now }
    {
        self.coin
    }
}

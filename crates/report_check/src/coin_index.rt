//! Coins that are found by their outpoints.

ghost use Rattle.std.specs.Prelude.{◌≡◌, IfOk, option_copied};
ghost use Rattle.report_check.specs.Finding.{ArePlaces, IsCoinAt};

use coin_candidates::Candidate;
use fund_base::{Memory, OutPoint};
use indexmap::IndexMap;
use std::alloc::Global;
use std::marker::Model;

/// Coins, and where they stand by their outpoints. It is seen as the coins.
#[derive(Drop)]
pub(crate) struct CoinIndex<'a> {
    coins: &'a [Candidate],
    places: IndexMap<OutPoint, usize>,
}

impl<'a> Model for CoinIndex<'a> {
    ghost use Rattle.std.specs.Prelude.{List};
    ghost use Rattle.coin_candidates.specs.declared.candidate.Candidate.{Candidate};
    ghost use Rattle.report_check.specs.Finding.{ArePlaces};

    ghost Value = { List Candidate };

    ghost view = { λ i. i.coins.now };

    ghost invariant = { λ i. ArePlaces i.coins.now i.places.entries };
}

/// Where coins stand by their outpoints; of two at one outpoint the later one. The error is out of memory.
fn places_of(alloc: Global, coins: &[Candidate]) -> Result<IndexMap<OutPoint, usize>, Memory>
    ensures { IfOk result (λ m. ArePlaces coins.now m.entries) }
{
    let mut places = IndexMap::new(alloc);
    'placing: for i in 0..coins.len() {
        places.insert(coins[i].coin, i)?;
    }
    Ok(places)
}

impl<'a> CoinIndex<'a> {
    /// These coins, each of which is found by its outpoint. The error is out of memory.
    pub(crate) fn new(alloc: Global, coins: &'a [Candidate]) -> Result<CoinIndex<'a>, Memory>
        ensures { IfOk result (λ i. i ≡ coins.now) }
    {
        let places = places_of(alloc, coins)?;
        Ok(CoinIndex { coins, places })
    }

    /// One of the coins at an outpoint, if there is one.
    pub(crate) fn coin_at(&self, point: &OutPoint) -> Option<&'a Candidate>
        ensures { IsCoinAt self.now point.now (option_copied result) }
    {
        match self.places.get(point) {
            Some(place) => self.coins.get(*place),
            None => None,
        }
    }
}

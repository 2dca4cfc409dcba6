//! What of a chain is kept.

ghost use Rattle.std.specs.Prelude.{◌≡◌, ◌↔◌, Some, true};
ghost use Rattle.coin_book.specs.Watched.{everything, watches, watches_txid};

use fund_base::{OutPoint, Txid};
use indexmap::IndexSet;
use std::marker::Model;

/// The outpoints whose spends are kept, and the txids whose heights are: all of them, or those that are named.
#[derive(Drop)]
pub struct Watched {
    // all, where there is no set
    points: Option<IndexSet<OutPoint>>,
    txids: Option<IndexSet<Txid>>,
}

impl Model for Watched {
    ghost use Rattle.std.specs.Prelude.{option_map};
    ghost use Rattle.coin_book.specs.Watched.{PlainWatched};

    ghost Value = { PlainWatched };

    ghost view = { λ w. record { points = option_map (λ s. s.keys) w.points; txids = option_map (λ s. s.keys) w.txids } };
}

impl Watched {
    /// All outpoints and all txids.
    pub fn everything() -> Watched
        ensures { result ≡ everything }
    {
        Watched {
            points: None,
            txids: None,
        }
    }

    /// These outpoints and these txids.
    pub fn these(points: IndexSet<OutPoint>, txids: IndexSet<Txid>) -> Watched
        ensures { result ≡ record { points = Some points.keys; txids = Some txids.keys } }
    {
        Watched {
            points: Some(points),
            txids: Some(txids),
        }
    }

    /// Whether it is all outpoints and all txids.
    pub fn is_everything(&self) -> bool
        ensures { (result ≡ true) ↔ (self.now ≡ everything) }
    {
        self.points.is_none() && self.txids.is_none()
    }

    /// Whether what spends the outpoint is kept.
    #[tactic(auto, unfolding(crate::specs::Watched::watches))]
    pub fn has(&self, point: &OutPoint) -> bool
        ensures { result ≡ watches self.now point.now }
    {
        match &self.points {
            Some(points) => points.contains(point),
            None => true,
        }
    }

    /// Whether the height of the txid is kept.
    #[tactic(auto, unfolding(crate::specs::Watched::watches_txid))]
    pub fn has_txid(&self, txid: &Txid) -> bool
        ensures { result ≡ watches_txid self.now txid.now }
    {
        match &self.txids {
            Some(txids) => txids.contains(txid),
            None => true,
        }
    }
}

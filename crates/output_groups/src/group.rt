//! Groups of coins.

ghost use Rattle.std.specs.Prelude.{◌≡◌};

use coin_candidates::Candidate;
use std::marker::Model;

/// Coins that are used together or not at all. It is seen as the list of its coins.
#[derive(Drop)]
pub struct Group {
    items: Vec<Candidate>,
}

impl Model for Group {
    ghost use Rattle.std.specs.Prelude.{List};
    ghost use Rattle.coin_candidates.specs.declared.candidate.Candidate.{Candidate};

    ghost Value = { List Candidate };

    ghost view = { λ g. g.items.items };
}

impl Group {
    /// The group of these coins.
    pub fn new(items: Vec<Candidate>) -> Group
        ensures { result ≡ items.items }
    {
        Group { items }
    }

    /// The coins, in order.
    pub fn as_slice(&self) -> &[Candidate]
        ensures { result.now ≡ self.now }
    {
        self.items.as_slice()
    }
}

//! The book of a wallet, in no more memory than the wallet needs.

ghost use Rattle.std.specs.Prelude.{◌≡◌, ◌↔◌, IfSome, None};
ghost use Rattle.coin_book.specs.Asked.{HasUnwatchedCoin};
ghost use Rattle.coin_book.specs.Faults.{fault_of};

use crate::known::Known;
use crate::watching::Watching;
use std::marker::Model;

/// The book of a wallet, which answers what the wallet may ask of the chain: what spends an outpoint at which a coin
/// stands or that a pending transaction spends, and at which height a pending transaction stands.
#[derive(Drop)]
pub struct WalletBook {
    watching: Watching,
}

impl Model for WalletBook {
    ghost use Rattle.coin_book.specs.Asked.{Suffices};
    ghost use Rattle.coin_book.specs.History.{History};

    ghost Value = { History };

    ghost view = { λ b. b.watching.history };

    ghost invariant = { λ b. Suffices b.watching };
}

impl WalletBook {
    /// The book of what was watched. None exactly where an outpoint at which a coin stands isn't watched.
    pub fn settled(watching: Watching) -> Option<WalletBook>
        ensures made { IfSome result (λ book. book ≡ watching.history) }
        ensures unwatched { (result ≡ None) ↔ HasUnwatchedCoin watching }
    {
        if watching.watches_coins() {
            Some(WalletBook { watching })
        } else {
            None
        }
    }

    /// The book, as its wallet asks it.
    pub fn known(&self) -> Known<'_>
        ensures { result ≡ self.now }
    {
        Known::of(&self.watching)
    }

    /// That no book has a history with a fault. A call does nothing.
    pub fn keeps_rules(&self)
        ensures { fault_of self.now ≡ None }
    {
        self.watching.len();
    }
}

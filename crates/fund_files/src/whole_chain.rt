//! A wallet, all that its chain spends, and where its chain ends.

ghost use Rattle.std.specs.Prelude.{◌≡◌, ◌≤◌, IfOk};
ghost use Rattle.coin_candidates.specs.Candidates.{AreCandidates};
ghost use Rattle.payment_states.specs.Candidates.{candidates_of};
ghost use Rattle.payment_states.specs.Payments.{payments_of};
ghost use Rattle.fund_files.specs.Chain.{IsChain};

use crate::chain::Tip;
use coin_book::Book;
use coin_candidates::Candidate;
use fund_base::Memory;
use payment_states::{States, all_states, candidates};
use std::alloc::Global;
use std::marker::Model;
use wallet_text::Wallet;

/// What a [`Chain`](crate::Chain) is, with a book that keeps all that the chain spends. So a transaction that comes to wait
/// later meets what spends its inputs, and its own confirmation.
#[derive(Drop)]
pub struct WholeChain {
    /// The wallet.
    pub wallet: Wallet,
    /// The coins of the wallet, of the blocks and of pending transactions, and all that the chain spends.
    pub book: Book,
    /// The last block, or the wallet's where there is none.
    pub tip: Tip,
}

impl Model for WholeChain {
    ghost use Rattle.fund_files.specs.declared.chain.Chain.{Chain};

    ghost Value = { Chain };

    ghost view = { λ k. record { wallet = k.wallet; book = k.book; tip = k.tip } };
}

impl WholeChain {
    /// What has become of the pending payments, and the coins that may be spent, as
    /// [`Chain::states_and_coins`](crate::Chain::states_and_coins) gives them.
    pub fn states_and_coins(
        &self,
        alloc: Global,
        rate: u64,
    ) -> Result<(States, Vec<Candidate>), Memory>
        requires held { IsChain self.now }
        requires rate { rate ≤ 100_000_000 }
        ensures states { IfOk result (λ r. r.0 ≡ payments_of self.now.wallet self.now.book) }
        ensures coins { IfOk result (λ r. r.1.items ≡ candidates_of self.now.wallet self.now.book self.now.tip.height rate) }
        ensures fit { IfOk result (λ r. AreCandidates r.1.items) }
    {
        let states = all_states(alloc, &self.book, &self.wallet)?;
        let tip = self.tip.height;
        let coins = candidates(alloc, &self.book, &self.wallet, &states, tip, rate)?;
        Ok((states, coins))
    }
}

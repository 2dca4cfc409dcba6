//! A wallet, its coins, and where its chain ends.

ghost use Rattle.std.specs.Prelude.{◌≡◌, ◌≤◌, IfOk};
ghost use Rattle.coin_candidates.specs.Candidates.{AreCandidates};
ghost use Rattle.payment_states.specs.Candidates.{candidates_of};
ghost use Rattle.payment_states.specs.Payments.{payments_of};
ghost use Rattle.fund_files.specs.Chain.{IsChain};

use coin_book::WalletBook;
use coin_candidates::Candidate;
use fund_base::Memory;
use payment_states::{States, known_candidates, known_states};
use std::alloc::Global;
use wallet_text::Wallet;

/// Where a chain ends.
#[derive(Clone, Copy)]
pub struct Tip {
    /// The height of the last block.
    pub height: u32,
    /// Its hash, as a header holds it.
    pub hash: [u8; 32],
}

/// A wallet, the book of what it and the blocks behind it hold, and where its chain ends.
#[derive(Drop)]
pub struct Chain {
    /// The wallet.
    pub wallet: Wallet,
    /// The coins of the wallet, of the blocks and of pending transactions, and what a wallet asks of the chain.
    pub book: WalletBook,
    /// The last block, or the wallet's where there is none.
    pub tip: Tip,
}

impl Chain {
    /// What has become of the pending payments, and the coins that may be spent, with their prices at a rate of at most
    /// 100,000,000 satoshi per 1,000 virtual bytes.
    pub fn states_and_coins(
        &self,
        alloc: Global,
        rate: u64,
    ) -> Result<(States, Vec<Candidate>), Memory>
        requires held { IsChain self.now }
        requires rate { rate ≤ 100_000_000 }
        ensures states { IfOk result (λ r. r.0 ≡ payments_of self.now.wallet self.now.book) }
        ensures coins { IfOk result (λ r. r.1.items ≡ candidates_of self.now.wallet self.now.book self.now.tip.height rate) }
        ensures fit { IfOk result (λ r. AreCandidates r.1.items) }
    {
        let book = self.book.known();
        let states = known_states(alloc, &book, &self.wallet)?;
        let tip = self.tip.height;
        let coins = known_candidates(alloc, &book, &self.wallet, &states, tip, rate)?;
        Ok((states, coins))
    }
}

//! Laws of the history that a book is made from.

ghost use Rattle.std.specs.Prelude.{◌≡◌, ◌≢◌, ◌<◌, ◌≤◌, ◌↔◌, ℕ, [], List, Contains, Option, Some, None, IfSome, length, take, true};
ghost use Rattle.std.specs.List.{AllPairs};
ghost use Rattle.fund_base.specs.declared.outpoint.OutPoint.{OutPoint};
ghost use Rattle.tx_codec.specs.Transaction.{Transaction};
ghost use Rattle.block_feed.specs.Block.{ChainBlock};
ghost use Rattle.wallet_text.specs.PlainWallet.{PlainWallet};
ghost use Rattle.coin_book.specs.Asked.{Suffices, WatchesWallet};
ghost use Rattle.coin_book.specs.Events.{ComesTo, Event};
ghost use Rattle.coin_book.specs.Coins.{Made, coins_of, confirmed_made, made_in};
ghost use Rattle.coin_book.specs.Faults.{fault_of, points};
ghost use Rattle.coin_book.specs.History.{Confirmed, History, with_block, with_pending};
ghost use Rattle.coin_book.specs.Outputs.{IsCoinOf};
ghost use Rattle.coin_book.specs.Repeats.{AreApart, IsFirstRepeat};
ghost use Rattle.coin_book.specs.Spends.{IsSpendOf, spends_of};
ghost use Rattle.coin_book.specs.Watched.{PlainWatched, WatchedHistory, watches, watches_txid};
ghost use Rattle.coin_book.specs.declared.coin.Spend.{Spend};
ghost use Rattle.coin_book.specs.declared.fault.BookFault.{BookFault};

/// The law of calls: after any calls of [`Book::add_block`](crate::Book::add_block) and
/// [`Book::add_pending`](crate::Book::add_pending) the book is made from the wallet's earlier transactions, then those
/// of all blocks, and from all pending transactions, each in the order in which they were added. So its coins, and what
/// `spends`, `parent` and `height` give, are the same however the calls of the two kinds stood among one another.
pub fn order_of_calls()
    ensures { (w : PlainWallet) (events : List Event) → ComesTo w events }
{}

/// The law of longer histories: what is wrong with a history is also wrong with a longer one, with more blocks where
/// none waits yet, and with more that wait. So the first call that refuses has the fault of all that was to be added.
pub fn first_fault_stays()
    ensures blocks { (h : History) (b : ChainBlock) (e : BookFault) → h.pending ≡ [] → fault_of h ≡ Some e → fault_of (with_block h b) ≡ Some e }
    ensures waiting { (h : History) (t : Transaction) (e : BookFault) → fault_of h ≡ Some e → fault_of (with_pending h t) ≡ Some e }
{}

/// The law of histories without a fault: a history has none exactly where no outpoint is a confirmed coin twice and
/// there are at most 100,000 coins. So this is so of each book.
pub fn no_fault_without_repeats()
    ensures { (h : History) → (fault_of h ≡ None) ↔ (AllPairs (λ (a b : OutPoint). a ≢ b) (points (confirmed_made h)) × (length (coins_of h) ≤ 100_000)) }
{}

/// The law of spends: those of an outpoint are the confirmed transactions with an input that spends it, but for one before
/// which another of its txid stands that spends the outpoint too. They stand by rising places, so each once.
pub fn spends_by_inputs()
    ensures told { (chain : List Confirmed) (o : OutPoint) (s : Spend) → Contains (spends_of chain o) s ↔ IsSpendOf chain o s }
    ensures order { (chain : List Confirmed) (o : OutPoint) → AllPairs (λ (a b : Spend). a.place < b.place) (spends_of chain o) }
{}

/// The law of what is watched: what a wallet may ask is kept exactly where each outpoint is watched at which a coin stands,
/// and of each pending transaction the txid and the outpoints that it spends. Watched are those that are listed, or all where
/// there is no list.
pub fn watched_set_suffices()
    ensures whole { (v : WatchedHistory) → Suffices v ↔ WatchesWallet v }
    ensures points { (w : PlainWatched) (o : OutPoint) → (watches w o ≡ true) ↔ IfSome w.points (λ (os : List OutPoint). Contains os o) }
    ensures txids { (w : PlainWatched) (txid : List ℕ) → (watches_txid w txid ≡ true) ↔ IfSome w.txids (λ (ts : List (List ℕ)). Contains ts txid) }
{}

/// The law of coins: those of a transaction are its outputs that pay a listed script, at an index of at most
/// 4,294,967,295. They stand by rising indices, so each once. The transaction's height is given, and the listed scripts
/// with their weights.
pub fn coins_by_outputs()
    ensures told { (weigh : List ℕ → Option ℕ) (height : Option ℕ) (t : Transaction) (m : Made) → Contains (made_in weigh height t) m ↔ IsCoinOf weigh height t m }
    ensures order { (weigh : List ℕ → Option ℕ) (height : Option ℕ) (t : Transaction) → AllPairs (λ (a b : Made). a.coin.coin.index < b.coin.coin.index) (made_in weigh height t) }
{}

/// The law of faults: a history has RepeatCoin exactly where an outpoint is a confirmed coin for the second time, the
/// first such in chain order, and at most 100,000 stand before it. It has Full exactly where there are more than
/// 100,000 coins, and none of the first 100,001 confirmed ones comes again. Out of memory is never one.
pub fn tells_first_fault()
    ensures repeat { (h : History) (o : OutPoint) → (fault_of h ≡ Some (BookFault.RepeatCoin o)) ↔ IsFirstRepeat (points (confirmed_made h)) o }
    ensures full { (h : History) → (fault_of h ≡ Some BookFault.Full) ↔ ((100_000 < length (coins_of h)) × AreApart (take 100_001 (points (confirmed_made h)))) }
    ensures never { (h : History) → fault_of h ≢ Some BookFault.Memory }
{}

//! Laws of states and of coins that may be spent. A call of any of them does nothing.

ghost use Rattle.std.specs.Prelude.{◌≡◌, ◌+◌, ◌<◌, ◌≤◌, ◌↔◌, ◌≢◌, ◌&&◌, [], true, not, min, sum_by, IsTrue, List, ℕ, length, All, Any, Contains, Some, None, slice_get};
ghost use Rattle.std.specs.List.{AllPairs, list_all};
ghost use Rattle.tx_codec.specs.Transaction.{Transaction};
ghost use Rattle.tx_codec.specs.Txid.{txid_of};
ghost use Rattle.tx_codec.specs.declared.tx.TxIn.{TxIn};
ghost use Rattle.wallet_text.specs.PlainWallet.{PlainWallet};
ghost use Rattle.wallet_text.specs.WalletRules.{AreDistinct, IsWallet, ParentsComeFirst};
ghost use Rattle.coin_candidates.specs.declared.candidate.Candidate.{Candidate};
ghost use Rattle.coin_book.specs.Coins.{coins_of};
ghost use Rattle.coin_book.specs.Faults.{fault_of};
ghost use Rattle.coin_book.specs.History.{History};
ghost use Rattle.coin_book.specs.Spends.{has_input, height_of, spends_of};
ghost use Rattle.fund_base.specs.declared.outpoint.OutPoint.{OutPoint};
ghost use Rattle.coin_book.specs.declared.coin.Coin.{Coin};
ghost use Rattle.fee_rates.specs.Fee.{fee_of};
ghost use Rattle.known_fees.specs.Missing.{is_known, size_of};
ghost use Rattle.known_fees.specs.Worth.{paid_by};
ghost use Rattle.payment_states.specs.BookOf.{IsBookOf};
ghost use Rattle.payment_states.specs.Candidates.{ancestors, candidate_of, candidates_of, descendants, is_candidate, is_mine, is_pending, is_safe, pending_graph, price_at, replaces, share_at};
ghost use Rattle.payment_states.specs.Causes.{HasCause, IsKin};
ghost use Rattle.payment_states.specs.Graph.{IsInOrder, Reaches, steps, within};
ghost use Rattle.payment_states.specs.Makers.{HasMaker};
ghost use Rattle.payment_states.specs.Offered.{MayBeSpent};
ghost use Rattle.payment_states.specs.Payments.{payments_in, payments_of, state_at, state_of};
ghost use Rattle.payment_states.specs.PendingView.{PendingView, graph, tx_at, view_of};
ghost use Rattle.payment_states.specs.Prices.{IsPriced, RestsOn, price_of};
ghost use Rattle.payment_states.specs.declared.state.State.{State};

/// The law of ancestry: where parents stand before their children, as many steps as there are transactions reach all
/// that can be reached.
pub fn reaches_by_steps()
    ensures { (g : List (List ℕ)) (i j : ℕ) → IsInOrder g → i < length g → IsTrue (within g (length g) i j) ↔ Reaches g i j }
{}

/// The law of looking states up: each transaction of the pending list has its own, and no other txid has one.
pub fn finds_states()
    ensures own { (w : PendingView) (i : ℕ) → AreDistinct w.pending → i < length w.pending → state_of (payments_in w) (txid_of (tx_at w i)) ≡ Some (state_at w i) }
    ensures none { (w : PendingView) (txid : List ℕ) → (state_of (payments_in w) txid ≡ None) ↔ All (λ (t : Transaction). txid_of t ≢ txid) w.pending }
{}

/// The law of parents: they are the transactions of the pending list that no confirmed one has the txid of, and an
/// output of which some input spends.
pub fn parents_by_inputs()
    ensures { (w : PendingView) (i p : ℕ) → AreDistinct w.pending → i < length w.pending → Contains (steps (graph w) i) p ↔ ((p < length w.pending) × (height_of w.chain (txid_of (tx_at w p)) ≡ None) × Any (λ (x : TxIn). x.prev.txid ≡ txid_of (tx_at w p)) (tx_at w i).inputs) }
{}

/// The law of safety: a transaction of the pending list is safe exactly where every input spends a coin of the book, no
/// payment is replaced by it, and each parent that is Pending is safe.
pub fn safe_by_parents()
    ensures { (w : PendingView) (coins : List Coin) (i : ℕ) → ParentsComeFirst w.pending → i < length w.pending → is_safe w coins i ≡ ((is_mine coins (tx_at w i) && not (replaces w (txid_of (tx_at w i)))) && list_all (is_safe w coins) (steps (pending_graph w) i)) }
{}

/// The law of Pending payments: no confirmed transaction spends an outpoint that one spends, each of its parents is
/// Pending too, and no other Pending payment spends an outpoint that it spends.
pub fn pending_stands_clear()
    ensures inputs { (w : PendingView) (i : ℕ) → ParentsComeFirst w.pending → i < length w.pending → is_pending w i ≡ true → All (λ (x : TxIn). spends_of w.chain x.prev ≡ []) (tx_at w i).inputs }
    ensures parents { (w : PendingView) (i : ℕ) → AreDistinct w.pending → ParentsComeFirst w.pending → i < length w.pending → is_pending w i ≡ true → (p : ℕ) → Contains (steps (graph w) i) p → is_pending w p ≡ true }
    ensures apart { (w : PendingView) (o : OutPoint) (i k : ℕ) → ParentsComeFirst w.pending → i < length w.pending → k < length w.pending → is_pending w i ≡ true → is_pending w k ≡ true → has_input o (tx_at w i).inputs ≡ true → has_input o (tx_at w k).inputs ≡ true → i ≡ k }
{}

/// The law of states: there is a payment for each transaction of the pending list, and it has a state exactly where
/// that state's cause is there. The causes speak of inputs, of the chain and of ways from child to parent.
pub fn states_by_causes()
    ensures count { (w : PlainWallet) (h : History) → length (payments_of w h) ≡ length w.pending }
    ensures exact { (w : PlainWallet) (h : History) (i : ℕ) (s : State) → AreDistinct w.pending → ParentsComeFirst w.pending → i < length w.pending → (slice_get (payments_of w h) i ≡ Some (record { txid = txid_of (tx_at (view_of w h) i); state = s })) ↔ HasCause (view_of w h) i s }
{}

/// The law of the numbers: they are those of the Pending ones among a payment and its ancestors, and among those of
/// which it is one, each counted once.
pub fn counts_by_ways()
    ensures ancestors { (w : PendingView) (i : ℕ) (places : List ℕ) → AreDistinct w.pending → ParentsComeFirst w.pending → i < length w.pending → AllPairs (λ (a b : ℕ). a < b) places → ((j : ℕ) → Contains places j ↔ (IsKin w i j × HasCause w j State.Pending)) → ancestors w i ≡ min 4294967295 (length places) }
    ensures descendants { (w : PendingView) (i : ℕ) (places : List ℕ) → AreDistinct w.pending → ParentsComeFirst w.pending → i < length w.pending → AllPairs (λ (a b : ℕ). a < b) places → ((j : ℕ) → Contains places j ↔ ((j < length w.pending) × IsKin w j i × HasCause w j State.Pending)) → descendants w i ≡ min 4294967295 (length places) }
{}

/// The law of prices: a price is what is missing of what a payment and its ancestors pay, of those that are Pending, each by
/// itself and each once; at most 21,000,000 bitcoin. A price below that raises each of them to the rate, as far as it is known
/// what it pays. A price doesn't fall as the rate rises, and is 0 at a rate of 0. A confirmed coin's is 0.
pub fn prices_raise_ancestors()
    ensures sum { (w : PlainWallet) (h : History) (rate i : ℕ) (places : List ℕ) → AreDistinct w.pending → ParentsComeFirst w.pending → i < length w.pending → AllPairs (λ (a b : ℕ). a < b) places →
        ((j : ℕ) → Contains places j ↔ (IsKin (view_of w h) i j × HasCause (view_of w h) j State.Pending)) → price_at w h rate i ≡ min 2_100_000_000_000_000 (sum_by (share_at w h rate) places) }
    ensures raised { (w : PlainWallet) (h : History) (rate i j : ℕ) → AreDistinct w.pending → ParentsComeFirst w.pending → i < length w.pending → IsKin (view_of w h) i j → HasCause (view_of w h) j State.Pending →
        is_known h w.pending (tx_at (view_of w h) j) ≡ true → price_at w h rate i < 2_100_000_000_000_000 →
        fee_of rate (size_of (tx_at (view_of w h) j)) ≤ paid_by h w.pending (tx_at (view_of w h) j) + price_at w h rate i }
    ensures rises { (w : PlainWallet) (h : History) (rate higher i : ℕ) → rate ≤ higher → price_at w h rate i ≤ price_at w h higher i }
    ensures none { (w : PlainWallet) (h : History) (i : ℕ) → price_at w h 0 i ≡ 0 }
    ensures confirmed { (w : PlainWallet) (h : History) (tip rate : ℕ) (c : Coin) → c.height ≢ None → (candidate_of w h tip rate c).price ≡ 0 }
{}

/// The law of shared ancestors: what is missing of what Pending ancestors of payments pay, each of them once, is no more than
/// the prices of these payments together, where each price is below 21,000,000 bitcoin.
pub fn prices_cover_ancestors()
    ensures { (w : PlainWallet) (h : History) (rate : ℕ) (payments raised : List ℕ) → AreDistinct w.pending → ParentsComeFirst w.pending →
        All (λ i. i < length w.pending) payments → All (λ i. price_at w h rate i < 2_100_000_000_000_000) payments →
        AllPairs (λ (a b : ℕ). a < b) raised → All (λ j. Any (λ i. IsKin (view_of w h) i j) payments × HasCause (view_of w h) j State.Pending) raised →
        sum_by (share_at w h rate) raised ≤ sum_by (price_at w h rate) payments }
{}

/// The law of packages: what pays the fee of its own size at a rate and the prices of the payments that it spends from, each
/// below 21,000,000 bitcoin, pays with what Pending ancestors of these payments pay themselves the fee for its size and theirs
/// together. Each ancestor counts once, and it is known what each pays.
pub fn packages_pay_the_rate()
    ensures { (w : PlainWallet) (h : History) (rate : ℕ) (payments raised : List ℕ) (size paid : ℕ) → AreDistinct w.pending → ParentsComeFirst w.pending →
        All (λ i. i < length w.pending) payments → All (λ i. price_at w h rate i < 2_100_000_000_000_000) payments →
        AllPairs (λ (a b : ℕ). a < b) raised → All (λ j. Any (λ i. IsKin (view_of w h) i j) payments × HasCause (view_of w h) j State.Pending) raised →
        All (λ j. is_known h w.pending (tx_at (view_of w h) j) ≡ true) raised → fee_of rate size + sum_by (price_at w h rate) payments ≤ paid →
        fee_of rate (size + sum_by (λ j. size_of (tx_at (view_of w h) j)) raised) ≤ paid + sum_by (λ j. paid_by h w.pending (tx_at (view_of w h) j)) raised }
{}

/// The law of a coin's price: it is that of the place in the pending list of the transaction of its txid, where that isn't
/// confirmed. It is 0 where it is confirmed, and where no transaction of the list has the txid.
pub fn coins_have_prices()
    ensures coin { (w : PlainWallet) (h : History) (tip rate : ℕ) (c : Coin) → Contains (coins_of h) c → (candidate_of w h tip rate c).price ≡ price_of w h rate c.coin }
    ensures offered { (w : PlainWallet) (h : History) (tip rate : ℕ) → All (IsPriced w h rate) (candidates_of w h tip rate) }
    ensures waiting { (w : PlainWallet) (h : History) (rate i : ℕ) (o : OutPoint) → AreDistinct w.pending → i < length w.pending → txid_of (tx_at (view_of w h) i) ≡ o.txid → height_of h.confirmed o.txid ≡ None → price_of w h rate o ≡ price_at w h rate i }
    ensures confirmed { (w : PlainWallet) (h : History) (rate : ℕ) (o : OutPoint) → height_of h.confirmed o.txid ≢ None → price_of w h rate o ≡ 0 }
    ensures unlisted { (w : PlainWallet) (h : History) (rate : ℕ) (o : OutPoint) → All (λ (t : Transaction). txid_of t ≢ o.txid) w.pending → price_of w h rate o ≡ 0 }
{}

/// The law of packages, by coins: what pays the fee of its own size at a rate and the prices of its coins, each below
/// 21,000,000 bitcoin, pays with what the Pending transactions that these coins rest on pay themselves the fee for its size and
/// theirs together. Each of these counts once, and it is known what each pays.
pub fn coins_pay_for_packages()
    ensures { (w : PlainWallet) (h : History) (rate : ℕ) (coins : List Candidate) (raised : List ℕ) (size paid : ℕ) → AreDistinct w.pending → ParentsComeFirst w.pending →
        All (IsPriced w h rate) coins → All (λ (c : Candidate). c.price < 2_100_000_000_000_000) coins →
        AllPairs (λ (a b : ℕ). a < b) raised → All (λ j. Any (λ (c : Candidate). RestsOn w h c.coin j) coins) raised →
        All (λ j. is_known h w.pending (tx_at (view_of w h) j) ≡ true) raised → fee_of rate size + sum_by (λ (c : Candidate). c.price) coins ≤ paid →
        fee_of rate (size + sum_by (λ j. size_of (tx_at (view_of w h) j)) raised) ≤ paid + sum_by (λ j. paid_by h w.pending (tx_at (view_of w h) j)) raised }
{}

/// The law of candidates: a coin may be spent exactly where each of the rules holds.
pub fn candidates_by_rules()
    ensures { (w : PlainWallet) (h : History) (tip : ℕ) (c : Coin) → AreDistinct w.pending → ParentsComeFirst w.pending → (is_candidate w h tip c ≡ true) ↔ MayBeSpent w h tip c }
{}

/// The law of parents: for each coin that may be spent, the history has at its outpoint the transaction that made it. That
/// one has the coin's txid, and at the coin's index an output of the coin's value and script.
pub fn candidates_have_makers()
    ensures { (w : PlainWallet) (h : History) (tip rate : ℕ) → IsWallet w → IsBookOf w h → fault_of h ≡ None → All (HasMaker h) (candidates_of w h tip rate) }
{}

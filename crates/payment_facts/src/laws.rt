//! Laws of coins that are looked up, and of payments that are left out. A call of any of them does nothing.

ghost use Rattle.std.specs.Prelude.{◌≡◌, ◌↔◌, ◌≢◌, List, ℕ, All, Contains, Some, None};
ghost use Rattle.wallet_text.specs.PlainWallet.{PlainWallet};
ghost use Rattle.wallet_text.specs.WalletRules.{IsWallet};
ghost use Rattle.coin_book.specs.Coins.{coins_of};
ghost use Rattle.coin_book.specs.Faults.{fault_of};
ghost use Rattle.coin_book.specs.History.{History};
ghost use Rattle.coin_candidates.specs.Candidates.{IsCandidate};
ghost use Rattle.coin_candidates.specs.declared.candidate.Candidate.{Candidate};
ghost use Rattle.fund_base.specs.declared.outpoint.OutPoint.{OutPoint};
ghost use Rattle.coin_book.specs.declared.coin.Coin.{Coin};
ghost use Rattle.payment_states.specs.BookOf.{IsBookOf};
ghost use Rattle.payment_states.specs.Candidates.{candidate_of, candidates_of};
ghost use Rattle.payment_states.specs.Makers.{HasMaker};
ghost use Rattle.payment_states.specs.Offered.{MayBeSpent};
ghost use Rattle.payment_states.specs.Prices.{IsPriced};
ghost use Rattle.payment_facts.specs.AnyCoin.{facts_among, facts_at};
ghost use Rattle.payment_facts.specs.LeftOut.{confirmed_without_of, history_without, wallet_without};

/// The law of coins that are looked up: each coin of a book is found at its own outpoint, nothing is found elsewhere, and of
/// a coin that may be spent the same is known. What is found is within the bounds of a candidate, and the history has the
/// transaction that made it.
pub fn finds_coins()
    ensures own { (w : PlainWallet) (h : History) (tip rate : ℕ) (c : Coin) → IsWallet w → IsBookOf w h → fault_of h ≡ None → Contains (coins_of h) c → facts_at w h tip rate c.coin ≡ Some (candidate_of w h tip rate c) }
    ensures none { (w : PlainWallet) (h : History) (tip rate : ℕ) (o : OutPoint) → (facts_at w h tip rate o ≡ None) ↔ All (λ (c : Coin). c.coin ≢ o) (coins_of h) }
    ensures same { (w : PlainWallet) (h : History) (tip rate : ℕ) → IsWallet w → IsBookOf w h → fault_of h ≡ None → All (λ (c : Candidate). facts_at w h tip rate c.coin ≡ Some c) (candidates_of w h tip rate) }
    ensures fit { (w : PlainWallet) (h : History) (tip rate : ℕ) (o : OutPoint) (c : Candidate) → IsWallet w → IsBookOf w h → fault_of h ≡ None → facts_at w h tip rate o ≡ Some c → IsCandidate c }
    ensures made { (w : PlainWallet) (h : History) (tip rate : ℕ) (o : OutPoint) (c : Candidate) → IsWallet w → IsBookOf w h → fault_of h ≡ None → facts_at w h tip rate o ≡ Some c → HasMaker h c }
{}

/// The law of the prices of listed coins, and of confirmed ones beside payments that are left out: each is that of the coin's
/// outpoint, by the whole wallet and book.
pub fn listed_coins_have_prices()
    ensures found { (w : PlainWallet) (h : History) (tip rate : ℕ) (o : OutPoint) (c : Candidate) → facts_at w h tip rate o ≡ Some c → IsPriced w h rate c }
    ensures among { (w : PlainWallet) (h : History) (tip rate : ℕ) (points : List OutPoint) → All (IsPriced w h rate) (facts_among w h tip rate points) }
    ensures left { (w : PlainWallet) (h : History) (tip rate : ℕ) (gone : List (List ℕ)) → All (IsPriced w h rate) (confirmed_without_of w h tip gone) }
{}

/// The law of payments that are left out: a wallet whose pending list was written without some transactions keeps the rules
/// of wallets, and the book without them is its book. So all that the laws of payment_states say of states and candidates
/// is said of the shorter list too. The coins that are given are exactly those of this book that are confirmed and may be spent by this
/// wallet, each with what is known of it there.
pub fn left_out_as_never_written()
    ensures wallet { (w : PlainWallet) (gone : List (List ℕ)) → IsWallet w → IsWallet (wallet_without gone w) }
    ensures book { (w : PlainWallet) (h : History) (gone : List (List ℕ)) → IsBookOf w h → IsBookOf (wallet_without gone w) (history_without gone h) }
    ensures sound { (h : History) (gone : List (List ℕ)) → fault_of h ≡ None → fault_of (history_without gone h) ≡ None }
    ensures exact { (w : PlainWallet) (h : History) (tip : ℕ) (gone : List (List ℕ)) (c : Candidate) → IsWallet w →
        (Contains (confirmed_without_of w h tip gone) c ↔ ((k : Coin) × Contains (coins_of (history_without gone h)) k × (k.height ≢ None) × MayBeSpent (wallet_without gone w) (history_without gone h) tip k × (candidate_of (wallet_without gone w) (history_without gone h) tip 0 k ≡ c))) }
{}

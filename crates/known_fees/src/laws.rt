//! Laws of what outpoints are worth and of what is missing of fees. A call of any of them does nothing.

ghost use Rattle.std.specs.Prelude.{ℕ, ◌≡◌, ◌≢◌, ◌+◌, ◌≤◌, ◌⊎◌, ◌↔◌, All, Any, Contains, List, Some, false, is_some, true};
ghost use Rattle.std.specs.List.{AllPairs};
ghost use Rattle.fund_base.specs.declared.outpoint.OutPoint.{OutPoint};
ghost use Rattle.tx_codec.specs.Transaction.{Transaction};
ghost use Rattle.tx_codec.specs.Txid.{txid_of};
ghost use Rattle.tx_codec.specs.declared.tx.TxIn.{TxIn};
ghost use Rattle.fee_rates.specs.Fee.{fee_of};
ghost use Rattle.coin_book.specs.Coins.{coins_of};
ghost use Rattle.coin_book.specs.History.{History};
ghost use Rattle.coin_book.specs.declared.coin.Coin.{Coin};
ghost use Rattle.known_fees.specs.Missing.{is_known, missing_of, size_of};
ghost use Rattle.known_fees.specs.Worth.{IsCoinsWorth, IsKnown, IsOutputsWorth, paid_by, spent_by, worth_of};

/// The law of worth: an outpoint is worth the value of the coin there. Where no coin is there, it is worth the value of the
/// output that it names of one of these transactions. It has a worth exactly where there is such a coin or such an output. No
/// two coins have one outpoint here, and no two transactions one txid.
pub fn worth_by_coins_and_outputs()
    ensures value { (h : History) (ts : List Transaction) (o : OutPoint) (n : ℕ) → AllPairs (λ (a b : Coin). a.coin ≢ b.coin) (coins_of h) → AllPairs (λ (a b : Transaction). txid_of a ≢ txid_of b) ts →
        (worth_of h ts o ≡ Some n) ↔ (IsCoinsWorth h o n ⊎ IsOutputsWorth h ts o n) }
    ensures known { (h : History) (ts : List Transaction) (o : OutPoint) → AllPairs (λ (a b : Transaction). txid_of a ≢ txid_of b) ts → (is_some (worth_of h ts o) ≡ true) ↔ IsKnown h ts o }
{}

/// The law of outpoints that are counted once: what a transaction spends are the outpoints of its inputs, each once.
pub fn spent_once()
    ensures each { (t : Transaction) (o : OutPoint) → (Contains (spent_by t) o ↔ Any (λ (x : TxIn). x.prev ≡ o) t.inputs) }
    ensures once { (t : Transaction) → AllPairs (λ (a b : OutPoint). a ≢ b) (spent_by t) }
{}

/// The law of what is missing: it raises what a transaction pays to the fee of its size at the rate, and is the least that
/// does. Of a transaction of which it isn't known what it pays nothing is missing. At a higher rate no less is missing. What a
/// transaction pays is known exactly where each input spends a coin, or an output of one of these transactions, of which no
/// two have one txid.
pub fn missing_raises()
    ensures raises { (rate : ℕ) (h : History) (ts : List Transaction) (t : Transaction) → is_known h ts t ≡ true → fee_of rate (size_of t) ≤ paid_by h ts t + missing_of rate h ts t }
    ensures least { (rate : ℕ) (h : History) (ts : List Transaction) (t : Transaction) (n : ℕ) → fee_of rate (size_of t) ≤ paid_by h ts t + n → missing_of rate h ts t ≤ n }
    ensures unknown { (rate : ℕ) (h : History) (ts : List Transaction) (t : Transaction) → is_known h ts t ≡ false → missing_of rate h ts t ≡ 0 }
    ensures known { (h : History) (ts : List Transaction) (t : Transaction) → AllPairs (λ (a b : Transaction). txid_of a ≢ txid_of b) ts → (is_known h ts t ≡ true) ↔ All (λ (i : TxIn). IsKnown h ts i.prev) t.inputs }
    ensures rises { (rate higher : ℕ) (h : History) (ts : List Transaction) (t : Transaction) → rate ≤ higher → missing_of rate h ts t ≤ missing_of higher h ts t }
{}

//! Laws of replacements. A call of any of them does nothing.

ghost use Rattle.std.specs.Prelude.{◌≡◌, ◌≢◌, ◌<◌, ◌≤◌, ◌+◌, ◌*◌, ◌++◌, ◌↔◌, ℕ, List, All, AllPairs, Any, Contains, None, Some, length};
ghost use Rattle.coin_candidates.specs.Candidates.{AreCandidates};
ghost use Rattle.coin_candidates.specs.declared.candidate.Candidate.{Candidate};
ghost use Rattle.fund_base.specs.declared.outpoint.OutPoint.{OutPoint};
ghost use Rattle.tx_codec.specs.Transaction.{Transaction};
ghost use Rattle.tx_codec.specs.Txid.{txid_of};
ghost use Rattle.tx_codec.specs.declared.tx.TxIn.{TxIn};
ghost use Rattle.fee_rates.specs.Fee.{fee_of};
ghost use Rattle.wallet_text.specs.PlainWallet.{PlainWallet};
ghost use Rattle.wallet_text.specs.WalletRules.{AreDistinct, IsWallet, ParentsComeFirst};
ghost use Rattle.request_text.specs.PlainRequest.{PlainRequest};
ghost use Rattle.coin_book.specs.Coins.{coins_of};
ghost use Rattle.coin_book.specs.Faults.{fault_of as book_fault};
ghost use Rattle.coin_book.specs.History.{History};
ghost use Rattle.coin_book.specs.declared.coin.Coin.{Coin};
ghost use Rattle.payment_facts.specs.AnyCoin.{facts_at};
ghost use Rattle.payment_states.specs.BookOf.{IsBookOf};
ghost use Rattle.payment_states.specs.Causes.{HasCause, Spends};
ghost use Rattle.payment_facts.specs.LeftOut.{confirmed_without_of};
ghost use Rattle.payment_states.specs.Makers.{HasMaker};
ghost use Rattle.payment_facts.specs.Pendings.{pending_below};
ghost use Rattle.payment_states.specs.PendingView.{PendingView, tx_at, view_of};
ghost use Rattle.payment_states.specs.declared.state.State.TheVariants as state;
ghost use Rattle.known_fees.specs.Worth.{spent_by};
ghost use Rattle.fee_bump.specs.Bump.{burden_at, fees_in, incremental, least_vsize, payment_place, replaced_at, terms_of};
ghost use Rattle.fee_bump.specs.Faults.{fault_of};
ghost use Rattle.fee_bump.specs.Meant.{CanReplace, GoesWith, IsBumpFault, MayBeReplaced};
ghost use Rattle.fee_bump.specs.declared.fault.BumpFault.{BumpFault};

/// The law of what is replaced: the transactions are exactly the payment, where it is Pending, and those that descend from
/// it and are Pending, each once, in list order. The payment spends no output of one of them. Where the payment may be
/// replaced, so may each of them (BIP 125, 'Implementation Details', rule 1).
pub fn replaced_by_ways()
    ensures each { (w : PendingView) (i j : ℕ) → AreDistinct w.pending → ParentsComeFirst w.pending → i < length w.pending → (Contains (pending_below w i) j ↔ GoesWith w i j) }
    ensures once { (w : PendingView) (i : ℕ) → AllPairs (λ (a b : ℕ). a < b) (pending_below w i) }
    ensures apart { (w : PendingView) (i : ℕ) → AreDistinct w.pending → ParentsComeFirst w.pending → i < length w.pending → All (λ (x : TxIn). All (λ (t : Transaction). txid_of t ≢ x.prev.txid) (replaced_at w i)) (tx_at w i).inputs }
    ensures signals { (w : PendingView) (i j : ℕ) → MayBeReplaced w i → GoesWith w i j → MayBeReplaced w j }
{}

/// The law of why a payment isn't replaced: what is worked out is the cause that is there, each in its order. None is worked
/// out exactly where nothing keeps the payment from being replaced.
pub fn faults_have_one_cause()
    ensures fault { (w : PlainWallet) (h : History) (r : PlainRequest) (txid : List ℕ) (fault : BumpFault) → IsWallet w → r.bump ≡ Some txid → fault ≢ BumpFault.Memory → (IsBumpFault w h r fault ↔ (fault_of w h r ≡ Some fault)) }
    ensures none { (w : PlainWallet) (h : History) (r : PlainRequest) (txid : List ℕ) → IsWallet w → r.bump ≡ Some txid → ((fault_of w h r ≡ None) ↔ CanReplace w h r (payment_place (view_of w h) r)) }
{}

/// The law of the terms: where nothing is foreign, the presets are the coins that the payment's inputs spend, each once, with
/// what is known of them at the request's rate, and there is one at least. The candidates are those of the confirmed coins that could be spent if
/// what is replaced had never been written down, that are no presets and no outputs of what is replaced. So each is an output
/// of a confirmed transaction (BIP 125, 'Implementation Details', rule 2).
pub fn terms_by_rules()
    ensures spent { (w : PlainWallet) (h : History) (tip : ℕ) (r : PlainRequest) (txid : List ℕ) → IsWallet w → IsBookOf w h → book_fault h ≡ None → r.bump ≡ Some txid → fault_of w h r ≡ None →
        All (λ (x : TxIn). Any (λ (c : Candidate). c.coin ≡ x.prev) (terms_of w h tip r).presets) (tx_at (view_of w h) (payment_place (view_of w h) r)).inputs }
    ensures some { (w : PlainWallet) (h : History) (tip : ℕ) (r : PlainRequest) (txid : List ℕ) → IsWallet w → IsBookOf w h → book_fault h ≡ None → r.bump ≡ Some txid → fault_of w h r ≡ None → 0 < length (terms_of w h tip r).presets }
    ensures only { (w : PlainWallet) (h : History) (tip : ℕ) (r : PlainRequest) → IsWallet w → IsBookOf w h → book_fault h ≡ None →
        All (λ (c : Candidate). Any (λ (x : TxIn). x.prev ≡ c.coin) (tx_at (view_of w h) (payment_place (view_of w h) r)).inputs × (facts_at w h tip r.rate c.coin ≡ Some c)) (terms_of w h tip r).presets }
    ensures added { (w : PlainWallet) (h : History) (tip : ℕ) (r : PlainRequest) (c : Candidate) →
        (Contains (terms_of w h tip r).candidates c ↔ (Contains (confirmed_without_of w h tip (terms_of w h tip r).replaced) c × All (λ (p : Candidate). p.coin ≢ c.coin) (terms_of w h tip r).presets × All (λ (txid : List ℕ). txid ≢ c.coin.txid) (terms_of w h tip r).replaced)) }
    ensures confirmed { (w : PlainWallet) (h : History) (tip : ℕ) (r : PlainRequest) → IsWallet w → IsBookOf w h → book_fault h ≡ None →
        All (λ (c : Candidate). (k : Coin) × Contains (coins_of h) k × (k.coin ≡ c.coin) × (k.height ≢ None)) (terms_of w h tip r).candidates }
{}

/// The law of conflicts: a Pending payment that spends a preset or a candidate is one of those that are replaced. So whatever
/// the replacement is made from, no other Pending payment conflicts with it.
pub fn conflicts_are_replaced()
    ensures { (w : PlainWallet) (h : History) (tip : ℕ) (r : PlainRequest) (txid : List ℕ) (c : Candidate) (k : ℕ) → IsWallet w → IsBookOf w h → book_fault h ≡ None → r.bump ≡ Some txid → fault_of w h r ≡ None →
        Contains ((terms_of w h tip r).presets ++ (terms_of w h tip r).candidates) c → k < length w.pending → HasCause (view_of w h) k state.Pending → Spends c.coin (tx_at (view_of w h) k) →
        GoesWith (view_of w h) (payment_place (view_of w h) r) k }
{}

/// The law of the burden: with the fee of a virtual size at the rate it is more than the fees of what is replaced and the
/// incremental rate for that size together, and it is the least that is, or 0. At 1,000 satoshi per 1,000 virtual bytes or
/// more it is enough for each greater size too. A fee that pays a rate above that of the replaced payment is a higher fee for
/// its size.
pub fn burdens_pay_for_replacing()
    ensures enough { (fees v rate : ℕ) → fees + fee_of incremental v < burden_at fees v rate + fee_of rate v }
    ensures least { (fees v rate n : ℕ) → fees + fee_of incremental v < n + fee_of rate v → burden_at fees v rate ≤ n }
    ensures sizes { (fees v u rate : ℕ) → v ≤ u → 1000 ≤ rate → fees + fee_of incremental u < burden_at fees v rate + fee_of rate u }
    ensures higher { (old_fee old_vsize rate v fee : ℕ) → 1000 * old_fee < rate * old_vsize → 0 < v → fee_of rate v ≤ fee → old_fee * v < fee * old_vsize }
{}

/// The law of what a replacement pays: its burden and the fee of its rate, for no fewer virtual bytes than those of the
/// presets alone, are more than the fees of all that is replaced and the incremental rate for its own size together (BIP 125,
/// 'Implementation Details', rules 3 and 4). With at least the fee of its rate it pays a higher rate than the payment.
pub fn replacements_pay_more()
    ensures fees { (w : PlainWallet) (h : History) (tip : ℕ) (r : PlainRequest) (txid : List ℕ) (size : ℕ) → IsWallet w → r.bump ≡ Some txid → fault_of w h r ≡ None → least_vsize r (terms_of w h tip r).presets ≤ size →
        fees_in h (replaced_at (view_of w h) (payment_place (view_of w h) r)) + fee_of incremental size < (terms_of w h tip r).burden + fee_of r.rate size }
    ensures rate { (w : PlainWallet) (h : History) (tip : ℕ) (r : PlainRequest) (txid : List ℕ) (fee size : ℕ) → IsWallet w → r.bump ≡ Some txid → fault_of w h r ≡ None → 0 < size → fee_of r.rate size ≤ fee →
        (terms_of w h tip r).old_fee * size < fee * (terms_of w h tip r).old_vsize }
{}

/// The law of what a plan asks of the terms: presets and candidates are together at most 100,000 coins that a payment can
/// spend, each outpoint once, and the history has the transactions that made them. Where nothing keeps the payment from being
/// replaced, the burden is at most 1,000,000,000,000,000,000 satoshi.
pub fn terms_fit_a_plan()
    ensures fit { (w : PlainWallet) (h : History) (tip : ℕ) (r : PlainRequest) → IsWallet w → IsBookOf w h → book_fault h ≡ None → AreCandidates ((terms_of w h tip r).presets ++ (terms_of w h tip r).candidates) }
    ensures makers { (w : PlainWallet) (h : History) (tip : ℕ) (r : PlainRequest) → IsWallet w → IsBookOf w h → book_fault h ≡ None → All (HasMaker h) ((terms_of w h tip r).presets ++ (terms_of w h tip r).candidates) }
    ensures burden { (w : PlainWallet) (h : History) (tip : ℕ) (r : PlainRequest) (txid : List ℕ) → IsWallet w → IsBookOf w h → book_fault h ≡ None → r.bump ≡ Some txid → fault_of w h r ≡ None → (terms_of w h tip r).burden ≤ 1_000_000_000_000_000_000 }
{}

//! What the rules of the wallet file come to, in words that don't follow the reading.

ghost use Rattle.std.specs.Prelude.{◌≡◌, ◌≤◌, ◌<◌, ◌⊎◌, ℕ, List, ◌∷◌, length, Bool, true, false, codes, ◌↔◌, Contains};
ghost use Rattle.std.specs.Result.{result_err};
ghost use Rattle.json_fields.specs.Fields.{object_at};
ghost use Rattle.json_fields.specs.Rules.{first_some, IsHexString};
ghost use Rattle.serde_json.specs.Data.{Data};
ghost use Rattle.tx_codec.specs.Transaction.{Transaction};
ghost use Rattle.tx_codec.specs.declared.fault.TxFault.{TxFault};
ghost use Rattle.wallet_text.specs.WalletRules.{IsWatch};
ghost use Rattle.wallet_text.specs.PlainWallet.{PlainWallet};
ghost use Rattle.wallet_text.specs.ScriptEntries.{IsEntry, IsNoScript, IsNoWeight};
ghost use Rattle.wallet_text.specs.Refusals.{AreRefusedAt, IsLaterIn, IsOfChange, IsRefusedWhere, IsRepeatIn, KeepRules};
ghost use Rattle.wallet_text.specs.TxEntries.{transaction_of, IsEarlierEntry};
ghost use Rattle.wallet_text.specs.Table.{member_faults, said_by};
ghost use Rattle.wallet_text.specs.WalletText.{field, known_names, required_names, told_index, judged, lists_at, wallet_at, script_in, earlier_in, pending_in};
ghost use Rattle.wallet_text.specs.declared.fault.Refusal.{Refusal};
ghost use Rattle.wallet_text.specs.declared.fault.Refusal.TheVariants.{Script, Weight, Tx, Repeat, ParentLater};
ghost use Rattle.wallet_text.specs.declared.wallet.Watch.{Watch};
ghost use Rattle.wallet_text.specs.PlainWallet.{Earlier};

/// The law of an entry of `scripts`, and of `change`, which isn't listed: Script comes exactly where it is listed
/// before, empty or too long, and Weight where only its weight is out of its range.
pub fn judges_entries()
    ensures taken { (index : ℕ) (w : Watch) → IsWatch w → judged false index w ≡ Ok w }
    ensures script { (listed : Bool) (index told : ℕ) (w : Watch) → judged listed index w ≡ Err (Script told) → (told ≡ told_index index) × ((listed ≡ true) ⊎ ((length w.script ≡ 0) ⊎ (10_000 < length w.script))) }
    ensures weight { (listed : Bool) (index told : ℕ) (w : Watch) → judged listed index w ≡ Err (Weight told) → (told ≡ told_index index) × ((w.weight < 165) ⊎ (400_000 < w.weight)) }
    ensures first { (listed : Bool) (index : ℕ) (w : Watch) → (listed ≡ true) ⊎ ((length w.script ≡ 0) ⊎ (10_000 < length w.script)) → judged listed index w ≡ Err (Script (told_index index)) }
    ensures second { (index : ℕ) (w : Watch) → 0 < length w.script → length w.script ≤ 10_000 → (w.weight < 165) ⊎ (400_000 < w.weight) → judged false index w ≡ Err (Weight (told_index index)) }
{}

/// The law of an entry of `scripts` at an index, where these scripts stand before it. It is taken exactly where it is
/// an object of a script and a weight that are in order, and none before it has its script; Script and then Weight come
/// exactly where an object of such members breaks its rule. `change` is judged as such an entry that none stands
/// before.
pub fn judges_scripts()
    ensures taken { (index : ℕ) (before : List (List ℕ)) (d : Data) (w : Watch) → (script_in index before d ≡ Ok w) ↔ (IsEntry d w × IsWatch w × (¬ Contains before w.script)) }
    ensures script { IsRefusedWhere Script (λ before w. Contains before w.script ⊎ IsNoScript w.script) }
    ensures weight { IsRefusedWhere Weight (λ before w. (¬ Contains before w.script) × (¬ IsNoScript w.script) × IsNoWeight w.weight) }
    ensures change { (w : Watch) → IsOfChange (Ok w) }
    ensures change_script { (told : ℕ) → IsOfChange (Err (Script told)) }
    ensures change_weight { (told : ℕ) → IsOfChange (Err (Weight told)) }
{}

/// The law of an entry of `earlier` and of one of `pending`, at an index. It is taken exactly where its bytes are one
/// whole transaction, and Tx comes, with the list, the index and the first fault of the bytes, exactly where they
/// aren't, the entry being of its kind.
pub fn judges_transactions()
    ensures earlier { (most index : ℕ) (d : Data) (e : Earlier) → (earlier_in most index d ≡ Ok e) ↔ ((bytes : List ℕ) × IsEarlierEntry most d bytes e.height × (transaction_of bytes ≡ Ok e.tx)) }
    ensures earlier_tx { (most index : ℕ) (d : Data) (list : List ℕ) (told : ℕ) (fault : TxFault) → (earlier_in most index d ≡ Err (Tx list told fault)) ↔ ((list ≡ codes "earlier") × (told ≡ told_index index) × ((bytes : List ℕ) × (height : ℕ) × IsEarlierEntry most d bytes height × (transaction_of bytes ≡ Err fault))) }
    ensures pending { (index : ℕ) (d : Data) (t : Transaction) → (pending_in index d ≡ Ok t) ↔ ((bytes : List ℕ) × IsHexString d bytes × (transaction_of bytes ≡ Ok t)) }
    ensures pending_tx { (index : ℕ) (d : Data) (list : List ℕ) (told : ℕ) (fault : TxFault) → (pending_in index d ≡ Err (Tx list told fault)) ↔ ((list ≡ codes "pending") × (told ≡ told_index index) × ((bytes : List ℕ) × IsHexString d bytes × (transaction_of bytes ≡ Err fault))) }
{}

/// The law of the rules over whole lists: they are kept exactly where nothing is reported. Otherwise it is the first
/// txid that stands twice in `earlier`, or, where none does, in `pending`, or, where none does there either, the first
/// pending transaction that spends an output of itself or of one after it.
pub fn judges_lists()
    ensures kept { (earlier : List Earlier) (pending : List Transaction) → lists_at earlier pending ≡ Ok tt → KeepRules earlier pending }
    ensures only { (earlier : List Earlier) (pending : List Transaction) → KeepRules earlier pending → lists_at earlier pending ≡ Ok tt }
    ensures repeated { (list : List ℕ) → AreRefusedAt (Repeat list) (IsRepeatIn list) }
    ensures later { AreRefusedAt ParentLater IsLaterIn }
    ensures other { (earlier : List Earlier) (pending : List Transaction) (fault : Refusal) → lists_at earlier pending ≡ Err fault → ((list : List ℕ) × (told : ℕ) × (fault ≡ Repeat list told)) ⊎ ((told : ℕ) × (fault ≡ ParentLater told)) }
{}

/// The law of a whole wallet file: what is wrong with it is the first that is wrong with the object, with a member by
/// itself, in the order of the format's table, or with the whole lists. So it is read exactly where nothing is. Two
/// members are judged by what another says: `change` is bound by the number of scripts, and `earlier` is bound by
/// `height`. Where the file is read, each field is what its own member says, and empty where that is left out.
pub fn reads_members()
    ensures values { (d : Data) (w : PlainWallet) → wallet_at d ≡ Ok w → w ≡ said_by d }
    ensures fault { (d : Data) → result_err (wallet_at d) ≡ first_some (result_err (field (object_at (codes "root") known_names required_names d)) ∷ member_faults d) }
{}

//! Laws of the entries of a wallet file. A call of any of them does nothing.

ghost use Rattle.std.specs.Prelude.{◌≡◌, ◌↔◌, ◌⊎◌, ℕ, List, codes, Err};
ghost use Rattle.serde_json.specs.Data.{Data};
ghost use Rattle.json_fields.specs.Fields.{coin_at, hash_at};
ghost use Rattle.json_fields.specs.declared.fault.FieldFault.{FieldFault};
ghost use Rattle.json_fields.specs.declared.fault.FieldFault.TheVariants.{Kind, Member, Missing};
ghost use Rattle.wallet_text.specs.WalletText.{abandoned_list_at, change_at, earlier_behind, earlier_in, earlier_list_at, earlier_names, locked_list_at, pending_behind, pending_in, pending_list_at, script_behind, script_in, scripts_at, watch_names};
ghost use Rattle.wallet_text.specs.declared.fault.Refusal.{Refusal};
ghost use Rattle.wallet_text.specs.declared.fault.Refusal.TheVariants.{Field};
ghost use Rattle.entry_laws.specs.Forms.{HasUnknown, IsLacking, IsListFault, IsNoHex, IsWrongKind};
ghost use Rattle.entry_laws.specs.Entries.{IsFormFault, IsFormWhere, IsOfTx, IsWatchFault};

/// The law of the form of an entry of `scripts`. Kind comes exactly where it is no object, or, in an object of `script`
/// and `weight`, where the script spells no bytes, or else where the weight is no whole number of 64 bits; Member
/// exactly of its least unknown name; Missing exactly of the first of the two that it lacks, no name being unknown.
/// Beside these it gets Script and Weight alone.
pub fn tells_script_forms()
    ensures kind { (index : ℕ) (before : List (List ℕ)) → IsFormWhere (script_in index before) Kind (IsWrongKind (codes "scripts") (codes "script") (codes "weight") 18_446_744_073_709_551_615) }
    ensures member { (index : ℕ) (before : List (List ℕ)) → IsFormWhere (script_in index before) Member (HasUnknown watch_names) }
    ensures missing { (index : ℕ) (before : List (List ℕ)) → IsFormWhere (script_in index before) Missing (IsLacking watch_names watch_names) }
    ensures other { (index : ℕ) (before : List (List ℕ)) (d : Data) (fault : Refusal) → script_in index before d ≡ Err fault → IsFormFault fault ⊎ IsWatchFault fault }
{}

/// The law of the form of `change`, which is that of an entry of `scripts`, but that what is no object is named
/// `change`.
pub fn tells_change_forms()
    ensures kind { (count : ℕ) → IsFormWhere (change_at count) Kind (IsWrongKind (codes "change") (codes "script") (codes "weight") 18_446_744_073_709_551_615) }
    ensures member { (count : ℕ) → IsFormWhere (change_at count) Member (HasUnknown watch_names) }
    ensures missing { (count : ℕ) → IsFormWhere (change_at count) Missing (IsLacking watch_names watch_names) }
    ensures other { (count : ℕ) (d : Data) (fault : Refusal) → change_at count d ≡ Err fault → IsFormFault fault ⊎ IsWatchFault fault }
{}

/// The law of the form of an entry of `earlier`, where the wallet has this height. Kind comes exactly where it is no
/// object, or, in an object of `tx` and `height`, where the transaction spells no bytes, or else where the height is no
/// whole number up to the wallet's; Member exactly of its least unknown name; Missing exactly of the first of the two
/// that it lacks, no name being unknown. Beside these it gets Tx alone.
pub fn tells_earlier_forms()
    ensures kind { (most index : ℕ) → IsFormWhere (earlier_in most index) Kind (IsWrongKind (codes "earlier") (codes "tx") (codes "height") most) }
    ensures member { (most index : ℕ) → IsFormWhere (earlier_in most index) Member (HasUnknown earlier_names) }
    ensures missing { (most index : ℕ) → IsFormWhere (earlier_in most index) Missing (IsLacking earlier_names earlier_names) }
    ensures other { (most index : ℕ) (d : Data) (fault : Refusal) → earlier_in most index d ≡ Err fault → IsFormFault fault ⊎ IsOfTx fault }
{}

/// The law of the form of an entry of `pending`: Kind comes, with the list's name, exactly where it spells no bytes.
/// Beside that it gets Tx alone.
pub fn tells_pending_forms()
    ensures form { (index : ℕ) (d : Data) (fault : FieldFault) → (pending_in index d ≡ Err (Field fault)) ↔ ((fault ≡ Kind (codes "pending")) × IsNoHex d) }
    ensures other { (index : ℕ) (d : Data) (fault : Refusal) → pending_in index d ≡ Err fault → (fault ≡ Field (Kind (codes "pending"))) ⊎ IsOfTx fault }
{}

/// The law of the lists of a wallet file: a list gets a fault exactly where it is no list, Kind with its name, or where
/// the fault is that of its first entry that is refused. An entry of `abandoned` or `locked` that is no TXID or no coin
/// has the list's name.
pub fn tells_lists()
    ensures scripts { (d : Data) (fault : Refusal) → (scripts_at d ≡ Err fault) ↔ IsListFault Field (codes "scripts") script_behind d fault }
    ensures earlier { (most : ℕ) (d : Data) (fault : Refusal) → (earlier_list_at most d ≡ Err fault) ↔ IsListFault Field (codes "earlier") (earlier_behind most) d fault }
    ensures pending { (d : Data) (fault : Refusal) → (pending_list_at d ≡ Err fault) ↔ IsListFault Field (codes "pending") pending_behind d fault }
    ensures abandoned { (d : Data) (fault : FieldFault) → (abandoned_list_at d ≡ Err fault) ↔ IsListFault (λ f. f) (codes "abandoned") (λ _. hash_at (codes "abandoned")) d fault }
    ensures locked { (d : Data) (fault : FieldFault) → (locked_list_at d ≡ Err fault) ↔ IsListFault (λ f. f) (codes "locked") (λ _. coin_at (codes "locked")) d fault }
{}

//! Laws of the values of JSON files. A call of any of them does nothing.

ghost use Rattle.std.specs.Prelude.{◌≡◌, ◌≢◌, ◌↔◌, ◌⊎◌, ℕ, List, Bool, Ok, Err};
ghost use Rattle.fund_base.specs.declared.outpoint.OutPoint.{OutPoint};
ghost use Rattle.serde_json.specs.Data.{Data, boolean, string};
ghost use Rattle.json_fields.specs.Fields.{coin_at, entries_at, flag_at, hash_at, hex_at, number_at, object_at, text_at};
ghost use Rattle.json_fields.specs.declared.fault.FieldFault.{FieldFault};
ghost use Rattle.json_fields.specs.declared.fault.FieldFault.TheVariants.{Kind, Member, Missing};
ghost use Rattle.entry_laws.specs.Forms.{HasUnknown, IsCoinString, IsHashString, IsLacking, IsNoCoin, IsNoHash, IsNoHex, IsNoList, IsNoNumber, IsNoObject, IsToldWhere, IsWrongWhere};

/// The law of the faults of an object: Kind comes, with the name of the whole, exactly of a value that is no object;
/// Member exactly of the least name by bytes that isn't known; and Missing exactly of the first required name that an
/// object lacks whose members are all known. It gets no other fault.
pub fn objects_have_one_fault()
    ensures kind { (whole : List ℕ) (known required : List (List ℕ)) → IsToldWhere (object_at whole known required) Kind (λ d name. (name ≡ whole) × IsNoObject d) }
    ensures member { (whole : List ℕ) (known required : List (List ℕ)) → IsToldWhere (object_at whole known required) Member (HasUnknown known) }
    ensures missing { (whole : List ℕ) (known required : List (List ℕ)) → IsToldWhere (object_at whole known required) Missing (IsLacking known required) }
    ensures other { (whole : List ℕ) (known required : List (List ℕ)) (d : Data) (fault : FieldFault) → object_at whole known required d ≡ Err fault → (name : List ℕ) × ((fault ≡ Kind name) ⊎ ((fault ≡ Member name) ⊎ (fault ≡ Missing name))) }
{}

/// The law of the kinds of values: a number, bytes in hex, a truth value, a text and a list get one fault alone, Kind
/// with their own name, exactly where they aren't what they should be.
pub fn tells_kinds()
    ensures number { (name : List ℕ) (most : ℕ) → IsWrongWhere name (number_at name most) (IsNoNumber most) }
    ensures hex { (name : List ℕ) → IsWrongWhere name (hex_at name) IsNoHex }
    ensures flag { (name : List ℕ) → IsWrongWhere name (flag_at name) (λ d. (b : Bool) → d ≢ boolean b) }
    ensures text { (name : List ℕ) → IsWrongWhere name (text_at name) (λ d. (text : List ℕ) → d ≢ string text) }
    ensures list { (name : List ℕ) → IsWrongWhere name (entries_at name) IsNoList }
{}

/// The law of hashes and coins as values: one is read exactly where the string spells it, and otherwise it gets one
/// fault alone, Kind with its own name.
pub fn tells_hashes_and_coins()
    ensures hash { (name : List ℕ) (d : Data) (hash : List ℕ) → (hash_at name d ≡ Ok hash) ↔ IsHashString d hash }
    ensures no_hash { (name : List ℕ) → IsWrongWhere name (hash_at name) IsNoHash }
    ensures coin { (name : List ℕ) (d : Data) (coin : OutPoint) → (coin_at name d ≡ Ok coin) ↔ IsCoinString d coin }
    ensures no_coin { (name : List ℕ) → IsWrongWhere name (coin_at name) IsNoCoin }
{}

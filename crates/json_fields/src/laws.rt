//! What the definitions of reading come to, in words that don't follow the reading.

ghost use Rattle.std.specs.Prelude.{◌≡◌, ◌≢◌, ◌<◌, ◌≤◌, ◌%◌, ℕ, List, [], reverse, length, slice_index, Result, Ok, Err, option_and_then};
ghost use Rattle.std.specs.List.{AllPass};
ghost use Rattle.hex.specs.Hex.{encode_lower, encode_upper, is_hex_digit};
ghost use Rattle.json.specs.Json as json;
ghost use Rattle.serde_json.specs.Data.{Data, object, number, unsigned, Members};
ghost use Rattle.serde_json.specs.View.{items_of};
ghost use Rattle.serde_json.specs.Find.{get};
ghost use Rattle.serde_json.specs.Read.{of_json};
ghost use Rattle.fund_base.specs.declared.outpoint.OutPoint.{OutPoint};
ghost use Rattle.json_fields.specs.Fields.{parsed, object_at, number_at, hex_at, hash_in, coin_in, each_from, IsHash};
ghost use Rattle.json_fields.specs.Rules.{HasMembers, AreKnown, HasAll, IsLeastUnknown, IsFirstMissing, IsHexDigit, IsHexOf, IsHexString, IsCoinText, AreRead, IsFirstRefused, text_of, last_value};
ghost use Rattle.json_fields.specs.declared.fault.FieldFault.{FieldFault};
ghost use Rattle.json_fields.specs.declared.fault.FieldFault.TheVariants.{Kind, Member, Missing};

/// The law of objects: one is taken exactly where its members are known and those that are required are there.
/// Otherwise it isn't an object, or the fault is its least unknown name by bytes, or, where all are known, the first
/// required name that it lacks.
pub fn reads_objects()
    ensures taken { (whole : List ℕ) (known required : List (List ℕ)) (d : Data) → object_at whole known required d ≡ Ok tt → HasMembers d (λ ms. AreKnown known ms × HasAll required ms) }
    ensures only { (whole : List ℕ) (known required : List (List ℕ)) (d : Data) → HasMembers d (λ ms. AreKnown known ms × HasAll required ms) → object_at whole known required d ≡ Ok tt }
    ensures kind { (whole : List ℕ) (known required : List (List ℕ)) (d : Data) (name : List ℕ) → object_at whole known required d ≡ Err (Kind name) → (name ≡ whole) × ((ms : Members) → d ≢ object ms) }
    ensures member { (whole : List ℕ) (known required : List (List ℕ)) (d : Data) (name : List ℕ) → object_at whole known required d ≡ Err (Member name) → HasMembers d (λ ms. IsLeastUnknown known ms name) }
    ensures missing { (whole : List ℕ) (known required : List (List ℕ)) (d : Data) (name : List ℕ) → object_at whole known required d ≡ Err (Missing name) → HasMembers d (λ ms. AreKnown known ms × IsFirstMissing required ms name) }
{}

/// The law of names that stand twice: what is read of an object's text has, at each name, the last value that the text
/// has there. It rests on what `serde_json` states of its reading.
pub fn reads_last_values()
    ensures text { (bytes : List ℕ) (d : Data) → parsed bytes ≡ Some d → (j : json.Json) × (text_of bytes ≡ Some j) × (of_json j ≡ Some d) }
    ensures last { (ms : json.Members) (d : Data) (name : List ℕ) → of_json (json.object ms) ≡ Some d → get name d ≡ option_and_then of_json (last_value name ms) }
{}

/// The law of numbers: one is taken exactly where it is a whole number from 0 to the greatest that is allowed, which
/// `serde_json` reads as `unsigned`. A number with a sign, a fraction or an exponent isn't, nor is one of 2^64 or more.
pub fn reads_numbers()
    ensures found { (name : List ℕ) (most n : ℕ) (d : Data) → number_at name most d ≡ Ok n → (d ≡ number (unsigned n)) × (n ≤ most) }
    ensures only { (name : List ℕ) (most n : ℕ) → n ≤ most → number_at name most (number (unsigned n)) ≡ Ok n }
    ensures fault { (name : List ℕ) (most : ℕ) (d : Data) (fault : FieldFault) → number_at name most d ≡ Err fault → fault ≡ Kind name }
{}

/// The law of hex: a string is read as bytes exactly where it has two letters for each of them, hexadecimal digits of
/// either case, of which the first counts the byte's sixteens and the second its ones. Anything else is of the wrong
/// kind; an even number of digits always spells bytes.
pub fn reads_hex()
    ensures found { (name bytes : List ℕ) (d : Data) → hex_at name d ≡ Ok bytes → IsHexString d bytes }
    ensures only { (name bytes : List ℕ) (d : Data) → IsHexString d bytes → hex_at name d ≡ Ok bytes }
    ensures fault { (name : List ℕ) (d : Data) (fault : FieldFault) → hex_at name d ≡ Err fault → (fault ≡ Kind name) × ((bytes : List ℕ) → ¬ IsHexString d bytes) }
    ensures digits { (text : List ℕ) → length text % 2 ≡ 0 → ((k : ℕ) → k < length text → (value : ℕ) × IsHexDigit (slice_index text k) value) → (bytes : List ℕ) × IsHexOf text bytes }
{}

/// The law of hashes: a text is read as one exactly where it spells its 32 bytes in hex, the last byte first. So it has
/// 64 digits, and those that show a hash in lower or in upper case are among them.
pub fn reads_hashes()
    ensures spelled { (text hash : List ℕ) → hash_in text ≡ Some hash → (length hash ≡ 32) × IsHexOf text (reverse hash) }
    ensures only { (text hash : List ℕ) → length hash ≡ 32 → IsHexOf text (reverse hash) → hash_in text ≡ Some hash }
    ensures lower { (hash : List ℕ) → IsHash hash → hash_in (encode_lower (reverse hash)) ≡ Some hash }
    ensures upper { (hash : List ℕ) → IsHash hash → hash_in (encode_upper (reverse hash)) ≡ Some hash }
    ensures found { (text hash : List ℕ) → hash_in text ≡ Some hash → (length text ≡ 64) × AllPass is_hex_digit text }
{}

/// The law of coins: a text is read as one exactly where it is the digits of its txid, a colon, and its index in
/// decimal.
pub fn reads_coins()
    ensures found { (text : List ℕ) (coin : OutPoint) → coin_in text ≡ Some coin → IsCoinText text coin }
    ensures only { (text : List ℕ) (coin : OutPoint) → IsCoinText text coin → coin_in text ≡ Some coin }
{}

/// The law of lists: entries are read as a list exactly where it has an item for each of them, and each item is what
/// its own entry is read as, after the items before it. A fault is reported exactly where it is that of the first entry
/// that is refused.
pub fn reads_lists<A, E>()
    ensures found { (reading : List A → Data → Result A E) (ds : List Data) (xs : List A) → each_from reading [] (items_of ds) ≡ Ok xs → (length xs ≡ length ds) × AreRead reading ds xs }
    ensures only { (reading : List A → Data → Result A E) (ds : List Data) (xs : List A) → length xs ≡ length ds → AreRead reading ds xs → each_from reading [] (items_of ds) ≡ Ok xs }
    ensures fault { (reading : List A → Data → Result A E) (ds : List Data) (fault : E) → each_from reading [] (items_of ds) ≡ Err fault → IsFirstRefused reading ds fault }
    ensures refused { (reading : List A → Data → Result A E) (ds : List Data) (fault : E) → IsFirstRefused reading ds fault → each_from reading [] (items_of ds) ≡ Err fault }
{}

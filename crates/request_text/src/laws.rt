//! What the definitions of reading come to, in words that don't follow the reading.

ghost use Rattle.std.specs.Prelude.{◌≡◌, ◌≢◌, ◌<◌, ◌≤◌, ◌⊎◌, ◌↔◌, ℕ, List, [], ◌∷◌, length, Ok, Err, Some, None, AllPairs, codes};
ghost use Rattle.std.specs.Result.{result_err};
ghost use Rattle.hex.specs.Hex.{encode_lower, encode_upper};
ghost use Rattle.serde_json.specs.Data.{Data, array, number, string, no_items, unsigned};
ghost use Rattle.serde_json.specs.View.{items_of};
ghost use Rattle.fund_base.specs.declared.outpoint.OutPoint.{OutPoint};
ghost use Rattle.fee_rates.specs.Output.{dust_of};
ghost use Rattle.segwit_addr.specs.Reading.{decode_of};
ghost use Rattle.segwit_addr.specs.declared.fault.AddrFault.{AddrFault};
ghost use Rattle.json_fields.specs.Fields.{IsHash, object_at};
ghost use Rattle.json_fields.specs.Rules.{IsFirstRefused, IsHexString, first_some};
ghost use Rattle.json_fields.specs.declared.fault.FieldFault.{FieldFault};
ghost use Rattle.json_fields.specs.declared.fault.FieldFault.TheVariants.{Kind};
ghost use Rattle.request_text.specs.Entries.{IsToAddress, IsToScript, IsEntryOf, IsNoEntry, IsNoScript, IsRefusedWhere, PaysTo, AreRecipients, form_faults};
ghost use Rattle.request_text.specs.PlainRequest.{IsVersion, PlainRequest, paid_to};
ghost use Rattle.request_text.specs.RequestText.{field, known_in, method_in, recipient_behind, recipients_at, repeat_behind, request_at, required_in, seed_at, rate_at, tries_at, version_at};
ghost use Rattle.request_text.specs.Table.{member_faults, said_by};
ghost use Rattle.json_fields.specs.Repeats.{IsFirstRepeat};
ghost use Rattle.request_text.specs.Rules.{IsSeedText, word_of};
ghost use Rattle.request_text.specs.declared.fault.Refusal.{Refusal};
ghost use Rattle.request_text.specs.declared.fault.Refusal.TheVariants.{Field, Address, Script, AmountRange, Dust, SumRange, NoRecipients, RateRange, TriesRange};
ghost use Rattle.request_text.specs.declared.request.Method.{Method};
ghost use Rattle.request_text.specs.declared.request.Recipient.{Recipient};

/// The law of repeated coins: none is reported exactly where no coin stands twice; where one is reported, it stands
/// before too, and those before it are distinct.
pub fn finds_repeats()
    ensures none { (coins : List OutPoint) → repeat_behind [] coins ≡ None → AllPairs (λ a b. a ≢ b) coins }
    ensures only { (coins : List OutPoint) → AllPairs (λ a b. a ≢ b) coins → repeat_behind [] coins ≡ None }
    ensures some { (coins : List OutPoint) (place : ℕ) → repeat_behind [] coins ≡ Some place → IsFirstRepeat coins place }
{}

/// The law of an entry of `recipients`, by its index. It is taken exactly where it is an object of an amount and one of
/// an address and a script, which is in order, and the amount is no dust and at most 21,000,000 bitcoin. Of an entry of
/// such members the first of these is reported that is wrong: the address or the script, the amount above that, the
/// dust. Any other entry is refused for its form, with the first fault that the form has.
pub fn judges_recipients()
    ensures taken { (before : List Recipient) (d : Data) (r : Recipient) → (recipient_behind before d ≡ Ok r) ↔ (PaysTo d r.script r.amount × (dust_of r.script ≤ r.amount) × (r.amount ≤ 2_100_000_000_000_000)) }
    ensures address { (fault : AddrFault) → IsRefusedWhere (λ told. Address told fault) (IsEntryOf IsToAddress (λ text amount. decode_of text ≡ Err fault)) }
    ensures script { IsRefusedWhere Script (IsEntryOf IsToScript (λ script amount. IsNoScript script)) }
    ensures range { IsRefusedWhere AmountRange (IsEntryOf PaysTo (λ script amount. 2_100_000_000_000_000 < amount)) }
    ensures dust { IsRefusedWhere Dust (IsEntryOf PaysTo (λ script amount. (amount ≤ 2_100_000_000_000_000) × (amount < dust_of script))) }
    ensures form { (before : List Recipient) (d : Data) → ((fault : FieldFault) × (recipient_behind before d ≡ Err (Field fault))) ↔ IsNoEntry d }
    ensures first { (before : List Recipient) (d : Data) (fault : FieldFault) → (recipient_behind before d ≡ Err (Field fault)) ↔ (first_some (form_faults d) ≡ Some fault) }
{}

/// The law of `recipients`: the list is taken exactly where each entry is, there is one at least, and the amounts are
/// at most 21,000,000 bitcoin together. NoRecipients comes exactly of the empty list, and SumRange exactly where each
/// entry is taken and the amounts are more. Otherwise it is no list, or the fault is that of the first entry that is
/// refused.
pub fn judges_recipient_lists()
    ensures taken { (d : Data) (rs : List Recipient) → (recipients_at d ≡ Ok rs) ↔ (AreRecipients d rs × (0 < length rs) × (paid_to rs ≤ 2_100_000_000_000_000)) }
    ensures none { (d : Data) → (recipients_at d ≡ Err NoRecipients) ↔ (d ≡ array no_items) }
    ensures sum { (d : Data) → (recipients_at d ≡ Err SumRange) ↔ ((rs : List Recipient) × AreRecipients d rs × (2_100_000_000_000_000 < paid_to rs)) }
    ensures entry { (ds : List Data) (fault : Refusal) → IsFirstRefused recipient_behind ds fault → recipients_at (array (items_of ds)) ≡ Err fault }
    ensures other { (d : Data) (fault : Refusal) → recipients_at d ≡ Err fault → (fault ≡ NoRecipients) ⊎ ((fault ≡ SumRange) ⊎ (((fault ≡ Field (Kind (codes "recipients"))) × ((ds : List Data) → d ≢ array (items_of ds))) ⊎ ((ds : List Data) × (d ≡ array (items_of ds)) × IsFirstRefused recipient_behind ds fault))) }
{}

/// The law of a whole request: what is wrong with it is the first that is wrong with the object or with a member by
/// itself, in the order of the format's table. So it is read exactly where nothing is, and no member's fault hangs on
/// another. Where it is read, each field is what its own member says, or the default where that is left out.
pub fn reads_members()
    ensures values { (d : Data) (q : PlainRequest) → request_at d ≡ Ok q → q ≡ said_by d }
    ensures fault { (d : Data) → result_err (request_at d) ≡ first_some (result_err (field (object_at (codes "root") (known_in d) (required_in d) d)) ∷ member_faults d) }
{}

/// The law of rates and tries: a value is read as one exactly where it is a whole number in its range, and RateRange,
/// with the member's name, and TriesRange come exactly of whole numbers of 64 bits out of it.
pub fn reads_ranges()
    ensures rate { (name : List ℕ) (d : Data) (n : ℕ) → (rate_at name d ≡ Ok n) ↔ ((d ≡ number (unsigned n)) × (n ≤ 100_000_000)) }
    ensures rate_range { (name : List ℕ) (d : Data) (told : List ℕ) → (rate_at name d ≡ Err (RateRange told)) ↔ ((told ≡ name) × ((n : ℕ) × (d ≡ number (unsigned n)) × (100_000_000 < n) × (n ≤ 18_446_744_073_709_551_615))) }
    ensures tries { (d : Data) (n : ℕ) → (tries_at d ≡ Ok n) ↔ ((d ≡ number (unsigned n)) × (1 ≤ n) × (n ≤ 10_000_000)) }
    ensures tries_range { (d : Data) → (tries_at d ≡ Err TriesRange) ↔ ((n : ℕ) × (d ≡ number (unsigned n)) × ((n ≡ 0) ⊎ (10_000_000 < n)) × (n ≤ 18_446_744_073_709_551_615)) }
{}

/// The law of the PSBT's version: a value is read as one exactly where it is the whole number 0 or 2, and any other is of
/// the wrong kind.
pub fn reads_versions()
    ensures taken { (d : Data) (n : ℕ) → (version_at d ≡ Ok n) ↔ ((d ≡ number (unsigned n)) × IsVersion n) }
    ensures fault { (d : Data) (fault : FieldFault) → version_at d ≡ Err fault → fault ≡ Kind (codes "psbt") }
{}

/// The law of methods: a word is read as a method exactly where it is the method's own.
pub fn reads_methods()
    ensures found { (word : List ℕ) (method : Method) → method_in word ≡ Some method → word ≡ word_of method }
    ensures only { (method : Method) → method_in (word_of method) ≡ Some method }
{}

/// The law of seeds: a string is read as one exactly where it spells its 32 bytes in hex, from the first byte on, in
/// digits of either case. Each string of 64 digits is read, and nothing else is.
pub fn reads_seeds()
    ensures spelled { (d : Data) (seed : List ℕ) → seed_at d ≡ Ok seed → IsHexString d seed }
    ensures only { (d : Data) (seed : List ℕ) → length seed ≡ 32 → IsHexString d seed → seed_at d ≡ Ok seed }
    ensures lower { (seed : List ℕ) → IsHash seed → seed_at (string (encode_lower seed)) ≡ Ok seed }
    ensures upper { (seed : List ℕ) → IsHash seed → seed_at (string (encode_upper seed)) ≡ Ok seed }
    ensures found { (d : Data) (seed : List ℕ) → seed_at d ≡ Ok seed → IsSeedText d × IsHash seed }
    ensures fault { (d : Data) (fault : FieldFault) → seed_at d ≡ Err fault → (¬ IsSeedText d) × (fault ≡ Kind (codes "seed")) }
{}

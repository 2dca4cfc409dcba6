//! Laws of the members of a request file. A call of any of them does nothing.

ghost use Rattle.std.specs.Prelude.{◌≡◌, ◌≢◌, ◌↔◌, ◌⊎◌, ℕ, List, AllPairs, Contains, Ok, Err, true, false, codes};
ghost use Rattle.fund_base.specs.declared.outpoint.OutPoint.{OutPoint};
ghost use Rattle.serde_json.specs.Data.{Data, string};
ghost use Rattle.json_fields.specs.Fields.{coin_at};
ghost use Rattle.json_fields.specs.Repeats.{IsFirstRepeat};
ghost use Rattle.json_fields.specs.declared.fault.FieldFault.{FieldFault};
ghost use Rattle.request_text.specs.RequestText.{coins_at, index_of, method_at, required_in, take_at};
ghost use Rattle.request_text.specs.Rules.{word_of};
ghost use Rattle.request_text.specs.declared.fault.Refusal.{Refusal};
ghost use Rattle.request_text.specs.declared.fault.Refusal.TheVariants.{Field, Repeat};
ghost use Rattle.request_text.specs.declared.request.Method.{Method};
ghost use Rattle.entry_laws.specs.Asked.{AreCoins, IsDrawing};
ghost use Rattle.entry_laws.specs.Forms.{IsListFault, IsWrongWhere};

/// The law of the members that a request has to have: recipients and a rate, and a seed exactly where its method is left
/// out or is the word `auto` or `draw`. A method that isn't known needs none.
pub fn requires_a_seed_of_draws()
    ensures { (d : Data) (name : List ℕ) → Contains (required_in d) name ↔ ((name ≡ codes "recipients") ⊎ ((name ≡ codes "rate") ⊎ ((name ≡ codes "seed") × IsDrawing d))) }
{}

/// The law of `when_unfinished`: it is true, to take what has been found, exactly of the word `take`, and false exactly
/// of the word `stop`. Anything else is of the wrong kind.
pub fn tells_take_from_stop()
    ensures take { (d : Data) → (take_at d ≡ Ok true) ↔ (d ≡ string (codes "take")) }
    ensures stop { (d : Data) → (take_at d ≡ Ok false) ↔ (d ≡ string (codes "stop")) }
    ensures other { IsWrongWhere (codes "when_unfinished") take_at (λ d. (d ≢ string (codes "take")) × (d ≢ string (codes "stop"))) }
{}

/// The law of `method`: a value is read as a method exactly where it is the method's word, and anything else is of the
/// wrong kind.
pub fn tells_methods()
    ensures method { (d : Data) (method : Method) → (method_at d ≡ Ok method) ↔ (d ≡ string (word_of method)) }
    ensures other { IsWrongWhere (codes "method") method_at (λ d. (method : Method) → d ≢ string (word_of method)) }
{}

/// The law of `coins`: the list is read as coins exactly where each entry is one and none stands twice. Repeat comes
/// exactly where each entry is a coin, with the index of the first that stands before it too. A fault of the form comes
/// exactly where it is no list, or of its first entry that is no coin, wherever a coin stands twice.
pub fn tells_coins()
    ensures coins { (d : Data) (coins : List OutPoint) → (coins_at d ≡ Ok coins) ↔ (AreCoins d coins × AllPairs (λ a b. a ≢ b) coins) }
    ensures repeat { (d : Data) (told : ℕ) → (coins_at d ≡ Err (Repeat told)) ↔ ((coins : List OutPoint) × AreCoins d coins × ((place : ℕ) × (told ≡ index_of place) × IsFirstRepeat coins place)) }
    ensures form { (d : Data) (fault : FieldFault) → (coins_at d ≡ Err (Field fault)) ↔ IsListFault (λ f. f) (codes "coins") (λ _. coin_at (codes "coins")) d fault }
    ensures other { (d : Data) (fault : Refusal) → coins_at d ≡ Err fault → ((form : FieldFault) × (fault ≡ Field form)) ⊎ ((told : ℕ) × (fault ≡ Repeat told)) }
{}

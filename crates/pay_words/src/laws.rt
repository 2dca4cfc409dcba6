//! What the words of flags and the names of files come to.

ghost use Rattle.std.specs.Prelude.{◌≡◌, ◌<◌, List, [], ◌∷◌, ◌++◌, map, string_bytes, Ok, Some, String, true, ℕ};
ghost use Rattle.std.specs.Str.Lines.{lines};
ghost use Rattle.std.specs.declared.alloc.Global.{Global};
ghost use Rattle.base58_addr.specs.Address.{IsAddress};
ghost use Rattle.pay_words.specs.Asked.{AreApart, PlainAsked, asked_in};
ghost use Rattle.pay_words.specs.Flags.{flag_of, flag_word, takes_value};
ghost use Rattle.pay_words.specs.Given.{flags_in};
ghost use Rattle.pay_words.specs.Lines.{ArePaidBehind, line_words};
ghost use Rattle.pay_words.specs.Payees.{Script, payee_at};
ghost use Rattle.pay_words.specs.Spread.{spread_word};
ghost use Rattle.pay_words.specs.Values.{has};
ghost use Rattle.pay_words.specs.declared.flag.Flag.{Flag};
ghost use Rattle.pay_words.specs.declared.flag.Flag.TheVariants as flags;
ghost use Rattle.pay_words.specs.declared.given.Given.{Given};
ghost use Rattle.pay_words.specs.declared.way.Way.TheVariants as ways;
ghost use Rattle.request_text.specs.declared.request.Method.TheVariants as methods;

/// The law of flags: each flag is known by its word, and by no other. A call does nothing.
pub fn flags_have_one_word()
    ensures known { (f : Flag) → flag_of (flag_word f) ≡ Some f }
    ensures only { (word : List ℕ) (f : Flag) → flag_of word ≡ Some f → word ≡ flag_word f }
{}

/// The law of names: the files that words name are apart, none of them without a name. A call does nothing.
pub fn names_are_apart()
    ensures { (drawn : List ℕ) (words : List (String Global)) (asked : PlainAsked) → asked_in drawn words ≡ Ok asked → AreApart asked.names }
{}

/// The law of consolidating: words that are read as asking for it give the method `changeless` and list no coin. So the wide search
/// takes each such request. A call does nothing.
pub fn consolidating_chooses_all()
    ensures { (drawn : List ℕ) (words : List (String Global)) (asked : PlainAsked) → asked_in drawn words ≡ Ok asked → asked.way ≡ ways.Wide → (asked.settings.method ≡ methods.Changeless) × (asked.coins ≡ []) }
{}

/// The law of fees from the amounts: words that are read as asking for one give the method `weight`, or none, and list no coin. A call
/// does nothing.
pub fn bearing_chooses_all()
    ensures { (drawn : List ℕ) (words : List (String Global)) (asked : PlainAsked) → asked_in drawn words ≡ Ok asked → asked.way ≡ ways.Share → (asked.settings.method ≡ methods.Weight) × (asked.coins ≡ []) }
{}

/// The law of payments that are replaced: words that are read as asking for one list no coin, and it is made by `fund`. So no request is
/// refused for coins beside it. A call does nothing.
pub fn bumping_lists_no_coin()
    ensures { (drawn : List ℕ) (words : List (String Global)) (asked : PlainAsked) (txid : List ℕ) → asked_in drawn words ≡ Ok asked → asked.settings.bump ≡ Some txid → (asked.way ≡ ways.Fund) × (asked.coins ≡ []) }
{}

/// The law of addresses: to pay to an address in base58 is to pay to its script, as it is spelled. A call does nothing.
pub fn addresses_pay_to_scripts()
    ensures { (place : ℕ) (text script : List ℕ) → IsAddress text script → payee_at place text ≡ Ok (Script script) }
{}

/// The law of values: a flag that takes one, with `=` and the value behind it in one word, is read as the two words. A call does
/// nothing.
pub fn flags_take_values_behind_signs()
    ensures { (f : Flag) (value : List ℕ) → takes_value f ≡ true → spread_word (flag_word f ++ 61 ∷ value) ≡ flag_word f ∷ value ∷ [] }
{}

/// The law of lists: where the words of the lines of a file stand behind others, which are flags with their values, the payments asked for
/// are those of the words and then one for each line, in order. A call does nothing.
pub fn lines_are_paid_behind_words()
    ensures { (drawn : List ℕ) (words more : List (String Global)) (file : List ℕ) (given : List Given) (asked : PlainAsked) → flags_in words ≡ Ok given → line_words file ≡ Ok (map string_bytes more) → asked_in drawn (words ++ more) ≡ Ok asked → ArePaidBehind words given (lines file) asked.payments }
{}

/// The law of low rates: words that are read as asking for a rate below 1 satoshi per virtual byte give the flag
/// `--allow-low-rate`. A call does nothing.
pub fn low_rates_are_allowed()
    ensures { (drawn : List ℕ) (words : List (String Global)) (given : List Given) (asked : PlainAsked) → flags_in words ≡ Ok given → asked_in drawn words ≡ Ok asked → asked.settings.rate < 1_000 → has given flags.AllowLowRate ≡ true }
{}

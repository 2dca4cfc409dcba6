//! Words that a sweep doesn't take.

ghost use Rattle.std.specs.Prelude.{◌≡◌, ◌<◌, bytes_eq, length, IfSome};
ghost use Rattle.std.specs.List.{list_any};
ghost use Rattle.pay_words.specs.Flags.{flag_word};
ghost use Rattle.sweep_words.specs.Words.{foreign_at, is_foreign, is_payee, payee_at, second_at};

use pay_words::{Flag, flag_word};

/// The flags of `pay` that say nothing of a payment of all coins.
const FOREIGN: [Flag; 17] = [
    Flag::PayFile,
    Flag::Keys,
    Flag::LongTerm,
    Flag::Discard,
    Flag::ChangeTarget,
    Flag::Method,
    Flag::Coin,
    Flag::Tries,
    Flag::Seed,
    Flag::Bump,
    Flag::Log,
    Flag::Report,
    Flag::Request,
    Flag::Group,
    Flag::Consolidate,
    Flag::FeeFromAmount,
    Flag::Stop,
];

/// Whether one of these flags has this word.
fn is_among(flags: &[Flag], word: &str) -> bool
    ensures { result ≡ list_any (λ f. bytes_eq (flag_word f) word.now) flags.now }
{
    for flag in flags {
        if flag_word(*flag) == word {
            return true;
        }
    }
    false
}

/// Whether the word is that of a flag which a sweep doesn't take.
fn is_foreign(word: &str) -> bool
    ensures { result ≡ is_foreign word.now }
{
    is_among(&FOREIGN, word)
}

/// The place of the first word that is that of a flag which a sweep doesn't take.
#[tactic(auto, unfolding(crate::specs::Words::foreign_at))]
pub fn foreign_at(words: &[String]) -> Option<usize>
    ensures { result ≡ foreign_at words.now }
{
    words.iter().position(|word| is_foreign(word.as_str()))
}

/// Whether a recipient stands behind the word.
fn is_payee(word: &str) -> bool
    ensures { result ≡ is_payee word.now }
{
    word == flag_word(Flag::To) || word == flag_word(Flag::ToScript)
}

/// The place of the first word behind which a recipient stands.
#[tactic(auto, unfolding(crate::specs::Words::payee_at))]
pub fn payee_at(words: &[String]) -> Option<usize>
    ensures value { result ≡ payee_at words.now }
    ensures within { IfSome result (λ place. place < length words.now) }
{
    words.iter().position(|word| is_payee(word.as_str()))
}

/// The place of the second such word.
pub fn second_at(words: &[String]) -> Option<usize>
    ensures { result ≡ second_at words.now }
{
    match payee_at(words) {
        None => None,
        Some(first) => match payee_at(&words[first + 1..]) {
            None => None,
            Some(next) => Some(first + 1 + next),
        },
    }
}

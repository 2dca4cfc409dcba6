//! Who is paid, and which coins are spent in any case.

ghost use Rattle.std.specs.Prelude.{◌≡◌, ◌/◌, [], ◌++◌, Err, IfOk, IsOk, IsSome, MatchResult, Ok, OnOk, length, map, option_map, string_bytes};
ghost use Rattle.std.specs.List.{flat_map};
ghost use Rattle.fund_base.specs.Parsing.{YieldsAll};
ghost use Rattle.pay_words.specs.Payments.{coin_given, cut_of, paid_to, paid_to_script, payments_after, payments_from, plain_payment, script_at, to_address, to_script};
ghost use Rattle.pay_words.specs.declared.fault.WordFault.TheVariants.{Memory as OutOfMemory};

use crate::address::payee_at;
use crate::fault::WordFault;
use crate::flag::{Flag, is_same};
use crate::given::Given;
use crate::values::{amount_at, word_at};
use fund_base::{Memory, Script};
use request_making::{Payee, Payment};
use std::alloc::Global;

/// What stands before and behind the first `=` of the word.
pub fn cut_of(word: &str) -> Option<(&str, &str)>
    ensures { option_map (λ p. (p.0.now, p.1.now)) result ≡ cut_of word.now }
{
    word.split_once('=')
}

/// What is paid to an address, in base58 or of a witness program. It runs out of memory only where the amount is one, and the text
/// pays somebody.
fn to_address(alloc: Global, place: usize, to: &str, amount: &str) -> Result<Payment, WordFault>
    ensures gives { YieldsAll OutOfMemory plain_payment result (to_address place to.now amount.now) }
    ensures short { result ≡ Err OutOfMemory → IsOk (to_address place to.now amount.now) }
{
    let amount = amount_at(place, amount)?;
    let to = payee_at(alloc, place, to)?;
    Ok(Payment { to, amount })
}

/// Writes the bytes of the script that is spelled in hex. It never runs out of memory.
fn put_script(place: usize, text: &str, room: &mut [u8]) -> Result<(), WordFault>
    requires { length room.old ≡ length text.now / 2 }
    ensures { MatchResult (script_at place text.now) (λ bytes. (result ≡ Ok tt) × (room.new ≡ bytes)) (λ e. result ≡ Err e) }
{
    match hex::decode_to_slice(text.as_bytes(), room) {
        Ok(()) => Ok(()),
        Err(_) => Err(WordFault::Script(place)),
    }
}

/// The script that is spelled in hex. Memory is taken for it first.
fn script_at(alloc: Global, place: usize, text: &str) -> Result<Script, WordFault>
    ensures { YieldsAll OutOfMemory (λ s. s) result (script_at place text.now) }
{
    let mut bytes = vec![in alloc; 0u8; text.len() / 2]?;
    put_script(place, text, &mut bytes)?;
    Ok(Script::new(bytes))
}

/// What is paid to a script in hex.
fn to_script(alloc: Global, place: usize, to: &str, amount: &str) -> Result<Payment, WordFault>
    ensures { YieldsAll OutOfMemory plain_payment result (to_script place to.now amount.now) }
{
    let script = script_at(alloc, place, to)?;
    let amount = amount_at(place, amount)?;
    Ok(Payment {
        to: Payee::Script(script),
        amount,
    })
}

/// What the word at this place says to pay to an address. It runs out of memory only where it says that.
fn paid_to(alloc: Global, place: usize, word: &str) -> Result<Payment, WordFault>
    ensures gives { YieldsAll OutOfMemory plain_payment result (paid_to place word.now) }
    ensures short { result ≡ Err OutOfMemory → IsOk (paid_to place word.now) }
{
    match cut_of(word) {
        None => Err(WordFault::NoAmount(place)),
        Some((to, amount)) => to_address(alloc, place, to, amount),
    }
}

/// What the word at this place says to pay to a script. It runs out of memory only where there is an `=`.
fn paid_to_script(alloc: Global, place: usize, word: &str) -> Result<Payment, WordFault>
    ensures gives { YieldsAll OutOfMemory plain_payment result (paid_to_script place word.now) }
    ensures short { result ≡ Err OutOfMemory → IsSome (cut_of word.now) }
{
    match cut_of(word) {
        None => Err(WordFault::NoAmount(place)),
        Some((to, amount)) => to_script(alloc, place, to, amount),
    }
}

/// Takes the payment of a flag, if it asks for one.
fn put_payment(
    alloc: Global,
    words: &[String],
    one: Given,
    payments: &mut Vec<Payment>,
) -> Result<(), WordFault>
    ensures { YieldsAll OutOfMemory (λ _. map plain_payment payments.new.items) result (payments_after words.now (map plain_payment payments.old.items) one) }
{
    match one.flag {
        Flag::To => {
            let payment = paid_to(alloc, one.place, word_at(words, one.place))?;
            payments.push(payment)?;
            Ok(())
        }
        Flag::ToScript => {
            let payment = paid_to_script(alloc, one.place, word_at(words, one.place))?;
            payments.push(payment)?;
            Ok(())
        }
        _ => Ok(()),
    }
}

/// The payments that the flags ask for, in their order.
pub fn payments_given(
    alloc: Global,
    words: &[String],
    given: &[Given],
) -> Result<Vec<Payment>, WordFault>
    ensures { YieldsAll OutOfMemory (λ v. map plain_payment v.items) result (payments_from words.now [] given.now) }
{
    let mut payments = Vec::new(alloc);
    for one in given {
        match put_payment(alloc, words, *one, &mut payments) {
            Ok(()) => {}
            Err(fault) => return Err(fault),
        }
    }
    Ok(payments)
}

/// Takes the coin of a flag, if it lists one.
fn put_coin(
    alloc: Global,
    words: &[String],
    one: Given,
    coins: &mut Vec<String>,
) -> Result<(), Memory>
    ensures { OnOk result (map string_bytes coins.new.items ≡ map string_bytes coins.old.items ++ coin_given words.now one) }
{
    if is_same(one.flag, Flag::Coin) {
        let coin = String::from_str(alloc, word_at(words, one.place))?;
        coins.push(coin)?;
    }
    Ok(())
}

/// The coins that the flags list, in their order, each by its words.
pub fn coins_given(alloc: Global, words: &[String], given: &[Given]) -> Result<Vec<String>, Memory>
    ensures { IfOk result (λ v. map string_bytes v.items ≡ flat_map (coin_given words.now) given.now) }
{
    let mut coins = Vec::new(alloc);
    for one in given {
        put_coin(alloc, words, *one, &mut coins)?;
    }
    Ok(coins)
}

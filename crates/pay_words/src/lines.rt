//! A file that lists payments, as words.

ghost use Rattle.std.specs.Prelude.{◌≡◌, ◌++◌, ◌==◌, Err, IfOk, IsOk, Ok, OnOk, Some, if◌then◌else◌, length, map, option_copied, option_map, string_bytes};
ghost use Rattle.std.specs.Str.Lines.{lines};
ghost use Rattle.fund_base.specs.Parsing.{YieldsAll};
ghost use Rattle.pay_words.specs.Lines.{BeginsWithPayment, comma_cut, line_of, line_words, payment_word, text_in, text_words, with_line, words_by, words_for};
ghost use Rattle.pay_words.specs.declared.line_fault.LineFault.TheVariants.{Memory as OutOfMemory, NoLine};

use crate::flag::{Flag, flag_word};
use crate::line_fault::LineFault;
use crate::spread::put_word;
use fund_base::Memory;
use std::alloc::Global;
use std::str::from_utf8;

/// The greatest length of a file that lists payments, in bytes.
pub const PAY_FILE_LIMIT: usize = 4_194_304;

/// What stands before and behind the first comma of the line.
fn comma_cut(line: &str) -> Option<(&str, &str)>
    ensures { option_map (λ p. (p.0.now, p.1.now)) result ≡ comma_cut line.now }
{
    line.split_once(',')
}

/// An address and an amount as one word.
fn payment_word(alloc: Global, address: &str, amount: &str) -> Result<String, Memory>
    ensures { IfOk result (λ word. string_bytes word ≡ payment_word address.now amount.now) }
{
    let mut word = String::from_str(alloc, address)?;
    word.push('=')?;
    word.push_str(amount)?;
    Ok(word)
}

/// Adds the two words of a payment to others.
fn put_payment(
    alloc: Global,
    words: &mut Vec<String>,
    address: &str,
    amount: &str,
) -> Result<(), Memory>
    ensures { OnOk result (map string_bytes words.new.items ≡ map string_bytes words.old.items ++ words_for (address.now, amount.now)) }
{
    let word = payment_word(alloc, address, amount)?;
    put_word(alloc, words, flag_word(Flag::To))?;
    words.push(word)?;
    Ok(())
}

/// Adds the words of a line, the first behind the lines of these words, to others. It runs out of memory only where the line is a
/// payment.
fn put_line(alloc: Global, words: &mut Vec<String>, line: &str) -> Result<(), LineFault>
    ensures gives { YieldsAll OutOfMemory (λ _. map string_bytes words.new.items) result (with_line (map string_bytes words.old.items) line.now) }
    ensures short { result ≡ Err OutOfMemory → IsOk (with_line (map string_bytes words.old.items) line.now) }
{
    match comma_cut(line) {
        None => Err(LineFault::NoComma(words.len() / 2)),
        Some((address, amount)) => {
            put_payment(alloc, words, address, amount)?;
            Ok(())
        }
    }
}

/// The words of all lines of a text, or the first fault. It runs out of memory only where the first line is a payment.
fn text_words(alloc: Global, text: &str) -> Result<Vec<String>, LineFault>
    ensures gives { YieldsAll OutOfMemory (λ words. map string_bytes words.items) result (text_words text.now) }
    ensures short { result ≡ Err OutOfMemory → BeginsWithPayment (lines text.now) }
{
    let mut words = Vec::new(alloc);
    for line in text.lines() {
        match put_line(alloc, &mut words, line) {
            Ok(()) => {}
            Err(fault) => return Err(fault),
        }
    }
    Ok(words)
}

/// The words, unless there are none. It never runs out of memory.
fn some_words(words: Vec<String>) -> Result<Vec<String>, LineFault>
    ensures { result ≡ (if length words.items == 0 then Err NoLine else Ok words) }
{
    if words.is_empty() {
        return Err(LineFault::NoLine);
    }
    Ok(words)
}

/// The file as text.
fn text_in(bytes: &[u8]) -> Option<&str>
    ensures { option_copied result ≡ text_in bytes.now }
{
    match from_utf8(bytes) {
        Ok(text) => Some(text),
        Err(_) => None,
    }
}

/// The words of all lines of a text, which has lines. It runs out of memory only where the first line is a payment.
fn words_of(alloc: Global, text: &str) -> Result<Vec<String>, LineFault>
    ensures gives { YieldsAll OutOfMemory (λ words. map string_bytes words.items) result (words_by (Some text.now)) }
    ensures short { result ≡ Err OutOfMemory → BeginsWithPayment (lines text.now) }
{
    let words = text_words(alloc, text)?;
    some_words(words)
}

/// The words that the lines ADDRESS,AMOUNT of a file stand for: of each `--to` and ADDRESS=AMOUNT, in order; or the first fault. A
/// line ends by a line feed, with or without a carriage return before it; behind the last one stands nothing, or a line more. It runs
/// out of memory only where the first line is a payment.
#[tactic(auto, unfolding(crate::specs::Lines::line_words))]
pub fn line_words(alloc: Global, bytes: &[u8]) -> Result<Vec<String>, LineFault>
    ensures gives { YieldsAll OutOfMemory (λ words. map string_bytes words.items) result (line_words bytes.now) }
    ensures short { result ≡ Err OutOfMemory → BeginsWithPayment (lines bytes.now) }
{
    if bytes.len() > PAY_FILE_LIMIT {
        return Err(LineFault::TooLong);
    }
    match text_in(bytes) {
        None => Err(LineFault::NotText),
        Some(text) => words_of(alloc, text),
    }
}

/// The number of the line, counted from 0, that the word at this place is of, where so many words stand before those of the lines;
/// none where it is one of those before.
pub fn line_of(before: usize, place: usize) -> Option<usize>
    ensures { result ≡ line_of before place }
{
    if place < before {
        return None;
    }
    Some((place - before) / 2)
}

//! A fault line.

ghost use Rattle.std.specs.Prelude.{◌≡◌, option_copied};
ghost use Rattle.fault_lines.specs.Lines.{line_sentence, input_line, limit_line, plan_line, unpaid_line, words_sentence};

use crate::blocks::blocks_line;
use crate::bump::bump_line;
use crate::coin::no_coin;
use crate::job::kept_line;
use crate::kept_sentences::kept_sentence;
use crate::keys::keys_line;
use crate::plan_sentences::plan_sentence;
use crate::psbt::psbt_line;
use crate::report::check_line;
use crate::request::request_line;
use crate::settle::settle_line;
use crate::signed::signed_line;
use crate::stop::{Stop, stop_sentence};
use crate::unpaid_sentences::{none_sentence, unfinished_sentence};
use crate::unsuited::unsuited_line;
use crate::wallet::wallet_line;
use crate::word::{begins, behind, word};
use fund_steps::PlanFault;
use kept_job::KeptFault;

/// The sentence of a plan's fault, by its words. None where it has none.
#[tactic(auto, unfolding(crate::specs::Lines::plan_line))]
pub fn plan_line(words: &[u8]) -> Option<&'static str>
    ensures { option_copied result ≡ plan_line words.now }
{
    if begins(words, b"Total ") {
        Some(plan_sentence(&PlanFault::Total(0)))
    } else if begins(words, b"NotEligible ") {
        Some(plan_sentence(&PlanFault::NotEligible(no_coin())))
    } else {
        unsuited_line(words)
    }
}

/// The sentence of a limit, by the word of what is above it. None where it has none.
#[tactic(auto, unfolding(crate::specs::Lines::limit_line))]
pub fn limit_line(words: &[u8]) -> Option<&'static str>
    ensures { option_copied result ≡ limit_line words.now }
{
    if begins(words, b"wallet") {
        Some(stop_sentence(Stop::WalletLimit))
    } else if begins(words, b"blocks") {
        Some(stop_sentence(Stop::BlocksLimit))
    } else if begins(words, b"request") {
        Some(stop_sentence(Stop::RequestLimit))
    } else if begins(words, b"coins") {
        Some(stop_sentence(Stop::CoinsLimit))
    } else if begins(words, b"groups") {
        Some(plan_sentence(&PlanFault::TooMany(0, 0)))
    } else if begins(words, b"tries") {
        Some(kept_sentence(&KeptFault::Spent))
    } else if begins(words, b"report") {
        Some(stop_sentence(Stop::ReportLimit))
    } else if begins(words, b"log") {
        Some(stop_sentence(Stop::LogLimit))
    } else if begins(words, b"script") {
        Some(stop_sentence(Stop::ScriptLimit))
    } else if begins(words, b"psbt") {
        Some(stop_sentence(Stop::PsbtLimit))
    } else if begins(words, b"keys") {
        Some(stop_sentence(Stop::KeysLimit))
    } else if begins(words, b"tx") {
        Some(stop_sentence(Stop::TxLimit))
    } else {
        None
    }
}

/// The sentence of an input that is refused, by the word of the input and its fault. None where it has none.
#[tactic(auto, unfolding(crate::specs::Lines::input_line))]
pub fn input_line(words: &[u8]) -> Option<&'static str>
    ensures { option_copied result ≡ input_line words.now }
{
    if let Some(rest) = behind(words, b"wallet ") {
        wallet_line(rest)
    } else if let Some(rest) = behind(words, b"blocks ") {
        blocks_line(rest)
    } else if let Some(rest) = behind(words, b"request ") {
        request_line(rest)
    } else if let Some(rest) = behind(words, b"plan ") {
        plan_line(rest)
    } else if let Some(rest) = behind(words, b"bump ") {
        bump_line(rest)
    } else if let Some(rest) = behind(words, b"psbt ") {
        psbt_line(rest)
    } else if let Some(rest) = behind(words, b"tx ") {
        signed_line(rest)
    } else if let Some(rest) = behind(words, b"keys ") {
        keys_line(rest)
    } else if begins(words, b"book RepeatCoin ") {
        Some(stop_sentence(Stop::RepeatCoin))
    } else {
        None
    }
}

/// The sentence of what stands behind the word `fault`. None where it has none.
#[tactic(auto, unfolding(crate::specs::Lines::words_sentence))]
pub fn words_sentence(words: &[u8]) -> Option<&'static str>
    ensures { option_copied result ≡ words_sentence words.now }
{
    if let Some(rest) = behind(words, b"input ") {
        input_line(rest)
    } else if let Some(rest) = behind(words, b"limit ") {
        limit_line(rest)
    } else if let Some(rest) = behind(words, b"saved ") {
        kept_line(rest)
    } else if let Some(rest) = behind(words, b"check ") {
        check_line(rest)
    } else if let Some(rest) = behind(words, b"settle ") {
        settle_line(rest)
    } else if begins(words, b"read ") {
        Some(stop_sentence(Stop::Read))
    } else if begins(words, b"write ") {
        Some(stop_sentence(Stop::Write))
    } else if begins(words, b"keep") {
        Some(stop_sentence(Stop::Keep))
    } else if begins(words, b"memory") {
        Some(stop_sentence(Stop::Memory))
    } else if begins(words, b"usage") {
        Some(stop_sentence(Stop::Usage))
    } else {
        None
    }
}

/// The sentence of a report without a payment, by its first word. None where it has none.
#[tactic(auto, unfolding(crate::specs::Lines::unpaid_line))]
pub fn unpaid_line(line: &[u8]) -> Option<&'static str>
    ensures { option_copied result ≡ unpaid_line line.now }
{
    let first = word(line);
    if first == b"none".as_slice() {
        Some(none_sentence())
    } else if first == b"unfinished".as_slice() {
        Some(unfinished_sentence())
    } else {
        None
    }
}

/// What may be the cause of a fault line, and what to do: the sentence of its fault. A line feed at its end may be left
/// out. A report without a payment has a sentence too. None where the line is neither.
#[tactic(auto, unfolding(crate::specs::Lines::line_sentence))]
pub fn line_sentence(line: &[u8]) -> Option<&'static str>
    ensures { option_copied result ≡ line_sentence line.now }
{
    match behind(line, b"fault ") {
        Some(words) => words_sentence(words),
        None => unpaid_line(line),
    }
}

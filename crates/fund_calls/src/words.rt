//! The words of each command.

ghost use Rattle.std.specs.Prelude.{◌≡◌, Some, IfOk, codes, string_bytes};
ghost use Rattle.std.specs.Fmt.{decimal};
ghost use Rattle.fund_top.specs.Words.{command_of, of_five_names, of_four_names, of_three_names};
ghost use Rattle.fund_calls.specs.Commands.{coins_command, work_command};

use fund_base::Memory;
use itoa::Buffer;
use std::alloc::Global;

/// `coins`, of the wallet and the blocks.
#[tactic(auto, using(crate::proofs::CommandWords::coins_words_are))]
pub(crate) fn coins_words(alloc: Global) -> Result<Vec<String>, Memory>
    ensures { IfOk result (λ words. command_of words.items ≡ Some coins_command) }
{
    let verb = String::from_str(alloc, "coins")?;
    let wallet = String::from_str(alloc, "wallet")?;
    let blocks = String::from_str(alloc, "blocks")?;
    let words = vec![in alloc; verb, wallet, blocks]?;
    Ok(words)
}

/// A number in decimal digits without a leading zero.
fn decimal_of(alloc: Global, number: u64) -> Result<String, Memory>
    ensures { IfOk result (λ text. string_bytes text ≡ decimal number) }
{
    let mut buffer = Buffer::new();
    let text = String::from_str(alloc, buffer.format(number))?;
    Ok(text)
}

/// `work`, of a number and a count.
#[tactic(auto, using(crate::proofs::CommandWords::work_words_are))]
pub(crate) fn work_words(alloc: Global, number: u64, count: u32) -> Result<Vec<String>, Memory>
    ensures { IfOk result (λ words. command_of words.items ≡ work_command number count) }
{
    let verb = String::from_str(alloc, "work")?;
    let first = decimal_of(alloc, number)?;
    let second = decimal_of(alloc, count as u64)?;
    let words = vec![in alloc; verb, first, second]?;
    Ok(words)
}

/// A verb and three names.
#[tactic(auto, using(crate::proofs::CommandWords::three_names_are))]
pub(crate) fn three_names(
    alloc: Global,
    verb: &str,
    wallet: &str,
    blocks: &str,
    third: &str,
) -> Result<Vec<String>, Memory>
    ensures { IfOk result (λ words. command_of words.items ≡ of_three_names verb.now wallet.now blocks.now third.now) }
{
    let verb = String::from_str(alloc, verb)?;
    let wallet = String::from_str(alloc, wallet)?;
    let blocks = String::from_str(alloc, blocks)?;
    let third = String::from_str(alloc, third)?;
    let words = vec![in alloc; verb, wallet, blocks, third]?;
    Ok(words)
}

/// A verb and four names.
#[tactic(auto, using(crate::proofs::CommandWords::four_names_are))]
pub(crate) fn four_names(
    alloc: Global,
    verb: &str,
    first: &str,
    second: &str,
    third: &str,
    fourth: &str,
) -> Result<Vec<String>, Memory>
    ensures { IfOk result (λ words. command_of words.items ≡ of_four_names verb.now first.now second.now third.now fourth.now) }
{
    let verb = String::from_str(alloc, verb)?;
    let first = String::from_str(alloc, first)?;
    let second = String::from_str(alloc, second)?;
    let third = String::from_str(alloc, third)?;
    let fourth = String::from_str(alloc, fourth)?;
    let words = vec![in alloc; verb, first, second, third, fourth]?;
    Ok(words)
}

/// A verb and the names of a payment's files, and two more.
#[tactic(auto, using(crate::proofs::CommandWords::five_names_are))]
pub(crate) fn five_names(
    alloc: Global,
    verb: &str,
    fourth: &str,
    fifth: &str,
) -> Result<Vec<String>, Memory>
    ensures { IfOk result (λ words. command_of words.items ≡ of_five_names verb.now (codes "wallet") (codes "blocks") (codes "request") fourth.now fifth.now) }
{
    let verb = String::from_str(alloc, verb)?;
    let wallet = String::from_str(alloc, "wallet")?;
    let blocks = String::from_str(alloc, "blocks")?;
    let request = String::from_str(alloc, "request")?;
    let fourth = String::from_str(alloc, fourth)?;
    let fifth = String::from_str(alloc, fifth)?;
    let words = vec![in alloc; verb, wallet, blocks, request, fourth, fifth]?;
    Ok(words)
}

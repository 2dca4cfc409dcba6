//! To whom a text pays that is given as an address.

ghost use Rattle.std.specs.Prelude.{◌≡◌, Err, IsOk, bytes_eq, length, map, nat_le, ◌&&◌, take};
ghost use Rattle.std.specs.Char.{to_ascii_lowercase};
ghost use Rattle.fund_base.specs.Parsing.{YieldsAll};
ghost use Rattle.pay_words.specs.Payees.{base58_fault, begins, begins_as_base58, foreign_in, is_front, is_version, other_payee, payee_at, plain_payee};
ghost use Rattle.pay_words.specs.declared.fault.WordFault.TheVariants.{Memory as OutOfMemory};

use crate::fault::WordFault;
use base58_addr::{Base58Fault, decode, other_letter};
use request_making::Payee;
use std::alloc::Global;

/// A network other than Bitcoin's, which is known by the beginning of its addresses.
#[derive(Clone, Copy)]
pub enum Network {
    /// `ltc1`.
    Litecoin,
    /// `0x`.
    Ethereum,
}

/// Whether the text begins with this word of lower-case letters, which it may spell in either case.
fn begins(text: &[u8], word: &[u8]) -> bool
    requires { map to_ascii_lowercase word.now ≡ word.now }
    ensures { result ≡ begins word.now text.now }
{
    text.len() >= word.len() && text[..word.len()].eq_ignore_ascii_case(word)
}

/// The other network that a text is an address of, by its beginning.
#[tactic(auto, unfolding(crate::specs::Payees::foreign_in))]
fn foreign_in(text: &[u8]) -> Option<Network>
    ensures { result ≡ foreign_in text.now }
{
    if begins(text, b"ltc1") {
        Some(Network::Litecoin)
    } else if begins(text, b"0x") {
        Some(Network::Ethereum)
    } else {
        None
    }
}

/// Whether an address in base58 may begin with this letter, on the main network or on a test network.
fn is_front(letter: u8) -> bool
    ensures { result ≡ is_front letter }
{
    letter == b'1' || letter == b'3' || letter == b'm' || letter == b'n' || letter == b'2'
}

/// Whether the text begins as an address in base58.
fn begins_as_base58(text: &[u8]) -> bool
    ensures { result ≡ begins_as_base58 text.now }
{
    match text {
        [] => false,
        [first, ..] => is_front(*first),
    }
}

/// Whether what is wrong with a text is its version alone.
fn is_version(fault: Base58Fault) -> bool
    ensures { result ≡ is_version fault }
{
    match fault {
        Base58Fault::Version => true,
        _ => false,
    }
}

/// Why a text is no address in base58: its first letter that base58 hasn't, or the fault of the whole.
fn base58_fault(place: usize, text: &[u8], fault: Base58Fault) -> WordFault
    ensures { result ≡ base58_fault place text.now fault }
{
    match other_letter(text) {
        Some(letter) => WordFault::Base58Letter(place, letter),
        None => WordFault::Base58(place, fault),
    }
}

/// To whom a text pays that is no address in base58, for this fault. It runs out of memory only where it pays somebody.
fn other_payee(
    alloc: Global,
    place: usize,
    text: &str,
    fault: Base58Fault,
) -> Result<Payee, WordFault>
    ensures gives { YieldsAll OutOfMemory plain_payee result (other_payee place text.now fault) }
    ensures short { result ≡ Err OutOfMemory → IsOk (other_payee place text.now fault) }
{
    if is_version(fault) || begins_as_base58(text.as_bytes()) {
        return Err(base58_fault(place, text.as_bytes(), fault));
    }
    match foreign_in(text.as_bytes()) {
        Some(network) => Err(WordFault::Foreign(place, network)),
        None => {
            let text = String::from_str(alloc, text)?;
            Ok(Payee::Address(text))
        }
    }
}

/// To whom the text of the word at this place pays. An address in base58 pays to its script. Another text is judged where the
/// request is read, unless it begins as one in base58 or is of another network. It runs out of memory only where it pays somebody.
#[tactic(auto, unfolding(crate::specs::Payees::payee_at))]
pub fn payee_at(alloc: Global, place: usize, text: &str) -> Result<Payee, WordFault>
    ensures gives { YieldsAll OutOfMemory plain_payee result (payee_at place text.now) }
    ensures short { result ≡ Err OutOfMemory → IsOk (payee_at place text.now) }
{
    match decode(alloc, text) {
        Ok(script) => Ok(Payee::Script(script)),
        Err(Base58Fault::Memory) => Err(WordFault::Memory),
        Err(fault) => other_payee(alloc, place, text, fault),
    }
}

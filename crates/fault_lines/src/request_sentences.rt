//! The sentences of faults of a request file.

ghost use Rattle.std.specs.Prelude.{◌≡◌};
ghost use Rattle.fault_lines.specs.Sentences.{other_request_kind_sentence, rate_range_sentence, request_kind_sentence, request_member_sentence, request_missing_sentence, request_sentence};

use crate::address_sentences::address_sentence;
use crate::stop::{Stop, stop_sentence};
use request_text::RequestFault;

/// The sentence of a value of this name that isn't what has to stand there, of the members behind `seed` in the table and of the other
/// rates.
#[tactic(auto, unfolding(crate::specs::Sentences::other_request_kind_sentence))]
fn other_request_kind_sentence(name: &[u8]) -> &'static str
    ensures { result.now ≡ other_request_kind_sentence name.now }
{
    if name == b"long_term".as_slice() {
        "The rate is no whole number of satoshi per 1,000 virtual bytes: multiply satoshi per virtual byte by 1,000."
    } else if name == b"discard".as_slice() {
        "The rate is no whole number of satoshi per 1,000 virtual bytes: multiply satoshi per virtual byte by 1,000."
    } else if name == b"change_target".as_slice() {
        "The change that is aimed at is no whole number of satoshi: write it without a point and without quotes."
    } else if name == b"tries".as_slice() {
        "The tries are no whole number: write one from 1 to 10,000,000, without quotes."
    } else if name == b"when_unfinished".as_slice() {
        "What is done when tries are used up is neither take nor stop: write one of these."
    } else if name == b"zero_conf".as_slice() {
        "The member of this name in the request file is neither true nor false: write one of these, without quotes."
    } else if name == b"include_unsafe".as_slice() {
        "The member of this name in the request file is neither true nor false: write one of these, without quotes."
    } else if name == b"group".as_slice() {
        "The member of this name in the request file is neither true nor false: write one of these, without quotes."
    } else if name == b"replaceable".as_slice() {
        "The member of this name in the request file is neither true nor false: write one of these, without quotes."
    } else if name == b"bump".as_slice() {
        "The payment that is to be replaced is not named by its txid: copy its 64 hex digits from what coins prints."
    } else if name == b"locktime".as_slice() {
        "The lock time is no whole number up to 4,294,967,295: give a height, or from 500,000,000 on the seconds since 1970."
    } else if name == b"psbt".as_slice() {
        "The version of the PSBT is neither 0 nor 2: write one of these."
    } else {
        "The member of this name in the request file is not what has to stand there: see the table of the request file."
    }
}

/// The sentence of a value of this name that isn't what has to stand there.
#[tactic(auto, unfolding(crate::specs::Sentences::request_kind_sentence))]
pub fn request_kind_sentence(name: &[u8]) -> &'static str
    ensures { result.now ≡ request_kind_sentence name.now }
{
    if name == b"root".as_slice() {
        "The request file is JSON and no object: it has to begin with a brace and name its members."
    } else if name == b"recipients".as_slice() {
        "The recipients are no list, or one of them has both or neither of address and script: write each in braces, with one of these and an amount."
    } else if name == b"address".as_slice() {
        "An address of the request file is no text: write it in quotes."
    } else if name == b"script".as_slice() {
        "The script of a recipient is no hex or has an odd number of digits: give the scriptPubKey that getaddressinfo tells."
    } else if name == b"amount".as_slice() {
        "An amount is no whole number of satoshi: write it without a point and without quotes."
    } else if name == b"rate".as_slice() {
        "The rate is no whole number of satoshi per 1,000 virtual bytes: multiply satoshi per virtual byte by 1,000."
    } else if name == b"coins".as_slice() {
        "A coin is not spelled as TXID:INDEX: copy it from what coins prints."
    } else if name == b"method".as_slice() {
        "The method is not known: auto, changeless, weight, draw and manual are."
    } else if name == b"seed".as_slice() {
        "The seed is not 64 hex digits: openssl rand -hex 32 prints such."
    } else {
        other_request_kind_sentence(name)
    }
}

/// The sentence of a member of this name that may not stand there: `coins` may not beside `bump`, and no other name is
/// known.
#[tactic(auto, unfolding(crate::specs::Sentences::request_member_sentence))]
pub fn request_member_sentence(name: &[u8]) -> &'static str
    ensures { result.now ≡ request_member_sentence name.now }
{
    if name == b"coins".as_slice() {
        "The request lists coins and names a payment to be replaced: leave one of the two out."
    } else {
        "The request file has a member of a name that is not known: take it out, or spell it as the table of the request file does."
    }
}

/// The sentence of a member that has to be there and is not.
#[tactic(auto, unfolding(crate::specs::Sentences::request_missing_sentence))]
pub fn request_missing_sentence() -> &'static str
    ensures { result.now ≡ request_missing_sentence }
{
    "The request file lacks the member of this name: give it; the methods auto and draw need a seed of 64 hex digits."
}

/// The sentence of a rate that is above its range.
#[tactic(auto, unfolding(crate::specs::Sentences::rate_range_sentence))]
pub fn rate_range_sentence() -> &'static str
    ensures { result.now ≡ rate_range_sentence }
{
    "The rate of this name is above 100,000 satoshi per virtual byte: give less."
}

/// What to do about a request file that is refused: the sentence of each fault.
#[tactic(auto, unfolding(crate::specs::Sentences::request_sentence))]
pub fn request_sentence(fault: &RequestFault) -> &'static str
    ensures { result.now ≡ request_sentence fault.now }
{
    match fault {
        RequestFault::NotJson =>
            "The request file is no JSON text: python3 -m json.tool FILE names the line; save it as UTF-8 without a byte order mark.",
        RequestFault::Kind(name) => request_kind_sentence(name.as_str().as_bytes()),
        RequestFault::Member(name) => request_member_sentence(name.as_bytes()),
        RequestFault::Missing(_) => request_missing_sentence(),
        RequestFault::Address(_, fault) => address_sentence(fault),
        RequestFault::Script(_) =>
            "The script of the recipient at this index is empty or longer than 10,000 bytes: copy it again.",
        RequestFault::AmountRange(_) =>
            "The amount of the recipient at this index is above 21,000,000 bitcoin: give less.",
        RequestFault::Dust(_) =>
            "The amount of the recipient at this index is less than nodes relay: pay more; 1 bitcoin is 100000000 satoshi.",
        RequestFault::SumRange => "The amounts are together above 21,000,000 bitcoin: pay less.",
        RequestFault::NoRecipients => "Nobody is to be paid: name a recipient.",
        RequestFault::RateRange(_) => rate_range_sentence(),
        RequestFault::TriesRange =>
            "The number of tries is 0 or above 10,000,000: give one between.",
        RequestFault::Repeat(_) =>
            "The coin at this index, counted from 0, stands before it too: take it out.",
        RequestFault::Memory => stop_sentence(Stop::Memory),
    }
}

//! The sentences of faults of the words.

ghost use Rattle.std.specs.Prelude.{◌≡◌};
ghost use Rattle.pay_words.specs.Sentences.{amount_sentence, base58_sentence, flag_about, letter_about, network_sentence, pay_file_sentence, rate_sentence, word_place, word_sentence};

use crate::address::Network;
use crate::fault::WordFault;
use crate::flag::Flag;
use crate::line_fault::LineFault;
use base58_addr::Base58Fault;
use request_making::SpellingFault;

/// What to do about a text that is no amount.
#[tactic(auto, unfolding(crate::specs::Sentences::amount_sentence))]
fn amount_sentence(fault: &SpellingFault) -> &'static str
    ensures { result.now ≡ amount_sentence fault.now }
{
    match fault {
        SpellingFault::Digit(_) =>
            "A digit has to stand there: an amount is spelled as 150000, 150000sat or 0.0015 BTC.",
        SpellingFault::Unit(_) =>
            "The unit is not known: behind an amount stands sat, BTC or nothing; write a point and no comma.",
        SpellingFault::Fine(_) =>
            "The amount is finer than a satoshi: BTC has at most eight digits behind its point, and sat has none.",
        SpellingFault::Range => "The amount is above 21,000,000 bitcoin: give less.",
    }
}

/// What to do about a text that is no rate.
#[tactic(auto, unfolding(crate::specs::Sentences::rate_sentence))]
fn rate_sentence(fault: &SpellingFault) -> &'static str
    ensures { result.now ≡ rate_sentence fault.now }
{
    match fault {
        SpellingFault::Digit(_) =>
            "A digit has to stand there: a rate is spelled as 12, 12.5 or 12.5sat/vB.",
        SpellingFault::Unit(_) =>
            "The unit is not known: a rate is in satoshi per virtual byte, with sat/vB behind it or nothing; write a point and no comma.",
        SpellingFault::Fine(_) => "A rate has at most three digits behind its point.",
        SpellingFault::Range => "The rate is above 100,000 satoshi per virtual byte: give less.",
    }
}

/// What to do about a text that is no address in base58.
#[tactic(auto, unfolding(crate::specs::Sentences::base58_sentence))]
fn base58_sentence(fault: &Base58Fault) -> &'static str
    ensures { result.now ≡ base58_sentence fault.now }
{
    match fault {
        Base58Fault::Letter =>
            "A letter stands there that no address has: base58 has no 0, O, I and l, no blank and no sign; copy the address again.",
        Base58Fault::Length => "The address is too short or too long: copy it again.",
        Base58Fault::Checksum => "A letter of the address is mistyped: copy it again.",
        Base58Fault::Version =>
            "This is an address of another network, as m, n and 2 stand for a test network, and L and M for Litecoin: ask for one of Bitcoin's main network.",
        Base58Fault::Memory => "The machine has too little memory: try again with less beside it.",
    }
}

/// What to do about an address of another network.
#[tactic(auto, unfolding(crate::specs::Sentences::network_sentence))]
fn network_sentence(network: &Network) -> &'static str
    ensures { result.now ≡ network_sentence network.now }
{
    match network {
        Network::Litecoin =>
            "This is an address of Litecoin: ask for one of Bitcoin's main network.",
        Network::Ethereum =>
            "This is an address of Ethereum: ask for one of Bitcoin's main network.",
    }
}

/// What to do about a file that lists no payments: the sentence of each fault.
#[tactic(auto, unfolding(crate::specs::Sentences::pay_file_sentence))]
pub fn pay_file_sentence(fault: &LineFault) -> &'static str
    ensures { result.now ≡ pay_file_sentence fault.now }
{
    match fault {
        LineFault::TooLong =>
            "The file of payments is longer than 4,194,304 bytes: pay by several files.",
        LineFault::NotText => "The file of payments is no text in UTF-8: save it as one.",
        LineFault::NoComma(_) => "No comma stands in this line: each line is ADDRESS,AMOUNT.",
        LineFault::NoLine => "The file of payments has no line: each line is ADDRESS,AMOUNT.",
        LineFault::Memory => "The machine has too little memory: try again with less beside it.",
    }
}

/// What to do about words that ask for no payment: the sentence of each fault.
#[tactic(auto, unfolding(crate::specs::Sentences::word_sentence))]
pub fn word_sentence(fault: &WordFault) -> &'static str
    ensures { result.now ≡ word_sentence fault.now }
{
    match fault {
        WordFault::Unknown(_) => "This word is no flag: the help shows all flags with examples.",
        WordFault::Twice(_) => "This flag is given twice: leave one out.",
        WordFault::NoValue(_) =>
            "Nothing stands behind this flag, or another flag does: give its value.",
        WordFault::Missing(_) => "This flag has to be given: the help shows what it says.",
        WordFault::EmptyName(_) => "The name behind this flag is empty: give the name of a file.",
        WordFault::SameName(_) => "This name is given for another file too: name a new file.",
        WordFault::NoAmount(_) =>
            "The amount is missing: a recipient is spelled as ADDRESS=AMOUNT.",
        WordFault::Amount(_, fault) => amount_sentence(fault),
        WordFault::Script(_) =>
            "The script is no hex: give the scriptPubKey that getaddressinfo tells.",
        WordFault::Rate(_, fault) => rate_sentence(fault),
        WordFault::LowRate(_) =>
            "Nodes do not relay a payment below 1 satoshi per virtual byte: give more, or --allow-low-rate beside it.",
        WordFault::Base58Letter(_, _) => base58_sentence(&Base58Fault::Letter),
        WordFault::Base58(_, fault) => base58_sentence(fault),
        WordFault::Foreign(_, network) => network_sentence(network),
        WordFault::Method(_) =>
            "The method is not known: auto, changeless, weight, draw and manual are.",
        WordFault::Number(_) =>
            "This is no whole number, or it is too great: write it in digits alone.",
        WordFault::Seed(_) => "The seed is not 64 hex digits: openssl rand -hex 32 prints such.",
        WordFault::Txid(_) => "The txid is not 64 hex digits: copy it as coins shows it.",
        WordFault::LockTime(_) =>
            "This is no lock time: write the height of a block, or from 500000000 on the seconds since 1970, up to 4294967295.",
        WordFault::BesideBump(_) =>
            "--bump spends the coins of the payment that is replaced: leave out --coin, --consolidate and --fee-from-amount beside it.",
        WordFault::BothWays(_) =>
            "--fee-from-amount and --consolidate exclude one another: leave one of them out.",
        WordFault::NotChangeless(_) =>
            "--consolidate goes with --method changeless alone: give that beside it.",
        WordFault::NotWeight(_) =>
            "--fee-from-amount goes with --method weight alone: leave out --method, or this flag.",
        WordFault::ListedCoin(_) =>
            "No coin may be listed beside --consolidate or --fee-from-amount: leave --coin out, or that flag.",
        WordFault::Memory => "The machine has too little memory: try again with less beside it.",
    }
}

/// The place of the word that a fault is about, if it is about one.
pub fn word_place(fault: &WordFault) -> Option<usize>
    ensures { result ≡ word_place fault.now }
{
    match *fault {
        WordFault::Unknown(place)
        | WordFault::Twice(place)
        | WordFault::SameName(place)
        | WordFault::NoAmount(place)
        | WordFault::Amount(place, _)
        | WordFault::Script(place)
        | WordFault::Rate(place, _)
        | WordFault::LowRate(place)
        | WordFault::Base58Letter(place, _)
        | WordFault::Base58(place, _)
        | WordFault::Foreign(place, _)
        | WordFault::Method(place)
        | WordFault::Number(place)
        | WordFault::Seed(place)
        | WordFault::Txid(place)
        | WordFault::LockTime(place)
        | WordFault::BesideBump(place)
        | WordFault::BothWays(place)
        | WordFault::NotChangeless(place)
        | WordFault::NotWeight(place)
        | WordFault::ListedCoin(place) => Some(place),
        WordFault::NoValue(_)
        | WordFault::Missing(_)
        | WordFault::EmptyName(_)
        | WordFault::Memory => None,
    }
}

/// The place of the letter that a fault is about, counted in bytes from the beginning of its word; none where it is about none.
pub fn letter_about(fault: &WordFault) -> Option<usize>
    ensures { result ≡ letter_about fault.now }
{
    match *fault {
        WordFault::Base58Letter(_, letter) => Some(letter),
        _ => None,
    }
}

/// The flag that a fault is about, where it is about the value of a flag that isn't among the words or is empty.
pub fn flag_about(fault: &WordFault) -> Option<Flag>
    ensures { result ≡ flag_about fault.now }
{
    match *fault {
        WordFault::NoValue(flag) | WordFault::Missing(flag) | WordFault::EmptyName(flag) => {
            Some(flag)
        }
        _ => None,
    }
}

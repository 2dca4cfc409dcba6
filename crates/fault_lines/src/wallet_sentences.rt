//! The sentences of faults of a wallet file.

ghost use Rattle.std.specs.Prelude.{◌≡◌};
ghost use Rattle.fault_lines.specs.Sentences.{wallet_kind_sentence, wallet_member_sentence, wallet_missing_sentence, wallet_repeat_sentence, wallet_sentence};

use crate::stop::{Stop, stop_sentence};
use crate::transaction_sentences::tx_sentence;
use wallet_text::WalletFault;

/// The sentence of a value of this name that isn't what has to stand there.
#[tactic(auto, unfolding(crate::specs::Sentences::wallet_kind_sentence))]
pub fn wallet_kind_sentence(name: &[u8]) -> &'static str
    ensures { result.now ≡ wallet_kind_sentence name.now }
{
    if name == b"root".as_slice() {
        "The wallet file is JSON and no object: it has to begin with a brace and name its members."
    } else if name == b"script".as_slice() {
        "A script of the wallet file is no hex, or an address stands in its place: give the scriptPubKey that getaddressinfo tells."
    } else if name == b"tx".as_slice() {
        "A transaction of the wallet file is no hex or has an odd number of digits: copy it again."
    } else if name == b"height".as_slice() {
        "A height of the wallet file is no whole number, or one of earlier is above the wallet: give that block as a block, or raise height and hash together."
    } else if name == b"hash".as_slice() {
        "The hash of the wallet file is not 64 hex digits: give that of the block at height, as getblockhash tells it."
    } else if name == b"weight".as_slice() {
        "A weight of the wallet file is no whole number: give weight units from 165 to 400,000, without quotes."
    } else if name == b"scripts".as_slice() {
        "The scripts of the wallet file are no list of entries with script and weight, or an entry is none: write each in braces."
    } else if name == b"change".as_slice() {
        "The change of the wallet file is no entry with script and weight: write both in braces, as one of scripts."
    } else if name == b"earlier".as_slice() {
        "The earlier transactions of the wallet file are no list of entries with tx and height, or an entry is none: write each in braces."
    } else if name == b"pending".as_slice() {
        "The pending list of the wallet file is no list of transactions in hex, or one was cut off: write the hex of each alone, in quotes."
    } else if name == b"abandoned".as_slice() {
        "The abandoned payments of the wallet file are no list of txids: write 64 hex digits for each, in quotes."
    } else if name == b"locked".as_slice() {
        "The locked coins of the wallet file are no list of TXID:INDEX: copy each from what coins prints, in quotes."
    } else {
        "The member of this name in the wallet file is not what has to stand there: see the table of the wallet file."
    }
}

/// The sentence of a member whose name is not known.
#[tactic(auto, unfolding(crate::specs::Sentences::wallet_member_sentence))]
pub fn wallet_member_sentence() -> &'static str
    ensures { result.now ≡ wallet_member_sentence }
{
    "The wallet file has a member of a name that is not known: take it out, or spell it as the table of the wallet file does."
}

/// The sentence of a member that has to be there and is not.
#[tactic(auto, unfolding(crate::specs::Sentences::wallet_missing_sentence))]
pub fn wallet_missing_sentence() -> &'static str
    ensures { result.now ≡ wallet_missing_sentence }
{
    "The wallet file lacks the member of this name: give it."
}

/// The sentence of a transaction that stands before it in its list.
#[tactic(auto, unfolding(crate::specs::Sentences::wallet_repeat_sentence))]
pub fn wallet_repeat_sentence() -> &'static str
    ensures { result.now ≡ wallet_repeat_sentence }
{
    "The transaction at this index stands before it in the same list: take it out."
}

/// What to do about a wallet file that is refused: the sentence of each fault.
#[tactic(auto, unfolding(crate::specs::Sentences::wallet_sentence))]
pub fn wallet_sentence(fault: &WalletFault) -> &'static str
    ensures { result.now ≡ wallet_sentence fault.now }
{
    match fault {
        WalletFault::NotJson =>
            "The wallet file is no JSON text: python3 -m json.tool FILE names the line; save it as UTF-8 without a byte order mark.",
        WalletFault::Kind(name) => wallet_kind_sentence(name.as_str().as_bytes()),
        WalletFault::Member(_) => wallet_member_sentence(),
        WalletFault::Missing(_) => wallet_missing_sentence(),
        WalletFault::Script(_) =>
            "The script at this index stands there twice, is empty, or is longer than 10,000 bytes: take it out; one past the last script means change.",
        WalletFault::Weight(_) =>
            "The weight at this index is out of 165 to 400,000: give weight units and not virtual bytes; one past the last script means change.",
        WalletFault::Tx(_, _, fault) => tx_sentence(fault),
        WalletFault::Repeat(_, _) => wallet_repeat_sentence(),
        WalletFault::ParentLater(_) =>
            "In pending a child stands before its parent: put the parent first.",
        WalletFault::Memory => stop_sentence(Stop::Memory),
    }
}

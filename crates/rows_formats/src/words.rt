//! What is told in words, a line each: every fault of transactions (`tx`), block files (`blocks`) and addresses (`addresses`); a
//! fault of a wallet (`wallet FAULT NAME`) and of a request (`request FAULT NAME`); a hash, a coin and names (`names`); listings
//! of payments and coins (`replaced`, `others`). The hash and the txid are those of Bitcoin's first block.

use crate::shown::put_shown;
use crate::{faults, listings, named_faults};
use command_end::{coin_text, shown_name};
use fund_base::{OutPoint, Txid};
use row_columns::{Answer, column};

/// The hash of Bitcoin's first block.
pub(crate) const FIRST: [u8; 32] =
    *b"\x6f\xe2\x8c\x0a\xb6\xf1\xb3\x72\xc1\xa6\xa2\x46\xae\x63\xf7\x4f\x93\x1e\x83\x65\xe1\x5a\x08\x9c\x68\xd6\x19\x00\x00\x00\x00\x00";

/// The txid of its transaction.
const PAYMENT: [u8; 32] =
    *b"\x3b\xa3\xed\xfd\x7a\x7b\x12\xb2\x7a\xc7\x2c\x3e\x67\x76\x8f\x61\x7f\xc8\x1b\xc3\x88\x8a\x51\x32\x3a\x9f\xb8\xaa\x4b\x1e\x5e\x4a";

const NAMES: [&str; 6] = [
    "",
    "!change_target~",
    "a b\nfault usage",
    "\\x20",
    "\x1b[2J\x7f",
    "\u{e9}",
];

/// Puts a hash, a coin, and names.
fn names(out: &mut Answer) {
    put_shown(out, "", &FIRST);
    let coin = OutPoint {
        txid: Txid(PAYMENT),
        index: 10,
    };
    out.words("\n", coin_text(out.alloc, &coin));
    for name in NAMES {
        out.words("\n", shown_name(out.alloc, name));
    }
}

pub(crate) fn row(out: &mut Answer, verb: &str, columns: &[&str]) {
    match verb {
        "tx" => faults::transactions(out),
        "blocks" => faults::blocks(out),
        "addresses" => faults::addresses(out),
        "wallet" => named_faults::wallet(out, column(columns, 0), column(columns, 1)),
        "request" => named_faults::request(out, column(columns, 0), column(columns, 1)),
        "names" => names(out),
        "replaced" => out.words("", listings::replaced(out.alloc)),
        "others" => out.words("", listings::others(out.alloc)),
        _ => out.word("no such verb"),
    }
}

//! Wallet files and request files, and what they come to. A label, where it isn't empty, is a line before it.
//!
//! - `request LABEL REQUEST`: what a copy of the request holds
//! - `wallet LABEL WALLET`: what the wallet holds
//! - `states LABEL WALLET TIP RATE`: the states of a wallet's payments, and what may be spent at this tip, with its price at this
//!   rate; a RATE may be left out for 0. `coins` with the same columns: what may be spent alone, each coin on a line
//! - `bump LABEL WALLET TIP REQUEST`: what a replacement of the payment that the request names is made from, or why there is
//!   none. The wallet has no blocks.
//! - `book LABEL WALLET BLOCKS`: the coins of the book of a wallet and its blocks, and what spends them, with the blocks added
//!   first; `waiting` with the same columns: with the pending transactions first

use crate::requests::{put_request, put_wallet};
use crate::{books, bumps, states};
use fund_base::Memory;
use request_text::{Request, read_request};
use row_columns::{Answer, bytes_in, column, number_in, short_in};
use wallet_text::{Wallet, read_wallet};

/// Puts a copy of a request.
fn put_copy(out: &mut Answer, request: &Request) {
    match request.copy(out.alloc) {
        Ok(copy) => put_request(out, &copy),
        Err(Memory) => out.lack(),
    }
}

fn request(out: &mut Answer, text: &str) {
    match read_request(out.alloc, text.as_bytes()) {
        Ok(request) => put_copy(out, &request),
        Err(_) => out.word("no request"),
    }
}

fn bump(out: &mut Answer, wallet: Wallet, columns: &[&str]) {
    match read_request(out.alloc, column(columns, 3).as_bytes()) {
        Ok(request) => bumps::put_bump(out, wallet, short_in(column(columns, 2)), &request),
        Err(_) => out.word("no request"),
    }
}

fn book(out: &mut Answer, wallet: &Wallet, columns: &[&str], blocks_first: bool) {
    let blocks = bytes_in(out.alloc, column(columns, 2));
    books::put_book(out, wallet, blocks, blocks_first);
}

/// Puts what a verb asks of a wallet that stays.
fn look(out: &mut Answer, verb: &str, wallet: &Wallet, columns: &[&str]) {
    match verb {
        "wallet" => put_wallet(out, wallet),
        "book" => book(out, wallet, columns, true),
        _ => book(out, wallet, columns, false),
    }
}

/// Puts what may be spent of a wallet, alone or behind its states.
fn coins(out: &mut Answer, wallet: Wallet, columns: &[&str], is_alone: bool) {
    let tip = short_in(column(columns, 2));
    let rate = number_in(column(columns, 3), 0);
    states::put_states(out, wallet, tip, rate, is_alone);
}

/// Puts what a verb asks of a wallet.
fn put_verb(out: &mut Answer, verb: &str, wallet: Wallet, columns: &[&str]) {
    match verb {
        "states" => coins(out, wallet, columns, false),
        "coins" => coins(out, wallet, columns, true),
        "bump" => bump(out, wallet, columns),
        _ => look(out, verb, &wallet, columns),
    }
}

pub(crate) fn row(out: &mut Answer, verb: &str, columns: &[&str]) {
    let (label, text) = (column(columns, 0), column(columns, 1));
    if !label.is_empty() {
        out.word(label);
        out.word("\n");
    }
    if verb == "request" {
        return request(out, text);
    }
    match read_wallet(out.alloc, text.as_bytes()) {
        Ok(wallet) => put_verb(out, verb, wallet, columns),
        Err(_) => out.word("no wallet"),
    }
}

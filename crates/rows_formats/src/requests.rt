//! Request files and wallet files that are read: what they hold.

use crate::shown::put_shown;
use request_text::{Method, Request};
use row_columns::Answer;
use wallet_text::Wallet;

/// Puts what else than a method and lists a request has.
fn put_members(out: &mut Answer, request: &Request) {
    out.flag(" take ", request.take);
    out.flag(" zero_conf ", request.zero_conf);
    out.flag(" include_unsafe ", request.include_unsafe);
    out.flag(" group ", request.group);
    out.flag(" replaceable ", request.replaceable);
    out.digits(" seed ", &request.seed);
    match &request.bump {
        Some(txid) => put_shown(out, " bump ", txid.bytes()),
        None => out.word(" bump none"),
    }
}

/// Puts what a request asks for: all but what its lists hold, of which the lengths are put.
pub(crate) fn put_request(out: &mut Answer, request: &Request) {
    out.number("rate ", request.rate);
    out.number(" long_term ", request.long_term);
    out.number(" discard ", request.discard);
    out.number(" change_target ", request.change_target);
    out.number(" tries ", request.tries);
    out.number(" locktime ", request.locktime as u64);
    out.word(match request.method {
        Method::Auto => " Auto",
        Method::Changeless => " Changeless",
        Method::Weight => " Weight",
        Method::Draw => " Draw",
        Method::Manual => " Manual",
    });
    put_members(out, request);
    out.number(" recipients ", request.recipients.len() as u64);
    out.number(" coins ", request.coins.len() as u64);
}

/// Puts what a wallet holds: each of its numbers, its hash, and how many entries its lists have.
pub(crate) fn put_wallet(out: &mut Answer, wallet: &Wallet) {
    out.number("height ", wallet.height as u64);
    put_shown(out, " hash ", &wallet.hash);
    out.number(" change ", wallet.change.weight);
    out.number(" scripts ", wallet.scripts.len() as u64);
    out.number(" earlier ", wallet.earlier.len() as u64);
    out.number(" pending ", wallet.pending.len() as u64);
    out.number(" abandoned ", wallet.abandoned.len() as u64);
    out.number(" locked ", wallet.locked.len() as u64);
}

//! What replacements are made from, a line each.

ghost use Rattle.std.specs.Prelude.{◌<◌, IsSome};
ghost use Rattle.fund_files.specs.Chain.{IsChain};

use crate::candidates::put_candidates;
use crate::shown::{put_fault, put_shown};
use command_end::bump_fault_parts;
use fee_bump::{BumpFault, BumpTerms, known_terms};
use fund_files::{Chain, chain_of_wallet};
use payment_facts::known_without;
use payment_states::known_states;
use request_text::Request;
use row_columns::Answer;
use wallet_text::Wallet;

/// Puts the terms.
fn put_terms(out: &mut Answer, terms: &BumpTerms) {
    out.number("ok\nburden ", terms.burden);
    out.number("\nold-fee ", terms.old_fee);
    out.number("\nold-vsize ", terms.old_vsize);
    for txid in &terms.replaced {
        put_shown(out, "\nreplaced ", txid.bytes());
    }
    put_candidates(out, "\npreset ", &terms.presets, false);
    put_candidates(out, "\ncandidate ", &terms.candidates, false);
}

/// Puts the terms, and the confirmed coins that may be spent without what is replaced.
fn put_all(out: &mut Answer, held: &Chain, tip: u32, terms: &BumpTerms) -> Result<(), BumpFault>
    requires held { IsChain held.now }
    requires tip { tip < 4294967295 }
{
    put_terms(out, terms);
    let book = held.book.known();
    match known_without(out.alloc, &book, &held.wallet, tip, &terms.replaced) {
        Ok(coins) => put_candidates(out, "\nwithout ", &coins, false),
        Err(_) => return Err(BumpFault::Memory),
    }
    Ok(())
}

/// Puts what the request's payment comes to, by the wallet's book.
fn put_held(out: &mut Answer, held: &Chain, tip: u32, request: &Request) -> Result<(), BumpFault>
    requires held { IsChain held.now }
    requires tip { tip < 4294967295 }
    requires bump { IsSome request.now.bump }
{
    let book = held.book.known();
    let Ok(states) = known_states(out.alloc, &book, &held.wallet) else {
        return Err(BumpFault::Memory);
    };
    let terms = known_terms(out.alloc, &book, &held.wallet, &states, tip, request)?;
    put_all(out, held, tip, &terms)
}

/// Puts what the request's payment comes to, or why there is no replacement.
fn put_ended(out: &mut Answer, held: &Chain, tip: u32, request: &Request)
    requires held { IsChain held.now }
    requires tip { tip < 4294967295 }
    requires bump { IsSome request.now.bump }
{
    if let Err(fault) = put_held(out, held, tip, request) {
        put_fault(out, "fault ", &bump_fault_parts(&fault));
    }
}

/// Puts what the request's payment comes to.
pub(crate) fn put_bump(out: &mut Answer, wallet: Wallet, tip: u32, request: &Request) {
    if tip == u32::MAX || request.bump.is_none() {
        return out.word("no tip or nothing to replace");
    }
    match chain_of_wallet(out.alloc, wallet) {
        Ok(held) => put_ended(out, &held, tip, request),
        Err(_) => out.word("no book"),
    }
}

//! Which coins of a payment can't be spent any more.

ghost use Rattle.std.specs.Prelude.{◌≡◌, IfOk, find, option_copied, option_map};
ghost use Rattle.std.specs.Map.{lookup};
ghost use Rattle.fund_base.specs.Outpoints.{same_outpoint};
ghost use Rattle.coin_candidates.specs.declared.candidate.Candidate.{Candidate};
ghost use Rattle.fund_base.specs.declared.outpoint.OutPoint.{OutPoint};
ghost use Rattle.fund_files.specs.Chain.{IsChain};
ghost use Rattle.fund_desk.specs.Looked.{IsLookOf, good_in, is_at, same_as, taken_in};
ghost use Rattle.fund_desk.specs.Ready.{IsOneAtEach};
ghost use Rattle.desk_machine.specs.State.{candidates_in};
ghost use Rattle.desk_machine.specs.Taken.{first_taken, meets_numbered, meets_row, same_coin};

use crate::payments::{Committed, reserved_of, set_of};
use crate::ready::ready_of;
use coin_candidates::Candidate;
use fund_base::{Memory, OutPoint};
use fund_files::WholeChain;
use fund_plan::Funded;
use indexmap::{IndexMap, IndexSet};
use output_groups::{Row, ladder, meets};
use request_text::Request;
use std::alloc::Global;

/// What the coins of a payment are looked up in: the outpoints that committed payments spend, those that the request
/// lists, and the coins of the payment as they may be spent now, each at its outpoint.
#[derive(Drop)]
pub struct Look {
    reserved: IndexSet<OutPoint>,
    listed: IndexSet<OutPoint>,
    coins: IndexMap<OutPoint, Candidate>,
}

/// Coins by their outpoints. The error is out of memory.
fn by_point(alloc: Global, coins: Vec<Candidate>) -> Result<IndexMap<OutPoint, Candidate>, Memory>
    requires { IsOneAtEach coins.items }
    ensures { (o : OutPoint) → IfOk result (λ m. lookup (same_outpoint o) m.entries ≡ find (is_at o) coins.items) }
{
    let mut map = IndexMap::new(alloc);
    for coin in coins {
        map.insert(coin.coin, coin)?;
    }
    Ok(map)
}

/// What is looked up where the request lists these outpoints. The error is out of memory.
fn look_of(
    alloc: Global,
    committed: &[Committed],
    listed: &[OutPoint],
    now: Vec<Candidate>,
) -> Result<Look, Memory>
    requires { IsOneAtEach now.items }
    ensures { IfOk result (IsLookOf committed.now listed.now now.items) }
{
    let reserved = reserved_of(alloc, committed)?;
    let listed = set_of(alloc, listed)?;
    let coins = by_point(alloc, now)?;
    Ok(Look {
        reserved,
        listed,
        coins,
    })
}

/// Whether both are the same output, of the same value, weight and script.
fn same_coin(a: &Candidate, b: &Candidate) -> bool
    ensures { result ≡ same_coin a.now b.now }
{
    a.coin == b.coin
        && (a.value == b.value && (a.weight == b.weight && a.script.bytes() == b.script.bytes()))
}

/// Whether the row has this number, and the coin meets it.
fn meets_numbered(number: u8, coin: &Candidate, row: &Row) -> bool
    ensures { result ≡ meets_numbered number coin.now row.now }
{
    row.number == number && meets(row, coin)
}

/// Whether the row of this number is one of the request's, and the coin meets it.
fn meets_row(request: &Request, number: u8, coin: &Candidate) -> bool
    ensures { result ≡ meets_row request.now number coin.now }
{
    let rows = ladder(request.zero_conf, request.include_unsafe);
    rows.iter().any(|row| meets_numbered(number, coin, row))
}

/// The coin as it may be spent now, if it may.
fn coin_now<'a>(look: &'a Look, coin: &Candidate) -> Option<&'a Candidate>
    ensures { option_copied result ≡ same_as coin.now (lookup (same_outpoint coin.now.coin) look.now.coins.entries) }
{
    let there = look.coins.get(&coin.coin)?;
    if same_coin(coin, there) {
        Some(there)
    } else {
        None
    }
}

/// Whether a coin that may be spent now is good for a payment of this row.
fn is_good(look: &Look, request: &Request, number: u8, coin: &Candidate) -> bool
    ensures { result ≡ good_in look.now request.now number coin.now }
{
    if look.listed.contains(&coin.coin) {
        coin.safe || request.include_unsafe
    } else {
        meets_row(request, number, coin)
    }
}

/// Whether the coin can't be spent by a payment of this row any more.
fn is_taken(look: &Look, request: &Request, number: u8, coin: &Candidate) -> bool
    ensures { result ≡ taken_in look.now request.now number coin.now }
{
    if look.reserved.contains(&coin.coin) {
        return true;
    }
    match coin_now(look, coin) {
        Some(there) => !is_good(look, request, number, there),
        None => true,
    }
}

/// The first of these coins that can't be spent by a payment of this row any more.
fn first_in<'a>(
    look: &Look,
    request: &Request,
    number: u8,
    coins: &'a [Candidate],
) -> Option<&'a Candidate>
    ensures { option_copied result ≡ find (taken_in look.now request.now number) coins.now }
{
    coins
        .iter()
        .find(|coin| is_taken(look, request, number, coin))
}

/// The outpoint of the first of these coins that can't be spent by a payment of this row any more. It takes no memory.
fn first_point(look: &Look, request: &Request, number: u8, coins: &[Candidate]) -> Option<OutPoint>
    ensures { result ≡ option_map (λ (c : Candidate). c.coin) (find (taken_in look.now request.now number) coins.now) }
{
    match first_in(look, request, number, coins) {
        Some(coin) => Some(coin.coin),
        None => None,
    }
}

/// The first coin of a payment of this request that can't be spent any more: a committed payment spends it; or it isn't
/// one of those that may be spent now; or it is listed and unsafe without `include_unsafe`; or it isn't listed and doesn't
/// meet the row of the payment. The error is out of memory.
pub fn first_taken(
    alloc: Global,
    held: &WholeChain,
    committed: &[Committed],
    request: &Request,
    funded: &Funded,
) -> Result<Option<OutPoint>, Memory>
    requires { IsChain held.now }
    ensures { IfOk result (λ o. o ≡ option_map (λ (c : Candidate). c.coin) (first_taken committed.now (candidates_in held.now) request.now funded.now.row funded.now.coins)) }
{
    let now = ready_of(alloc, held, &funded.coins)?;
    let look = look_of(alloc, committed, &request.coins, now)?;
    Ok(first_point(&look, request, funded.row, &funded.coins))
}

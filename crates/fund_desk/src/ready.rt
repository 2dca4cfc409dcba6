//! Which coins of a payment may be spent now. What is known of the pending list is worked out once; the coins are looked up
//! in the book, so that the other coins of the wallet take no time.

ghost use Rattle.std.specs.Prelude.{◌≡◌, IfOk, filter, find};
ghost use Rattle.std.specs.List.{filter_map};
ghost use Rattle.coin_candidates.specs.Candidates.{AreCandidates};
ghost use Rattle.fund_files.specs.Chain.{IsChain};
ghost use Rattle.payment_states.specs.Candidates.{is_candidate, is_live};
ghost use Rattle.desk_machine.specs.State.{candidates_in, points};
ghost use Rattle.fund_desk.specs.Looked.{is_at};
ghost use Rattle.fund_desk.specs.Ready.{IsOneAtEach, IsKnownOf, is_ready};

use coin_book::Coin;
use coin_candidates::Candidate;
use fund_base::{Memory, OutPoint};
use fund_files::WholeChain;
use payment_facts::facts_of_coins;
use payment_states::{
    SpokenFor, States, all_states, flag_at, is_deep, may_be_spent, pending_of, spoken_for,
};
use std::alloc::Global;

/// What tells which coins may be spent: how the pending payments stand, which of them are Pending, and the outpoints that
/// Pending ones spend and that are locked.
pub struct Known {
    states: States,
    pending: Vec<bool>,
    spoken: SpokenFor,
}

/// One call, wherever it is dropped.
impl Drop for Known {
    fn drop(self) {
        let Known {
            states: _,
            pending: _,
            spoken: _,
        } = self;
    }
}

/// What is known before the coins are looked at. The error is out of memory.
fn known_of(alloc: Global, held: &WholeChain) -> Result<Known, Memory>
    requires { IsChain held.now }
    ensures { IfOk result (IsKnownOf held.now) }
{
    let states = all_states(alloc, &held.book, &held.wallet)?;
    let pending = pending_of(alloc, states.payments())?;
    let spoken = spoken_for(alloc, &held.wallet.pending, &pending, &held.wallet.locked)?;
    Ok(Known {
        states,
        pending,
        spoken,
    })
}

/// Whether the coin's transaction is confirmed or Pending.
fn is_live(held: &WholeChain, known: &Known, coin: &Coin) -> bool
    requires held { IsChain held.now }
    requires known { IsKnownOf held.now known.now }
    ensures { result ≡ is_live held.now.wallet held.now.book coin.now }
{
    let _ = held;
    coin.height.is_some() || flag_at(&known.pending, known.states.place(&coin.coin.txid))
}

/// Whether a coin of the book may be spent.
fn is_candidate(held: &WholeChain, known: &Known, coin: &Coin) -> bool
    requires held { IsChain held.now }
    requires known { IsKnownOf held.now known.now }
    ensures { result ≡ is_candidate held.now.wallet held.now.book held.now.tip.height coin.now }
{
    let live = is_live(held, known, coin);
    let spent = !held.book.spends(&coin.coin).is_empty();
    let claimed = known.spoken.claimed.contains(&coin.coin);
    let locked = known.spoken.locked.contains(&coin.coin);
    may_be_spent(live, spent, claimed, locked, is_deep(held.tip.height, coin))
}

/// Whether there is a coin at the outpoint that may be spent.
fn is_ready(held: &WholeChain, known: &Known, point: &OutPoint) -> bool
    requires held { IsChain held.now }
    requires known { IsKnownOf held.now known.now }
    ensures { result ≡ is_ready held.now point.now }
{
    match held.book.get(point) {
        Some(coin) => is_candidate(held, known, coin),
        None => false,
    }
}

/// The outpoints of these coins at which there is a coin that may be spent, in order. The error is out of memory.
fn ready_points(
    alloc: Global,
    held: &WholeChain,
    known: &Known,
    coins: &[Candidate],
) -> Result<Vec<OutPoint>, Memory>
    requires held { IsChain held.now }
    requires known { IsKnownOf held.now known.now }
    ensures { IfOk result (λ v. v.items ≡ filter (is_ready held.now) (points coins.now)) }
{
    let mut ready = Vec::new(alloc);
    for coin in coins {
        if is_ready(held, known, &coin.coin) {
            ready.push(coin.coin)?;
        }
    }
    Ok(ready)
}

/// The coins that may be spent now at the outpoints of these, in order, each as it is now, at no price. The error is out of memory.
pub fn ready_of(
    alloc: Global,
    held: &WholeChain,
    coins: &[Candidate],
) -> Result<Vec<Candidate>, Memory>
    requires { IsChain held.now }
    ensures exact { IfOk result (λ v. v.items ≡ filter_map (λ o. find (is_at o) (candidates_in held.now)) (points coins.now)) }
    ensures one { IfOk result (λ v. IsOneAtEach v.items) }
    // What is true of all that may be spent, and takes no time.
    ensures fit { IfOk result (λ v. AreCandidates (candidates_in held.now)) }
{
    held.book.keeps_rules();
    let known = known_of(alloc, held)?;
    let points = ready_points(alloc, held, &known, coins)?;
    let (book, wallet) = (&held.book, &held.wallet);
    let ready = facts_of_coins(
        alloc,
        book,
        wallet,
        &known.states,
        held.tip.height,
        &points,
        0,
    )?;
    Ok(ready)
}

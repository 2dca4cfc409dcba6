//! The terms of a replacement, or why there are none.

ghost use Rattle.std.specs.Prelude.{◌≡◌, ◌≢◌, ◌<◌, ◌≤◌, ◌++◌, ◌&&◌, ℕ, [], Ok, Err, IfErr, IfOk, OnOk, All, IsSome, None, Some, bytes_eq, filter, if◌then◌else◌, length, map, not, option_map, slice_index_or, sum_by, unwrap_or};
ghost use Rattle.std.specs.Option.{option_or};
ghost use Rattle.indexmap.specs.IndexSet.{contains};
ghost use Rattle.coin_candidates.specs.Candidates.{AreCandidates};
ghost use Rattle.fund_base.specs.Outpoints.{same_outpoint};
ghost use Rattle.coin_candidates.specs.declared.candidate.Candidate.{Candidate};
ghost use Rattle.fee_rates.specs.Fee.{vsize_of};
ghost use Rattle.payment_facts.specs.AnyCoin.{facts_among};
ghost use Rattle.payment_states.specs.BookOf.{IsBookOf};
ghost use Rattle.payment_facts.specs.LeftOut.{confirmed_without_of};
ghost use Rattle.payment_states.specs.Makers.{HasMaker};
ghost use Rattle.payment_states.specs.Payments.{payments_of, state_of};
ghost use Rattle.payment_states.specs.PendingView.{no_tx, tx_at, view_of};
ghost use Rattle.tx_codec.specs.Transaction.{Transaction};
ghost use Rattle.tx_codec.specs.Txid.{txid_of};
ghost use Rattle.tx_codec.specs.Weight.{weight_of};
ghost use Rattle.tx_codec.specs.declared.tx.TxOut.{TxOut};
ghost use Rattle.known_fees.specs.Worth.{fee_in};
ghost use Rattle.fee_bump.specs.Bump.{added_of, replaced_at, terms_at, terms_of};
ghost use Rattle.fee_bump.specs.Faults.{count_fault, fault_of, foreign_in, input_fault, pending_fault, signal_fault};
ghost use Rattle.fee_bump.specs.declared.fault.BumpFault.TheVariants as faults;

use crate::burden::burden;
use crate::fault::BumpFault;
use crate::rate::{check_higher, check_increment};
use crate::replaced::{can_be_replaced, replaced, txid_set, txids};
use crate::terms::BumpTerms;
use crate::together::{fees_in, foreign};
use coin_book::{Book, Known};
use coin_candidates::Candidate;
use fee_rates::vsize;
use fund_base::{MAX_MONEY, Memory, OutPoint, Txid};
use indexmap::IndexSet;
use known_fees::{fee_in, spent_by};
use payment_facts::{known_facts, known_without};
use payment_states::{State, States};
use request_text::Request;
use std::alloc::Global;
use tx_codec::{Tx, weight};
use wallet_text::Wallet;

/// The most transactions that a replacement replaces (BIP 125, 'Implementation Details', rule 5).
const MOST_REPLACED: usize = 100;

/// Whether a coin may be added to the presets: it is none of these and no output of what is replaced.
fn is_added(points: &IndexSet<OutPoint>, gone: &IndexSet<Txid>, coin: &Candidate) -> bool
    ensures { result ≡ (not (contains same_outpoint points.now coin.now.coin) && not (contains bytes_eq gone.now coin.now.coin.txid)) }
{
    !points.contains(&coin.coin) && !gone.contains(&coin.coin.txid)
}

/// The coins that may be added to those at these outpoints.
fn added(
    alloc: Global,
    coins: Vec<Candidate>,
    points: &IndexSet<OutPoint>,
    gone: &IndexSet<Txid>,
) -> Result<Vec<Candidate>, Memory>
    ensures { IfOk result (λ v. v.items ≡ filter (λ (c : Candidate). not (contains same_outpoint points.now c.coin) && not (contains bytes_eq gone.now c.coin.txid)) coins.items) }
{
    let mut added = Vec::new(alloc);
    for coin in coins {
        if is_added(points, gone, &coin) {
            added.push(coin)?;
        }
    }
    Ok(added)
}

/// The transaction at a place.
fn at(txs: &[Tx], place: usize) -> &Tx
    requires { place < length txs.now }
    ensures { result.now ≡ slice_index_or txs.now place no_tx }
{
    &txs[place]
}

/// The coins that may be added to those at the outpoints that the payment spends, where the transactions of these txids
/// are left out.
fn may_be_added(
    alloc: Global,
    book: &Known<'_>,
    wallet: &Wallet,
    tip: u32,
    points: &IndexSet<OutPoint>,
    names: &[Txid],
    gone: &IndexSet<Txid>,
) -> Result<Vec<Candidate>, Memory>
    requires book { IsBookOf wallet.now book.now }
    requires tip { tip < 4294967295 }
    requires gone { gone.now.keys ≡ names.now }
    ensures { (rate : ℕ) → IfOk result (λ v. v.items ≡ added_of (facts_among wallet.now book.now tip rate points.now.keys) (confirmed_without_of wallet.now book.now tip names.now) names.now) }
{
    book.keeps_rules();
    wallet.pending.len();
    let coins = known_without(alloc, book, wallet, tip, names)?;
    let candidates = added(alloc, coins, points, gone)?;
    Ok(candidates)
}

/// The terms of a replacement of these transactions, of which the first is the payment at a place, which pays this fee, and
/// the others are its Pending descendants.
fn terms_for(
    alloc: Global,
    book: &Known<'_>,
    wallet: &Wallet,
    states: &States,
    tip: u32,
    request: &Request,
    place: usize,
    txs: &[Tx],
    names: Vec<Txid>,
    gone: &IndexSet<Txid>,
    old_fee: u64,
) -> Result<BumpTerms, Memory>
    // The book of the wallet, its states and its tip.
    requires book { IsBookOf wallet.now book.now }
    requires states { states.now ≡ payments_of wallet.now book.now }
    requires tip { tip < 4294967295 }
    // What is replaced, its txids, and the fee of the payment.
    requires place { place < length wallet.now.pending }
    requires txs { txs.now ≡ replaced_at (view_of wallet.now book.now) place }
    requires names { names.items ≡ map txid_of txs.now }
    requires gone { gone.now.keys ≡ map txid_of txs.now }
    requires few { length txs.now ≤ 100 }
    requires money { All (λ (t : Transaction). sum_by (λ (x : TxOut). x.value) t.outputs ≤ MAX_MONEY) txs.now }
    requires old_fee { old_fee ≡ fee_in book.now txs.now (tx_at (view_of wallet.now book.now) place) }
    ensures terms { IfOk result (λ t. t ≡ terms_at wallet.now book.now tip request.now place) }
    ensures fit { IfOk result (λ t. AreCandidates (t.presets ++ t.candidates)) }
    ensures makers { IfOk result (λ t. All (HasMaker book.now) (t.presets ++ t.candidates)) }
    ensures burden { IfOk result (λ t. t.burden ≤ 1_000_000_000_000_000_000) }
{
    book.keeps_rules();
    request.keeps_rules();
    let payment = at(&wallet.pending, place);
    let points = spent_by(alloc, payment)?;
    let presets = known_facts(
        alloc,
        book,
        wallet,
        states,
        tip,
        points.as_slice(),
        request.rate,
    )?;
    let candidates = may_be_added(alloc, book, wallet, tip, &points, &names, gone)?;
    let fees = fees_in(alloc, book, txs, gone)?;
    let burden = burden(request, &presets, fees);
    Ok(BumpTerms {
        presets,
        candidates,
        burden,
        replaced: names,
        old_fee,
        old_vsize: vsize(weight(payment)),
    })
}

/// The terms of a replacement of these transactions, of which the first is the payment at a place and the others are its
/// Pending descendants, or why there are none. It runs out of memory only where no input is foreign, they aren't too many,
/// and the rate is at least the incremental one.
fn terms(
    alloc: Global,
    book: &Known<'_>,
    wallet: &Wallet,
    states: &States,
    tip: u32,
    request: &Request,
    place: usize,
    txs: &[Tx],
    names: Vec<Txid>,
    gone: &IndexSet<Txid>,
) -> Result<BumpTerms, BumpFault>
    // The book of the wallet, its states and its tip.
    requires book { IsBookOf wallet.now book.now }
    requires states { states.now ≡ payments_of wallet.now book.now }
    requires tip { tip < 4294967295 }
    // What is replaced, and its txids.
    requires place { place < length wallet.now.pending }
    requires txs { txs.now ≡ replaced_at (view_of wallet.now book.now) place }
    requires names { names.items ≡ map txid_of txs.now }
    requires gone { gone.now.keys ≡ map txid_of txs.now }
    requires money { All (λ (t : Transaction). sum_by (λ (x : TxOut). x.value) t.outputs ≤ MAX_MONEY) txs.now }
    requires payment { sum_by (λ (x : TxOut). x.value) (tx_at (view_of wallet.now book.now) place).outputs ≤ MAX_MONEY }
    ensures terms { IfOk result (λ t. t ≡ terms_at wallet.now book.now tip request.now place) }
    ensures short { result ≡ Err faults.Memory → (foreign_in book.now txs.now ≡ None) × (length txs.now ≤ 100) × (1000 ≤ request.now.rate) }
    ensures fault { IfErr result (λ e. e ≢ faults.Memory → option_or (option_map faults.ForeignInput (foreign_in book.now txs.now)) (count_fault request.now (length txs.now) (fee_in book.now txs.now (tx_at (view_of wallet.now book.now) place)) (vsize_of (weight_of (tx_at (view_of wallet.now book.now) place)))) ≡ Some e) }
    ensures none { OnOk result (option_or (option_map faults.ForeignInput (foreign_in book.now txs.now)) (count_fault request.now (length txs.now) (fee_in book.now txs.now (tx_at (view_of wallet.now book.now) place)) (vsize_of (weight_of (tx_at (view_of wallet.now book.now) place)))) ≡ None) }
    ensures fit { IfOk result (λ t. AreCandidates (t.presets ++ t.candidates)) }
    ensures makers { IfOk result (λ t. All (HasMaker book.now) (t.presets ++ t.candidates)) }
    ensures burden { IfOk result (λ t. t.burden ≤ 1_000_000_000_000_000_000) }
{
    match foreign(book, txs, gone) {
        Some(point) => return Err(BumpFault::ForeignInput(point)),
        None => {}
    }
    if txs.len() > MOST_REPLACED {
        return Err(BumpFault::TooManyEvicted(txs.len() as u64));
    }
    check_increment(request)?;
    let payment = at(&wallet.pending, place);
    let old_fee = fee_in(alloc, book, txs, gone, payment)?;
    check_higher(request, old_fee, vsize(weight(payment)))?;
    let terms = terms_for(
        alloc, book, wallet, states, tip, request, place, txs, names, gone, old_fee,
    )?;
    Ok(terms)
}

/// The terms of a replacement of the payment at a place, which is Pending and may be replaced, or why there are none.
fn replacing(
    alloc: Global,
    book: &Known<'_>,
    wallet: &Wallet,
    states: &States,
    tip: u32,
    request: &Request,
    place: usize,
) -> Result<BumpTerms, BumpFault>
    requires book { IsBookOf wallet.now book.now }
    requires states { states.now ≡ payments_of wallet.now book.now }
    requires tip { tip < 4294967295 }
    requires place { place < length wallet.now.pending }
    ensures terms { IfOk result (λ t. t ≡ terms_at wallet.now book.now tip request.now place) }
    ensures fault { IfErr result (λ e. e ≢ faults.Memory → input_fault wallet.now book.now request.now place ≡ Some e) }
    ensures none { OnOk result (input_fault wallet.now book.now request.now place ≡ None) }
    ensures fit { IfOk result (λ t. AreCandidates (t.presets ++ t.candidates)) }
    ensures makers { IfOk result (λ t. All (HasMaker book.now) (t.presets ++ t.candidates)) }
    ensures burden { IfOk result (λ t. t.burden ≤ 1_000_000_000_000_000_000) }
{
    wallet.pending.len();
    let txs = replaced(alloc, book, wallet, states, place)?;
    let names = txids(alloc, &txs)?;
    let gone = txid_set(alloc, &txs, &names)?;
    let terms = terms(
        alloc, book, wallet, states, tip, request, place, &txs, names, &gone,
    )?;
    Ok(terms)
}

/// Why a payment of this state isn't replaced, if it isn't Pending.
fn state_fault(state: State) -> Option<BumpFault>
    ensures { result ≡ pending_fault (Some state) }
{
    match state {
        State::Pending => None,
        State::Confirmed(height) => Some(BumpFault::NotPending(Some(State::Confirmed(height)))),
        State::Conflicted(by) => Some(BumpFault::NotPending(Some(State::Conflicted(by)))),
        State::Abandoned => Some(BumpFault::NotPending(Some(State::Abandoned))),
        State::Replaced(by) => Some(BumpFault::NotPending(Some(State::Replaced(by)))),
    }
}

/// Why a payment of this state isn't replaced, if its state keeps it from that. One without a state isn't in the list.
fn pending_fault(state: Option<State>) -> Option<BumpFault>
    ensures { result ≡ pending_fault state }
{
    match state {
        Some(state) => state_fault(state),
        None => Some(BumpFault::NotPending(None)),
    }
}

/// That a payment may be replaced by its signals. It never runs out of memory.
fn check_signals(can_be_replaced: bool) -> Result<(), BumpFault>
    ensures { result ≡ (if can_be_replaced then Ok tt else Err faults.NotSignalling) }
{
    if can_be_replaced {
        Ok(())
    } else {
        Err(BumpFault::NotSignalling)
    }
}

/// The terms of a replacement of the payment at a place, which is Pending, or why there are none.
fn waiting(
    alloc: Global,
    book: &Known<'_>,
    wallet: &Wallet,
    states: &States,
    tip: u32,
    request: &Request,
    place: usize,
) -> Result<BumpTerms, BumpFault>
    requires book { IsBookOf wallet.now book.now }
    requires states { states.now ≡ payments_of wallet.now book.now }
    requires tip { tip < 4294967295 }
    requires place { place < length wallet.now.pending }
    ensures terms { IfOk result (λ t. t ≡ terms_at wallet.now book.now tip request.now place) }
    ensures fault { IfErr result (λ e. e ≢ faults.Memory → signal_fault wallet.now book.now request.now place ≡ Some e) }
    ensures none { OnOk result (signal_fault wallet.now book.now request.now place ≡ None) }
    ensures fit { IfOk result (λ t. AreCandidates (t.presets ++ t.candidates)) }
    ensures makers { IfOk result (λ t. All (HasMaker book.now) (t.presets ++ t.candidates)) }
    ensures burden { IfOk result (λ t. t.burden ≤ 1_000_000_000_000_000_000) }
{
    check_signals(can_be_replaced(alloc, book, wallet, states, place)?)?;
    replacing(alloc, book, wallet, states, tip, request, place)
}

/// The same as [`bump_terms`], by a book that is lent.
pub fn known_terms(
    alloc: Global,
    book: &Known<'_>,
    wallet: &Wallet,
    states: &States,
    tip: u32,
    request: &Request,
) -> Result<BumpTerms, BumpFault>
    requires book { IsBookOf wallet.now book.now }
    requires states { states.now ≡ payments_of wallet.now book.now }
    requires tip { tip < 4294967295 }
    requires bump { IsSome request.now.bump }
    ensures terms { IfOk result (λ t. t ≡ terms_of wallet.now book.now tip request.now) }
    // Each fault comes exactly where it is the first cause.
    ensures fault { IfErr result (λ e. e ≢ faults.Memory → fault_of wallet.now book.now request.now ≡ Some e) }
    ensures none { OnOk result (fault_of wallet.now book.now request.now ≡ None) }
    ensures short { result ≡ Err faults.Memory → state_of (payments_of wallet.now book.now) (unwrap_or request.now.bump []) ≡ Some State.Pending }
    // What a plan asks of its coins: there is a preset, and presets and candidates are at most 100,000 together, each
    // outpoint once.
    ensures some { IfOk result (λ t. 0 < length t.presets) }
    ensures fit { IfOk result (λ t. AreCandidates (t.presets ++ t.candidates)) }
    ensures makers { IfOk result (λ t. All (HasMaker book.now) (t.presets ++ t.candidates)) }
    ensures burden { IfOk result (λ t. t.burden ≤ 1_000_000_000_000_000_000) }
{
    book.keeps_rules();
    wallet.pending.len();
    let Some(txid) = request.bump else {
        unreachable!()
    };
    let Some(place) = states.place(&txid) else {
        return Err(BumpFault::NotPending(None));
    };
    match pending_fault(states.state(&txid)) {
        Some(fault) => return Err(fault),
        None => {}
    }
    waiting(alloc, book, wallet, states, tip, request, place)
}

/// The terms of a replacement of the payment that the request names, or why there are none.
///
/// [`BumpFault::NotPending`] comes exactly where its txid isn't in the pending list, or its state isn't Pending. Otherwise
/// [`BumpFault::NotSignalling`] comes exactly where neither it nor a Pending ancestor has an input with a sequence below
/// FFFFFFFE. Otherwise [`BumpFault::ForeignInput`] comes exactly where an input of it or of a Pending descendant spends
/// neither a coin nor an output of one of these, and shows the first such outpoint. Otherwise
/// [`BumpFault::TooManyEvicted`] comes exactly where these are more than 100 together. Otherwise
/// [`BumpFault::RateBelowIncrement`] comes exactly where the request's rate is below 1,000 satoshi per 1,000 virtual bytes.
/// Otherwise [`BumpFault::RateNotHigher`] comes exactly where it isn't above the payment's own, and shows the payment's fee
/// and virtual size. [`BumpFault::Memory`] comes for out of memory alone, and only of a payment that is Pending.
///
/// The terms are such that a payment of all presets, of candidates and of the request's recipients, which pays the burden
/// beside the fee of its rate, keeps BIP 125's 'Implementation Details': what it replaces signals (rule 1), what it adds is
/// confirmed (rule 2), it pays the fees of all that it replaces (rule 3) and the incremental rate for its own size (rule 4),
/// and it replaces at most 100 transactions (rule 5).
///
/// The tip is the height of the last block, at least that of each confirmed transaction.
pub fn bump_terms(
    alloc: Global,
    book: &Book,
    wallet: &Wallet,
    states: &States,
    tip: u32,
    request: &Request,
) -> Result<BumpTerms, BumpFault>
    requires book { IsBookOf wallet.now book.now }
    requires states { states.now ≡ payments_of wallet.now book.now }
    requires tip { tip < 4294967295 }
    requires bump { IsSome request.now.bump }
    ensures terms { IfOk result (λ t. t ≡ terms_of wallet.now book.now tip request.now) }
    // Each fault comes exactly where it is the first cause.
    ensures fault { IfErr result (λ e. e ≢ faults.Memory → fault_of wallet.now book.now request.now ≡ Some e) }
    ensures none { OnOk result (fault_of wallet.now book.now request.now ≡ None) }
    ensures short { result ≡ Err faults.Memory → state_of (payments_of wallet.now book.now) (unwrap_or request.now.bump []) ≡ Some State.Pending }
    // What a plan asks of its coins: there is a preset, and presets and candidates are at most 100,000 together, each
    // outpoint once.
    ensures some { IfOk result (λ t. 0 < length t.presets) }
    ensures fit { IfOk result (λ t. AreCandidates (t.presets ++ t.candidates)) }
    ensures makers { IfOk result (λ t. All (HasMaker book.now) (t.presets ++ t.candidates)) }
    ensures burden { IfOk result (λ t. t.burden ≤ 1_000_000_000_000_000_000) }
{
    let known = book.known();
    known_terms(alloc, &known, wallet, states, tip, request)
}

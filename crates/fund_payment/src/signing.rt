//! The payment that a signer gets.

ghost use Rattle.std.specs.Prelude.{◌≡◌, ◌≤◌, ℕ, All, map, IfOk, string_bytes};
ghost use Rattle.tx_codec.specs.declared.tx.TxIn.{TxIn};
ghost use Rattle.psbt_codec.specs.Psbt.{IsPsbt, IsSpent};
ghost use Rattle.coin_candidates.specs.declared.candidate.Candidate.{Candidate};
ghost use Rattle.fund_plan.specs.Answer.{IsSelection};
ghost use Rattle.fund_files.specs.Chain.{HasTexts, IsChain};
ghost use Rattle.payment_states.specs.Candidates.{candidates_of};
ghost use Rattle.payment_states.specs.Makers.{HasMaker};
ghost use Rattle.fund_payment.specs.Report.{psbt_of, psbt_text_of, spent_of};

use coin_book::Known;
use coin_candidates::Candidate;
use fee_rates::is_program;
use fund_base::{MAX_MONEY, Memory, Sat, are_bytes};
use fund_files::WholeChain;
use fund_plan::{Funded, pays_in_text, unsigned};
use payment_states::candidates_have_makers;
use psbt_codec::{Psbt, Spent, write_text};
use request_text::Request;
use std::alloc::Global;
use tx_codec::TxOut;
use wallet_text::Watch;

// That what a signer needs to know of the coin fits an input that spends it. A call does nothing.
fn known_fits(book: &Known<'_>, coin: &Candidate)
    requires value { coin.now.value ≤ MAX_MONEY }
    requires texts { HasTexts book.now }
    ensures { (i : TxIn) → i.prev ≡ coin.now.coin → IsSpent i (spent_of book.now coin.now) }
{
    let _ = book;
    are_bytes(coin.script.bytes());
}

/// What a signer needs to know of the coin, which the book has. The error is out of memory.
#[tactic(auto, unfolding(crate::specs::Report::spent_of))]
fn spent(alloc: Global, book: &Known<'_>, coin: &Candidate) -> Result<Spent, Memory>
    requires { coin.now.value ≤ MAX_MONEY }
    ensures { IfOk result (λ s. s ≡ spent_of book.now coin.now) }
{
    if is_program(coin.script.bytes()) {
        let value = Sat::new(coin.value).unwrap();
        let script = coin.script.copy(alloc)?;
        return Ok(Spent {
            whole: None,
            paid: Some(TxOut { value, script }),
        });
    }
    let whole = match book.parent(&coin.coin) {
        Some(tx) => Some(tx.copy(alloc)?),
        None => None,
    };
    Ok(Spent { whole, paid: None })
}

/// What a signer needs to know of the coins, in order. The error is out of memory.
fn spent_of(alloc: Global, book: &Known<'_>, coins: &[Candidate]) -> Result<Vec<Spent>, Memory>
    requires values { All (λ (c : Candidate). c.value ≤ MAX_MONEY) coins.now }
    requires texts { HasTexts book.now }
    ensures value { IfOk result (λ v. v.items ≡ map (spent_of book.now) coins.now) }
    ensures fits { IfOk result (λ _. All (λ (c : Candidate). (i : TxIn) → i.prev ≡ c.coin → IsSpent i (spent_of book.now c)) coins.now) }
{
    let mut known = Vec::new(alloc);
    for coin in coins {
        known_fits(book, coin);
        known.push(spent(alloc, book, coin)?)?;
    }
    Ok(known)
}

/// That the book has the transactions which made the coins that may be spent. A call does nothing.
pub fn coins_have_makers(held: &WholeChain)
    requires { IsChain held.now }
    ensures { (rate : ℕ) → All (HasMaker held.now.book) (candidates_of held.now.wallet held.now.book held.now.tip.height rate) }
{
    held.book.keeps_rules();
    candidates_have_makers();
}

/// The payment to be signed, whose change is paid to this script: its unsigned transaction, and for each input what a signer
/// needs to know of its coin. The error is out of memory.
#[tactic(auto, unfolding(crate::specs::Report::psbt_of))]
pub fn psbt(
    alloc: Global,
    book: &Known<'_>,
    change: &Watch,
    request: &Request,
    funded: &Funded,
) -> Result<Psbt, Memory>
    requires texts { HasTexts book.now }
    requires funded { IsSelection request.now funded.now }
    ensures value { IfOk result (λ p. p ≡ psbt_of book.now request.now change.now funded.now) }
    ensures fits { IfOk result IsPsbt }
{
    pays_in_text();
    let tx = unsigned(alloc, request, change, funded)?;
    let spent = spent_of(alloc, book, &funded.coins)?;
    Ok(Psbt { tx, spent })
}

/// The payment to be signed, as text in the version of a PSBT that the request asks for. The error is out of memory.
pub fn psbt_text(
    alloc: Global,
    book: &Known<'_>,
    change: &Watch,
    request: &Request,
    funded: &Funded,
) -> Result<String, Memory>
    requires texts { HasTexts book.now }
    requires funded { IsSelection request.now funded.now }
    ensures value { IfOk result (λ text. string_bytes text ≡ psbt_text_of book.now request.now change.now funded.now) }
    ensures fits { IfOk result (λ _. IsPsbt (psbt_of book.now request.now change.now funded.now)) }
{
    let psbt = psbt(alloc, book, change, request, funded)?;
    write_text(alloc, &psbt, request.psbt)
}

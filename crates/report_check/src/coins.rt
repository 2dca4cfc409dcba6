//! The coins that a payment spends, found by its inputs.

ghost use Rattle.std.specs.Prelude.{◌≡◌, ◌≢◌, ◌==◌, ◌++◌, ◌∷◌, [], AllPairs, find, IfErr, IfOk, None, OnOk, Some, option_copied};
ghost use Rattle.std.specs.List.{AllZip};
ghost use Rattle.coin_candidates.specs.declared.candidate.Candidate.{Candidate};
ghost use Rattle.output_groups.specs.declared.rows.Row.{Row};
ghost use Rattle.report_check.specs.Finding.{IsTakenAt, Takes};
ghost use Rattle.report_check.specs.PaidRefused.{IsCoinRefusal};
ghost use Rattle.report_check.specs.declared.fault.CheckFault.TheVariants.{Coin};

use crate::coin_index::CoinIndex;
use crate::fault::CheckFault;
use coin_candidates::Candidate;
use fund_base::{Memory, OutPoint};
use output_groups::{Row, meets};
use std::alloc::Global;
use tx_codec::TxIn;

/// The first row of this number, if there is one.
pub(crate) fn row_at(rows: &[Row], number: u8) -> Option<&Row>
    ensures { option_copied result ≡ find (λ (r : Row). r.number == number) rows.now }
{
    rows.iter().find(|row| row.number == number)
}

/// The coin at an outpoint that may be spent: a preset, or another that meets the row.
fn taken_at<'a>(
    presets: &CoinIndex<'a>,
    rest: &CoinIndex<'a>,
    row: Option<&Row>,
    point: &OutPoint,
) -> Option<&'a Candidate>
    requires { AllPairs (λ (a b : Candidate). a.coin ≢ b.coin) rest.now }
    ensures { IsTakenAt presets.now rest.now (option_copied row.entry) point.now (option_copied result) }
{
    match presets.coin_at(point) {
        Some(preset) => Some(preset),
        None => {
            match row {
                None => None,
                Some(row) => {
                    match rest.coin_at(point) {
                        None => None,
                        Some(coin) => { if meets(row, coin) { Some(coin) } else { None } }
                    }
                }
            }
        }
    }
}

/// The coin at an outpoint that may be spent; the refusal is the outpoint where there is none. It takes no memory.
fn coin_for<'a>(
    presets: &CoinIndex<'a>,
    rest: &CoinIndex<'a>,
    row: Option<&Row>,
    point: &OutPoint,
) -> Result<&'a Candidate, CheckFault>
    requires { AllPairs (λ (a b : Candidate). a.coin ≢ b.coin) rest.now }
    ensures found { IfOk result (λ coin. IsTakenAt presets.now rest.now (option_copied row.entry) point.now (Some coin.now)) }
    ensures foreign { IfErr result (λ e. (e ≡ Coin point.now) × IsTakenAt presets.now rest.now (option_copied row.entry) point.now None) }
{
    match taken_at(presets, rest, row, point) {
        Some(coin) => Ok(coin),
        None => Err(CheckFault::Coin(*point)),
    }
}

/// Puts a copy of a coin after others. The error is out of memory.
fn add(alloc: Global, coins: &mut Vec<Candidate>, coin: &Candidate) -> Result<(), Memory>
    ensures { OnOk result (coins.new.items ≡ coins.old.items ++ coin.now ∷ []) }
{
    let copy = coin.copy(alloc)?;
    coins.push(copy)?;
    Ok(())
}

/// The coins that the inputs spend, in their order, looked up one after another. The refusal is the first outpoint at
/// which there is none that may be spent.
fn taken<'a>(
    alloc: Global,
    presets: &CoinIndex<'a>,
    rest: &CoinIndex<'a>,
    row: Option<&Row>,
    inputs: &[TxIn],
) -> Result<Vec<Candidate>, CheckFault>
    requires { AllPairs (λ (a b : Candidate). a.coin ≢ b.coin) rest.now }
    ensures found { IfOk result (λ coins. AllZip (Takes presets.now rest.now (option_copied row.entry)) inputs.now coins.items) }
    ensures foreign { IfErr result (IsCoinRefusal presets.now rest.now (option_copied row.entry) inputs.now) }
{
    let mut coins = Vec::new(alloc);
    'taking: for input in inputs {
        let coin = match coin_for(presets, rest, row, &input.prev) {
            Ok(coin) => coin,
            Err(fault) => return Err(fault),
        };
        if let Err(_) = add(alloc, &mut coins, coin) {
            return Err(CheckFault::Memory);
        }
    }
    Ok(coins)
}

/// The coins that the inputs spend, in their order. The refusal is the first outpoint at which there is none that may be
/// spent. The presets and the others are gone through once each, and no input goes through them again.
pub(crate) fn coins_of<'a>(
    alloc: Global,
    presets: &'a [Candidate],
    rest: &'a [Candidate],
    row: Option<&Row>,
    inputs: &[TxIn],
) -> Result<Vec<Candidate>, CheckFault>
    requires { AllPairs (λ (a b : Candidate). a.coin ≢ b.coin) rest.now }
    ensures found { IfOk result (λ coins. AllZip (Takes presets.now rest.now (option_copied row.entry)) inputs.now coins.items) }
    ensures foreign { IfErr result (IsCoinRefusal presets.now rest.now (option_copied row.entry) inputs.now) }
{
    let own = CoinIndex::new(alloc, presets)?;
    let others = CoinIndex::new(alloc, rest)?;
    match taken(alloc, &own, &others, row, inputs) {
        Ok(coins) => Ok(coins),
        Err(fault) => Err(fault),
    }
}

//! The two rows of which coins are taken where the recipients bear the fee.

ghost use Rattle.std.specs.Prelude.{◌≡◌, ◌≤◌, ◌++◌, ◌∷◌, [], ℕ, Ok, IfErr, IfOk, OnOk};
ghost use Rattle.coin_candidates.specs.Candidates.{AreCandidates};
ghost use Rattle.fee_sharing.specs.RowShares.{IsPaidBy, IsShared, KeepsWorth, load_in};
ghost use Rattle.fund_plan.specs.Pays.{payment_weight};
ghost use Rattle.fund_steps.specs.Amounts.{AreWithin, value_of};
ghost use Rattle.wallet_text.specs.WalletRules.{IsWatch};
ghost use Rattle.command_share.specs.Rows.{AreCrowded, AreSearches, EndsRow, IsCrowdedRow, after_row, row_fault, searched};

use closing_log::Section;
use coin_candidates::Candidate;
use fee_sharing::{ShareRowFault, Shared, share_row, share_weight};
use fund_base::Memory;
use fund_steps::PlanFault;
use output_groups::{Row, ladder};
use request_text::Request;
use std::alloc::Global;
use std::marker::Model;
use wallet_text::Watch;

/// A payment whose recipients bear the fee.
#[derive(Drop)]
pub struct Paying {
    /// The row of the ladder whose coins are spent.
    pub row: Row,
    /// The coins, in the order of their outpoints.
    pub coins: Vec<Candidate>,
    /// The change, in satoshi, if there is any.
    pub change: Option<u64>,
    /// What the recipients bear together, in satoshi.
    pub borne: u64,
    /// The declared weight of the payment, in weight units.
    pub weight: u64,
}

impl Model for Paying {
    ghost use Rattle.command_share.specs.Paying.{PlainPaying};

    ghost Value = { PlainPaying };

    ghost view = { λ p. record { row = p.row; coins = p.coins.items; change = p.change; borne = p.borne; weight = p.weight } };
}

/// What the searches of rows come to.
#[derive(Drop)]
pub enum RowsEnd {
    /// A payment from the last of the rows.
    Found(Paying),
    /// No row has a selection.
    Nothing,
    /// All tries were made, and the search of the row of this number isn't done.
    Open(u8),
}

/// The searches of some rows.
#[derive(Drop)]
pub struct Run {
    /// What they came to.
    pub end: RowsEnd,
    /// Those that are finished, in order.
    pub sections: Vec<Section>,
    /// The tries that were made.
    pub tries: u64,
}

impl Model for Run {
    ghost use Rattle.command_share.specs.Rows.{PlainRun};

    ghost Value = { PlainRun };

    ghost view = { λ r. record { end = r.end; sections = r.sections.items; tries = r.tries } };
}

/// Why a row isn't searched, as the fault of a plan.
fn fault_in(row: &Row, fault: ShareRowFault) -> PlanFault
    ensures { result ≡ row_fault row.now fault }
{
    match fault {
        ShareRowFault::TooMany(count) => PlanFault::TooMany(row.number, count),
        ShareRowFault::Memory => PlanFault::Memory,
    }
}

/// What a row comes to by itself after at most so many tries.
fn of_row(
    alloc: Global,
    candidates: &[Candidate],
    request: &Request,
    change: &Watch,
    row: &Row,
    budget: u64,
) -> Result<Shared, PlanFault>
    requires candidates { AreCandidates candidates.now }
    requires worth { value_of candidates.now ≤ 2_100_000_000_000_000 }
    requires change { IsWatch change.now }
    requires row { row.now.own ≤ row.now.foreign }
    ensures shared { IfOk result (IsShared request.now change.now row.now candidates.now budget) }
    ensures pays { IfOk result (IsPaidBy request.now change.now row.now candidates.now) }
    ensures few { IfOk result (λ _. (n : ℕ) → KeepsWorth request.now row.now candidates.now n → n ≤ 10_000) }
    ensures fault { IfErr result (IsCrowdedRow request.now row.now candidates.now) }
{
    match share_row(alloc, candidates, request, change, row, budget) {
        Ok(shared) => Ok(shared),
        Err(fault) => Err(fault_in(row, fault)),
    }
}

/// The declared weight of the payment of a row from these coins, in weight units.
fn weight_in(
    alloc: Global,
    candidates: &[Candidate],
    request: &Request,
    change: &Watch,
    row: &Row,
    coins: &[Candidate],
    amount: Option<u64>,
) -> Result<u64, PlanFault>
    requires candidates { AreCandidates candidates.now }
    requires change { IsWatch change.now }
    requires coins { AreWithin coins.now }
    ensures value { IfOk result (λ w. w ≡ payment_weight (load_in request.now change.now row.now candidates.now) coins.now amount) }
    ensures fault { IfErr result (IsCrowdedRow request.now row.now candidates.now) }
{
    match share_weight(alloc, candidates, request, change, row, coins, amount) {
        Ok(weight) => Ok(weight),
        Err(fault) => Err(fault_in(row, fault)),
    }
}

/// Appends a section. The error is out of memory.
fn add(sections: &mut Vec<Section>, section: Section) -> Result<(), Memory>
    ensures { OnOk result (sections.new.items ≡ sections.old.items ++ section ∷ []) }
{
    sections.push(section)?;
    Ok(())
}

/// The searches of the rows before, and behind them that of this row, with the tries that are left.
///
/// The error is [`PlanFault::TooMany`] where the row keeps more than 10,000 groups, with its number and theirs, or out of memory.
fn after_row(
    alloc: Global,
    candidates: &[Candidate],
    request: &Request,
    change: &Watch,
    row: &Row,
    before: Run,
) -> Result<Run, PlanFault>
    requires candidates { AreCandidates candidates.now }
    requires worth { value_of candidates.now ≤ 2_100_000_000_000_000 }
    requires change { IsWatch change.now }
    requires row { row.now.own ≤ row.now.foreign }
    requires tries { before.tries ≤ request.now.tries }
    ensures value { IfOk result (λ run. after_row request.now change.now row.now candidates.now before ≡ Ok run) }
    ensures ends { IfOk result (λ run. EndsRow request.now change.now row.now candidates.now before run run.end) }
    ensures tries { IfOk result (λ run. run.tries ≤ request.now.tries) }
    ensures fault { IfErr result (IsCrowdedRow request.now row.now candidates.now) }
{
    request.keeps_rules();
    let Run {
        sections,
        tries,
        ..
    } = before;
    let mut sections = sections;
    let left = request.tries - tries;
    match of_row(alloc, candidates, request, change, row, left)? {
        Shared::None {
            section,
            tries: made,
        } => {
            add(&mut sections, section)?;
            Ok(Run {
                end: RowsEnd::Nothing,
                sections,
                tries: tries + made,
            })
        }
        Shared::Found {
            section,
            coins,
            change: amount,
            borne,
            tries: made,
        } => {
            let weight = weight_in(alloc, candidates, request, change, row, &coins, amount)?;
            add(&mut sections, section)?;
            Ok(Run {
                end: RowsEnd::Found(Paying {
                    row: *row,
                    coins,
                    change: amount,
                    borne,
                    weight,
                }),
                sections,
                tries: tries + made,
            })
        }
        Shared::Open { tries: made } => Ok(Run {
            end: RowsEnd::Open(row.number),
            sections,
            tries: tries + made,
        }),
    }
}

/// The search of row 1 and, where that has no selection, of row 2, with the request's tries for both.
///
/// The error is [`PlanFault::TooMany`] where a row that is searched keeps more than 10,000 groups, with its number and theirs, or
/// out of memory.
pub fn search_rows(
    alloc: Global,
    candidates: &[Candidate],
    request: &Request,
    change: &Watch,
) -> Result<Run, PlanFault>
    requires candidates { AreCandidates candidates.now }
    requires worth { value_of candidates.now ≤ 2_100_000_000_000_000 }
    requires change { IsWatch change.now }
    ensures value { IfOk result (λ run. searched request.now change.now candidates.now ≡ Ok run) }
    ensures means { IfOk result (λ run. AreSearches request.now change.now candidates.now run run.end) }
    ensures tries { IfOk result (λ run. run.tries ≤ request.now.tries) }
    ensures fault { IfErr result (AreCrowded request.now change.now candidates.now) }
{
    let rows = ladder(false, false);
    let none = Run {
        end: RowsEnd::Nothing,
        sections: Vec::new(alloc),
        tries: 0,
    };
    let first = after_row(alloc, candidates, request, change, &rows[0], none)?;
    match first.end {
        RowsEnd::Nothing => after_row(alloc, candidates, request, change, &rows[1], first),
        RowsEnd::Found(_) | RowsEnd::Open(_) => Ok(first),
    }
}

//! The wide search of rows, one after another.

ghost use Rattle.std.specs.Prelude.{◌≡◌, ◌≤◌, All, IfOk, option_map};
ghost use Rattle.pick_problem.specs.declared.item.Kind.TheVariants.{Changeless};
ghost use Rattle.search_run.specs.Step.{PlainStep};
ghost use Rattle.wide_plan.specs.Rows.{behind, rows_after};
ghost use Rattle.wide_plan.specs.Turns.{IsTurn};
ghost use Rattle.wide_plan.specs.declared.rows.RowsEnd.TheVariants.{Found};

use crate::walking::{Walked, walk_row};
use fund_base::{Memory, Places};
use search_run::Step;
use std::alloc::Global;
use std::marker::Model;

/// A row of the ladder whose wide search came to its end.
#[derive(Drop)]
pub struct WideSection {
    /// The row's number.
    pub row: u8,
    /// The digest of its problem.
    pub digest: [u8; 32],
    /// The letters of its closing tree, in preorder.
    pub tokens: Vec<u8>,
    /// The places of the best selection, or none.
    pub answer: Option<Places>,
}

impl Model for WideSection {
    ghost use Rattle.wide_plan.specs.Rows.{PlainWideSection};

    ghost Value = { PlainWideSection };

    ghost view = { λ s. record { row = s.row; digest = s.digest; letters = s.tokens.items; answer = s.answer } };
}

/// How the search of rows ends.
#[derive(Drop)]
pub enum RowsEnd {
    /// The first row that has a selection, by its number, and the best one's places.
    Found(u8, Places),
    /// No row has a selection.
    Nothing,
    /// The tries are used up in the row of this number; the best that its walk has met, or none.
    Open(u8, Option<Places>),
}

/// What the search of rows comes to.
#[derive(Drop)]
pub struct Rows {
    /// How it ends.
    pub end: RowsEnd,
    /// The finished rows, in order.
    pub closed: Vec<WideSection>,
    /// The tries that were made.
    pub tries: u64,
}

impl Model for Rows {
    ghost use Rattle.wide_plan.specs.Rows.{PlainRows};

    ghost Value = { PlainRows };

    ghost view = { λ r. record { closed = r.closed.items; end = r.end; tries = r.tries } };
}

/// The end that a finished row with this answer makes, if it has one. The error is out of memory.
fn found(alloc: Global, row: u8, answer: &Option<Places>) -> Result<Option<RowsEnd>, Memory>
    ensures { IfOk result (λ e. e ≡ option_map (Found row) answer.now) }
{
    match answer {
        Some(places) => {
            let places = places.copy(alloc)?;
            Ok(Some(RowsEnd::Found(row, places)))
        }
        None => Ok(None),
    }
}

/// The tries that a row took, and how the search ends with it, unless it goes on.
#[derive(Drop)]
struct Turn {
    made: u64,
    end: Option<RowsEnd>,
}

/// Searches a row with at most so many tries, and puts its section behind the others if it is finished. The error is out of
/// memory.
fn search_row(
    alloc: Global,
    step: &Step,
    tries: u64,
    closed: &mut Vec<WideSection>,
) -> Result<Turn, Memory>
    requires { step.now.problem.kind ≡ Changeless }
    ensures turn { IfOk result (λ t. IsTurn step.now tries closed.old.items t.made t.end closed.new.items) }
    ensures most { IfOk result (λ t. t.made ≤ tries) }
{
    let Walked { made, best, tree } = walk_row(alloc, step.problem(), tries)?;
    let Some(tokens) = tree else {
        return Ok(Turn {
            made,
            end: Some(RowsEnd::Open(step.row(), best)),
        });
    };
    let end = found(alloc, step.row(), &best)?;
    closed.push(WideSection {
        row: step.row(),
        digest: step.problem().digest(),
        tokens,
        answer: best,
    })?;
    Ok(Turn { made, end })
}

/// Searches rows in order with at most so many tries in all, and puts the finished ones behind the others. The answer is how
/// that ends, and the tries made. The error is out of memory.
fn search_on(
    alloc: Global,
    steps: &[Step],
    tries: u64,
    closed: &mut Vec<WideSection>,
) -> Result<(RowsEnd, u64), Memory>
    requires { All (λ (x : PlainStep). x.problem.kind ≡ Changeless) steps.now }
    ensures { IfOk result (λ r. record { closed = closed.new.items; end = r.0; tries = r.1 } ≡ behind closed.old.items 0 (rows_after steps.now tries)) }
{
    let mut made = 0;
    for step in steps {
        let turn = search_row(alloc, step, tries - made, closed)?;
        made += turn.made;
        if let Some(end) = turn.end {
            return Ok((end, made));
        }
    }
    Ok((RowsEnd::Nothing, made))
}

/// Searches rows in order with at most so many tries in all: it ends at the first one that has a selection, with the best of
/// these, or where the tries are used up. The problems are without change. The error is out of memory.
pub fn search_rows(alloc: Global, steps: &[Step], tries: u64) -> Result<Rows, Memory>
    requires { All (λ (x : PlainStep). x.problem.kind ≡ Changeless) steps.now }
    ensures { IfOk result (λ r. r ≡ rows_after steps.now tries) }
{
    let mut closed = Vec::new(alloc);
    let (end, tries) = search_on(alloc, steps, tries, &mut closed)?;
    Ok(Rows { end, closed, tries })
}

//! Problems.

ghost use Rattle.std.specs.Prelude.{◌≡◌, ◌≤◌, IfOk, length};
ghost use Rattle.pick_problem.specs.Pool.{AreItems};
ghost use Rattle.pick_problem.specs.Problem.{AreBounds, IsProblem};

use crate::item::{Item, Kind};
use fund_base::Memory;
use std::marker::Model;
use std::rc::Rc;

/// A pool of items, and what a selection of its places is to reach. Problems may share their items.
#[derive(Drop)]
pub struct Problem {
    items: Rc<Vec<Item>>,
    lo: u64,
    hi: u64,
    most_weight: u64,
    kind: Kind,
}

impl Model for Problem {
    ghost use Rattle.pick_problem.specs.Problem.{PlainProblem, IsProblem};

    ghost Value = { PlainProblem };

    ghost view = { λ p. record { items = p.items.value.items; lo = p.lo; hi = p.hi; most_weight = p.most_weight; kind = p.kind } };

    ghost invariant = { λ p. IsProblem (record { items = p.items.value.items; lo = p.lo; hi = p.hi; most_weight = p.most_weight; kind = p.kind }) };
}

impl Problem {
    /// The problem of these items, in the order and the ranges of [`crate::are_items`]. Values in satoshi from `lo` on
    /// are looked for, for [`Kind::Changeless`] up to `hi`, and weights in weight units up to `most_weight`. `lo` is
    /// at least 1 and `hi` at least `lo`; for [`Kind::Lean`] `hi` isn't used, and equals `lo`.
    pub fn new(items: Rc<Vec<Item>>, lo: u64, hi: u64, most_weight: u64, kind: Kind) -> Problem
        requires items { AreItems items.value.items }
        requires some { 1 ≤ lo }
        requires bounds { AreBounds kind lo hi }
        ensures { result ≡ record { items = items.value.items; lo = lo; hi = hi; most_weight = most_weight; kind = kind } }
    {
        Problem {
            items,
            lo,
            hi,
            most_weight,
            kind,
        }
    }

    /// A copy, which shares the items. It equals the problem. It takes no memory: the error is that the items have 2^64 - 1
    /// owners.
    pub fn copy(&self) -> Result<Problem, Memory>
        ensures { IfOk result (λ p. p ≡ self.now) }
    {
        let items = self.items.clone()?;
        Ok(Problem {
            items,
            lo: self.lo,
            hi: self.hi,
            most_weight: self.most_weight,
            kind: self.kind,
        })
    }

    /// The items of the pool, in order.
    pub fn items(&self) -> &[Item]
        ensures items { result.now ≡ self.now.items }
        ensures problem { IsProblem self.now }
    {
        self.items.as_slice()
    }

    /// The number of items.
    pub(crate) fn count(&self) -> u32
        ensures count { result ≡ length self.now.items }
        ensures problem { IsProblem self.now }
    {
        self.items.len() as u32
    }

    /// The least value that a selection may have, in satoshi.
    pub fn lo(&self) -> u64
        ensures { result ≡ self.now.lo }
    {
        self.lo
    }

    /// The greatest value that a selection without change may have, in satoshi.
    pub fn hi(&self) -> u64
        ensures { result ≡ self.now.hi }
    {
        self.hi
    }

    /// The greatest weight that a selection may have, in weight units.
    pub fn most_weight(&self) -> u64
        ensures { result ≡ self.now.most_weight }
    {
        self.most_weight
    }

    /// Which selections are looked for.
    pub fn kind(&self) -> Kind
        ensures { result ≡ self.now.kind }
    {
        self.kind
    }
}

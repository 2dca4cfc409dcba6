//! A problem with what is asked of it at each try.

ghost use Rattle.std.specs.Prelude.{◌≡◌, ◌+◌, ◌<◌, ◌≤◌, IfOk, int_le, length, pos};
ghost use Rattle.std.specs.List.{list_all};
ghost use Rattle.pick_problem.specs.Later.{behind_twins, later_value, least_weight};
ghost use Rattle.pick_problem.specs.Pool.{item_at};
ghost use Rattle.pick_problem.specs.Problem.{IsProblem, PlainProblem};
ghost use Rattle.pick_problem.specs.Tails.{AreTails};
ghost use Rattle.pick_problem.specs.Walk.{no_negative};

use fund_base::Memory;
use pick_problem::{Item, Kind, Problem, Tails};
use std::alloc::Global;
use std::marker::Model;

/// A problem, its tails, and whether no cost of its pool is negative. Contracts see the problem alone.
#[derive(Drop)]
pub(crate) struct Prepared {
    problem: Problem,
    tails: Tails,
    plain_costs: bool,
}

impl Model for Prepared {
    ghost Value = { PlainProblem };

    ghost view = { λ p. p.problem };

    ghost invariant = { λ p. IsProblem p.problem × AreTails p.problem p.tails
        × (p.plain_costs ≡ no_negative p.problem) };
}

/// Whether no cost is negative.
fn are_plain(items: &[Item]) -> bool
    ensures { result ≡ list_all (λ x. int_le (pos 0) x.cost) items.now }
{
    items.iter().all(|item| item.cost >= 0)
}

impl Prepared {
    /// The error is out of memory.
    pub(crate) fn new(alloc: Global, problem: &Problem) -> Result<Prepared, Memory>
        ensures { IfOk result (λ p. p ≡ problem.now) }
    {
        let tails = Tails::new(alloc, problem)?;
        let plain_costs = are_plain(problem.items());
        Ok(Prepared {
            problem: problem.copy()?,
            tails,
            plain_costs,
        })
    }

    /// The problem.
    #[inline(always)]
    pub(crate) fn problem(&self) -> &Problem
        ensures { result.now ≡ self.now }
    {
        &self.problem
    }

    /// Which selections are looked for.
    #[inline(always)]
    pub(crate) fn kind(&self) -> Kind
        ensures { result ≡ self.now.kind }
    {
        self.problem.kind()
    }

    /// Whether no cost of the pool is negative.
    #[inline(always)]
    pub(crate) fn plain_costs(&self) -> bool
        ensures { result ≡ no_negative self.now }
    {
        self.plain_costs
    }

    /// The number of items.
    #[inline(always)]
    pub(crate) fn count(&self) -> u32
        ensures count { result ≡ length self.now.items }
        ensures few { length self.now.items ≤ 10_000 }
        ensures problem { IsProblem self.now }
    {
        self.problem.items().len() as u32
    }

    /// The item at a place.
    #[inline(always)]
    pub(crate) fn item(&self, t: u32) -> Item
        requires { t < length self.now.items }
        ensures item { result ≡ item_at self.now.items t }
        ensures problem { IsProblem self.now }
    {
        self.problem.items()[t as usize]
    }

    /// The place after a place.
    #[inline(always)]
    pub(crate) fn behind(&self, t: u32) -> u32
        requires { t < length self.now.items }
        ensures { result ≡ t + 1 }
    {
        let _ = &self.problem;
        t + 1
    }

    /// How far the greatest value is above the least, in satoshi.
    #[inline(always)]
    pub(crate) fn width(&self) -> u64
        ensures width { self.now.lo + result ≡ self.now.hi }
        ensures problem { IsProblem self.now }
    {
        self.problem.hi() - self.problem.lo()
    }

    /// The value of the places from this one on.
    #[inline(always)]
    pub(crate) fn later_value(&self, t: u32) -> u128
        requires { t ≤ length self.now.items }
        ensures { result ≡ later_value self.now t }
    {
        self.tails.at(t).value
    }

    /// The value of the places after this one.
    #[inline(always)]
    pub(crate) fn value_behind(&self, t: u32) -> u128
        requires { t < length self.now.items }
        ensures { result ≡ later_value self.now (t + 1) }
    {
        self.tails.at(t + 1).value
    }

    /// The least weight of the places after this one; after the last one the greatest `u64`.
    #[inline(always)]
    pub(crate) fn weight_behind(&self, t: u32) -> u64
        requires { t < length self.now.items }
        ensures some { t + 1 < length self.now.items → result ≡ least_weight self.now (t + 1) }
        ensures last { t + 1 ≡ length self.now.items → result ≡ 18_446_744_073_709_551_615 }
    {
        self.tails.at(t + 1).weight
    }

    /// The first place after this one that is no twin of it, or the number of items.
    #[inline(always)]
    #[tactic(auto, using(pick_problem::proofs::TailLaws::run_is))]
    pub(crate) fn run_end(&self, t: u32) -> u32
        requires { t < length self.now.items }
        ensures end { result ≡ behind_twins self.now (t + 1) }
        ensures behind { t < result }
        ensures within { result ≤ length self.now.items }
        ensures problem { IsProblem self.now }
    {
        self.tails.at(t).end
    }
}

//! A problem with what is asked of it at each try.

ghost use Rattle.std.specs.Prelude.{◌≡◌, ◌+◌, ◌<◌, ◌≤◌, ℕ, IfOk, List, length};
ghost use Rattle.pick_problem.specs.Later.{behind_twins, later_value};
ghost use Rattle.pick_problem.specs.Pool.{item_at};
ghost use Rattle.pick_problem.specs.Problem.{PlainProblem};
ghost use Rattle.pick_problem.specs.Tails.{AreTails};
ghost use Rattle.pick_problem.specs.declared.item.Kind.TheVariants.{Changeless};
ghost use Rattle.wide_check.specs.SavingsTable.{AreSavings};
ghost use Rattle.wide_check.specs.Wide.{IsWideProblem, waste_of};
ghost use Rattle.wide_check.specs.WideSteps.{least_waste};
ghost use Rattle.wide_search.specs.Stack.{AreSmall, AreSums};

use crate::sums::Sums;
use fund_base::Memory;
use pick_problem::{Item, Problem, Tails};
use std::alloc::Global;
use std::marker::Model;
use wide_check::Savings;

/// A problem without change, its tails, and what the places from each one on save. Contracts see the problem alone.
#[derive(Drop)]
pub(crate) struct Prepared {
    problem: Problem,
    tails: Tails,
    savings: Savings,
}

impl Model for Prepared {
    ghost Value = { PlainProblem };

    ghost view = { λ p. p.problem };

    ghost invariant = { λ p. IsWideProblem p.problem × AreTails p.problem p.tails × AreSavings p.problem p.savings };
}

impl Prepared {
    /// The error is out of memory.
    pub(crate) fn new(alloc: Global, problem: &Problem) -> Result<Prepared, Memory>
        requires { problem.now.kind ≡ Changeless }
        ensures { IfOk result (λ p. p ≡ problem.now) }
    {
        let tails = Tails::new(alloc, problem)?;
        let savings = Savings::new(alloc, problem)?;
        Ok(Prepared {
            problem: problem.copy()?,
            tails,
            savings,
        })
    }

    /// The problem.
    #[inline(always)]
    pub(crate) fn problem(&self) -> &Problem
        ensures problem { result.now ≡ self.now }
        ensures is { IsWideProblem self.now }
    {
        &self.problem
    }

    /// The number of items.
    #[inline(always)]
    pub(crate) fn count(&self) -> u32
        ensures count { result ≡ length self.now.items }
        ensures few { length self.now.items ≤ 10_000 }
        ensures problem { IsWideProblem self.now }
    {
        self.problem.items().len() as u32
    }

    /// The item at a place.
    #[inline(always)]
    pub(crate) fn item(&self, t: u32) -> Item
        requires { t < length self.now.items }
        ensures item { result ≡ item_at self.now.items t }
        ensures problem { IsWideProblem self.now }
    {
        self.problem.items()[t as usize]
    }

    /// The place after a place.
    #[inline(always)]
    pub(crate) fn behind(&self, t: u32) -> u32
        requires { t < length self.now.items }
        ensures { result ≡ t + 1 }
    {
        let _ = &self.problem;
        t + 1
    }

    /// The value of the places from this one on, in satoshi.
    #[inline(always)]
    pub(crate) fn later_value(&self, t: u32) -> u128
        requires { t ≤ length self.now.items }
        ensures later { result ≡ later_value self.now t }
        ensures problem { IsWideProblem self.now }
    {
        self.tails.at(t).value
    }

    /// The first place after this one that is no twin of it, or the number of items.
    #[inline(always)]
    #[tactic(auto, using(pick_problem::proofs::TailLaws::run_is))]
    pub(crate) fn run_end(&self, t: u32) -> u32
        requires { t < length self.now.items }
        ensures end { result ≡ behind_twins self.now (t + 1) }
        ensures behind { t < result }
        ensures within { result ≤ length self.now.items }
    {
        self.tails.at(t).end
    }

    /// What places with these sums waste, in satoshi: their cost, and what their value is above the least value.
    #[inline(always)]
    pub(crate) fn waste(&self, sums: &Sums) -> i128
        requires { AreSmall sums.now }
        ensures { (q : List ℕ) → AreSums self.now q sums.now → result ≡ waste_of self.now q }
    {
        sums.cost + sums.value as i128 - i128::from(self.problem.lo())
    }

    /// What lists waste at least that go on from places with these sums by places from this one on, in satoshi.
    #[inline(always)]
    pub(crate) fn least_waste(&self, sums: &Sums, t: u32) -> i128
        requires place { t ≤ length self.now.items }
        requires small { AreSmall sums.now }
        ensures { (q : List ℕ) → AreSums self.now q sums.now → result ≡ least_waste self.now q t }
    {
        let excess = sums.value.saturating_sub(u128::from(self.problem.lo()));
        sums.cost + self.savings.from(t) + excess as i128
    }
}

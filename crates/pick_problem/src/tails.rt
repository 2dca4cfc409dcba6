//! What a pool has from each place on, in a table that is made once.

ghost use Rattle.std.specs.Prelude.{◌≡◌, ◌+◌, ◌<◌, ℕ, IfOk, SomeIff, drop, length, map, sum};
ghost use Rattle.pick_problem.specs.Later.{behind_twins, is_twin, later_value, least_weight};
ghost use Rattle.pick_problem.specs.Problem.{PlainProblem};
ghost use Rattle.pick_problem.specs.Tails.{AreTails, IsLeastFrom, IsRunEnd, IsTail, tail_at};

use crate::item::{Item, Kind};
use crate::problem::Problem;
use fund_base::Memory;
use std::alloc::Global;
use std::marker::Model;

/// What a pool has from a place on.
#[derive(Clone, Copy, PartialEq, Eq)]
pub struct Tail {
    /// The values of the place and of all later ones, in satoshi.
    pub value: u128,
    /// The least weight of the place and of all later ones, in weight units; after the last place the greatest `u64`.
    pub weight: u64,
    /// The first later place that is no twin of the place, or the number of places.
    pub end: u32,
}

/// The row after the last of so many places.
fn last_tail(count: u32) -> Tail
    ensures { result ≡ record { value = 0; weight = 18_446_744_073_709_551_615; end = count } }
{
    Tail {
        value: 0,
        weight: u64::MAX,
        end: count,
    }
}

/// Whether one item may stand for the other in a search of this kind.
fn is_twin(kind: Kind, a: &Item, b: &Item) -> bool
    ensures { result ≡ is_twin kind a.now b.now }
{
    match kind {
        Kind::Changeless => a.value == b.value && a.weight == b.weight && a.cost == b.cost,
        Kind::Lean => a.value == b.value,
    }
}

/// The row of a place, from that of the next place.
#[tactic(auto, using(crate::proofs::TailLaws::later_small, crate::proofs::TailLaws::tail_here))]
fn tail_from(problem: &Problem, t: u32, behind: Tail) -> Tail
    requires below { t < length problem.now.items }
    requires behind { IsTail problem.now (t + 1) behind }
    ensures { IsTail problem.now t result }
{
    let items = problem.items();
    let item = items[t as usize];
    Tail {
        value: behind.value + u128::from(item.value),
        weight: behind.weight.min(item.weight),
        end: run_end(problem, t, behind.end),
    }
}

/// The end of the run of a place, from that of the next place.
#[tactic(auto, using(crate::proofs::TailLaws::run_goes_on, crate::proofs::TailLaws::run_ends, crate::proofs::TailLaws::run_last))]
fn run_end(problem: &Problem, t: u32, end: u32) -> u32
    requires below { t < length problem.now.items }
    requires end { t + 1 < length problem.now.items → end ≡ behind_twins problem.now (t + 1 + 1) }
    ensures { result ≡ behind_twins problem.now (t + 1) }
{
    let items = problem.items();
    let next = t + 1;
    if next == problem.count() {
        return next;
    }
    if is_twin(problem.kind(), &items[t as usize], &items[next as usize]) {
        end
    } else {
        next
    }
}

/// What a pool has from each of its places on. It is made once, from the last place to the first, and then answers
/// without a loop.
#[derive(Drop)]
pub struct Tails {
    rows: Vec<Tail>,
}

impl Model for Tails {
    ghost use Rattle.std.specs.Prelude.{List};
    ghost use Rattle.pick_problem.specs.declared.tails.Tail.{Tail};

    ghost Value = { List Tail };

    ghost view = { λ t. t.rows.items };
}

impl Tails {
    /// The tails of a problem's pool: one for each place, and one after the last. The error is out of memory.
    pub fn new(alloc: Global, problem: &Problem) -> Result<Tails, Memory>
        ensures { IfOk result (λ tails. AreTails problem.now tails) }
    {
        let count = problem.count();
        let mut rows = vec![in alloc; last_tail(count); count as usize + 1]?;
        let mut t = count;
        'back: while t > 0 {
            let behind = rows[t as usize];
            t -= 1;
            rows[t as usize] = tail_from(problem, t, behind);
        }
        Ok(Tails { rows })
    }

    /// The row of a place, or that after the last one.
    pub fn at(&self, t: u32) -> Tail
        requires { t < length self.now }
        ensures row { result ≡ tail_at self.now t }
        ensures tail { (p : PlainProblem) → AreTails p self.now → IsTail p t result }
    {
        self.rows[t as usize]
    }

    /// The sum of the values from a place on, in satoshi; the place is at most the number of items.
    pub fn later_value(&self, t: u32) -> u128
        requires { t < length self.now }
        ensures row { result ≡ (tail_at self.now t).value }
        ensures value { (p : PlainProblem) → AreTails p self.now → result ≡ later_value p t }
    {
        self.at(t).value
    }

    /// The least weight from a place on, in weight units, and `None` exactly where the place is the number of items.
    pub fn least_weight(&self, t: u32) -> Option<u64>
        requires { t < length self.now }
        ensures { (p : PlainProblem) → AreTails p self.now → SomeIff result (t < length p.items) (least_weight p t) }
    {
        if t as usize + 1 == self.rows.len() {
            None
        } else {
            Some(self.at(t).weight)
        }
    }

    /// The first place after the given one that is no twin of it, or the number of items. The place is below the
    /// number of items.
    pub fn run_end(&self, t: u32) -> u32
        requires { t + 1 < length self.now }
        ensures row { result ≡ (tail_at self.now t).end }
        ensures end { (p : PlainProblem) → AreTails p self.now → result ≡ behind_twins p (t + 1) }
    {
        self.at(t).end
    }
}

/// What a pool has from a place on, in words: the later value is the sum of a list of values; the least weight is that
/// of a place, and no later place weighs less; and a run of twins ends at the first place that is no twin. A call does
/// nothing.
#[tactic(auto, using(crate::proofs::TailLaws::later_sum, crate::proofs::TailLaws::least_from, crate::proofs::TailLaws::run_is, crate::proofs::TailLaws::run_only))]
pub fn tails_in_words()
    ensures value { (p : PlainProblem) (t : ℕ) → later_value p t ≡ sum (map (λ x. x.value) (drop t p.items)) }
    ensures least { (p : PlainProblem) (t : ℕ) → t < length p.items → IsLeastFrom p t (least_weight p t) }
    ensures run { (p : PlainProblem) (t : ℕ) → t < length p.items → IsRunEnd p t (behind_twins p (t + 1)) }
    ensures only { (p : PlainProblem) (t u : ℕ) → IsRunEnd p t u → behind_twins p (t + 1) ≡ u }
{}

//! A problem with the answer that is claimed to be its best, and what its checks want to know of them.

ghost use Rattle.std.specs.Prelude.{◌≡◌, ◌↔◌, ◌<◌, ◌≤◌, ◌≤ℤ◌, ◌+◌, ◌⊎◌, Err, None, IfErr, IfOk, IsSomeAnd, IsTrue, MatchOption, length, neg_ℤ, option_copied, pos};
ghost use Rattle.std.specs.Option.{ForSome};
ghost use Rattle.wide_check.specs.Claims.{IsClaim, PlainClaim};
ghost use Rattle.pick_problem.specs.Later.{behind_twins, later_value};
ghost use Rattle.pick_problem.specs.Pool.{IsItem, item_at};
ghost use Rattle.pick_problem.specs.Problem.{IsProblem, Rising};
ghost use Rattle.pick_problem.specs.declared.item.Kind.TheVariants.{Changeless};
ghost use Rattle.wide_check.specs.Wide.{IsWide, IsWideFit, waste_of};
ghost use Rattle.wide_check.specs.WideSteps.{savings};

use crate::fault::WideFault;
use crate::savings::Savings;
use fund_base::{Memory, Places};
use pick_problem::{Item, Problem, Tails};
use std::alloc::Global;
use std::marker::Model;

/// Whether places that rise are a selection: there is one, their value is from `lo` to `hi`, and their weight within the
/// limit.
fn is_wide(problem: &Problem, places: &[u32]) -> bool
    requires { Rising (length problem.now.items) 0 places.now }
    ensures { IsTrue result ↔ IsWide problem.now places.now }
{
    let value = problem.value(places);
    !places.is_empty()
        && value >= u128::from(problem.lo())
        && value <= u128::from(problem.hi())
        && problem.weight(places) <= problem.most_weight()
}

/// Whether there is no answer, or it is a selection.
fn is_fit(problem: &Problem, answer: Option<&[u32]>) -> bool
    ensures { IsTrue result ↔ IsWideFit problem.now (option_copied answer.entry) }
{
    match answer {
        None => true,
        Some(places) => problem.are_places(places) && is_wide(problem, places),
    }
}

/// The waste of an answer, in satoshi; without one any number.
fn answer_waste(problem: &Problem, answer: Option<&[u32]>) -> i128
    requires { IsWideFit problem.now (option_copied answer) }
    ensures { ForSome (option_copied answer.entry) (λ best. result ≡ waste_of problem.now best) }
{
    match answer {
        None => 0,
        Some(places) => {
            problem.cost(places) + problem.value(places) as i128 - i128::from(problem.lo())
        }
    }
}

/// A copy of an answer.
fn copied(alloc: Global, answer: Option<&[u32]>) -> Result<Option<Places>, Memory>
    ensures { IfOk result (λ copy. copy ≡ option_copied answer.entry) }
{
    match answer {
        None => Ok(None),
        Some(places) => Ok(Some(Places::new(Vec::from_slice(alloc, places)?))),
    }
}

/// A problem, and the answer that is claimed to be its best; without one, that there is no selection.
pub struct Claim {
    problem: Problem,
    // its items once more: each letter looks at one
    items: Vec<Item>,
    tails: Tails,
    savings: Savings,
    answer: Option<Places>,
    waste: i128,
}

/// One call, wherever it is dropped.
impl Drop for Claim {
    fn drop(self) {
        let Claim {
            problem: _,
            items: _,
            tails: _,
            savings: _,
            answer: _,
            waste: _,
        } = self;
    }
}

impl Model for Claim {
    ghost use Rattle.wide_check.specs.Claims.{IsClaim, PlainClaim};

    ghost Value = { PlainClaim };

    ghost view = { λ c. record { problem = c.problem; answer = c.answer } };

    ghost invariant = { λ c. IsClaim c.problem c.answer c.items.items c.tails c.savings c.waste };
}

impl Claim {
    /// The claim that the answer is the problem's best. It takes all memory that its calls need. The problem is one
    /// without change.
    pub fn new(alloc: Global, problem: &Problem, answer: Option<&[u32]>) -> Result<Claim, WideFault>
        requires { problem.now.kind ≡ Changeless }
        ensures ok { IfOk result (λ c. c ≡ record { problem = problem.now; answer = option_copied answer.entry }) }
        ensures unfit { result ≡ Err WideFault.AnswerNotAdmissible ↔ ¬ IsWideFit problem.now (option_copied answer.entry) }
        ensures only { IfErr result (λ f. (f ≡ WideFault.AnswerNotAdmissible) ⊎ (f ≡ WideFault.Memory)) }
    {
        if !is_fit(problem, answer) {
            return Err(WideFault::AnswerNotAdmissible);
        }
        let waste = answer_waste(problem, answer);
        Ok(Claim {
            problem: problem.copy()?,
            items: Vec::from_slice(alloc, problem.items())?,
            tails: Tails::new(alloc, problem)?,
            savings: Savings::new(alloc, problem)?,
            answer: copied(alloc, answer)?,
            waste,
        })
    }

    /// The number of places.
    #[inline(always)]
    pub fn count(&self) -> u32
        ensures count { result ≡ length self.now.problem.items }
        ensures few { result ≤ 10_000 }
        ensures problem { IsProblem self.now.problem }
        ensures fit { IsWideFit self.now.problem self.now.answer }
    {
        self.items.len() as u32
    }

    /// The item at a place.
    #[inline(always)]
    pub fn item(&self, place: u32) -> Item
        requires { place < length self.now.problem.items }
        ensures item { result ≡ item_at self.now.problem.items place }
        ensures ranges { IsItem result }
        ensures problem { IsProblem self.now.problem }
    {
        self.items[place as usize]
    }

    /// The least value, in satoshi.
    #[inline(always)]
    pub fn lo(&self) -> u64
        ensures lo { result ≡ self.now.problem.lo }
        ensures some { 1 ≤ result }
    {
        self.problem.lo()
    }

    /// The greatest value without change, in satoshi.
    #[inline(always)]
    pub fn hi(&self) -> u64
        ensures { result ≡ self.now.problem.hi }
    {
        self.problem.hi()
    }

    /// The greatest weight, in weight units.
    #[inline(always)]
    pub fn most_weight(&self) -> u64
        ensures { result ≡ self.now.problem.most_weight }
    {
        self.problem.most_weight()
    }

    /// The sum of the values from a place on, in satoshi.
    #[tactic(auto, using(pick_problem::proofs::TailLaws::later_small))]
    #[inline(always)]
    pub fn later_value(&self, t: u32) -> u128
        requires { t ≤ length self.now.problem.items }
        ensures value { result ≡ later_value self.now.problem t }
        ensures small { result ≤ 2_100_000_000_000_000_000_000 }
    {
        self.tails.later_value(t)
    }

    /// What the places from the given one on save at most, in satoshi: 0 or less.
    #[tactic(auto, using(crate::proofs::SavingLaws::savings_least, crate::proofs::SavingLaws::savings_below))]
    #[inline(always)]
    pub fn savings(&self, t: u32) -> i128
        requires { t ≤ length self.now.problem.items }
        ensures savings { result ≡ savings self.now.problem t }
        ensures low { neg_ℤ (pos 100_000_000_000_000_000) ≤ℤ result }
        ensures high { result ≤ℤ pos 0 }
    {
        self.savings.from(t)
    }

    /// The first place after the given one that is no twin of it, or the number of places.
    #[inline(always)]
    pub fn run_end(&self, t: u32) -> u32
        requires { t < length self.now.problem.items }
        ensures end { result ≡ behind_twins self.now.problem (t + 1) }
        ensures problem { IsProblem self.now.problem }
    {
        self.tails.run_end(t)
    }

    /// The places of the answer, if there is one.
    #[inline(always)]
    pub fn answer(&self) -> Option<&Places>
        ensures { option_copied result ≡ self.now.answer }
    {
        self.answer.as_ref()
    }

    /// The waste of the answer in satoshi, if there is one.
    #[inline(always)]
    pub fn waste(&self) -> Option<i128>
        ensures { MatchOption result (self.now.answer ≡ None) (λ waste. IsSomeAnd self.now.answer (λ best. waste ≡ waste_of self.now.problem best)) }
    {
        match &self.answer {
            None => None,
            Some(_) => Some(self.waste),
        }
    }
}

//! A problem with the answer that is claimed to be its best, and what its checks want to know of them.

ghost use Rattle.std.specs.Prelude.{◌≡◌, ◌↔◌, ◌<◌, ◌≤◌, ◌+◌, ◌⊎◌, Err, None, IfErr, IfOk, IfSome, IsSomeAnd, IsTrue, MatchOption, SomeIff, length, option_copied};
ghost use Rattle.std.specs.Option.{ForSome};
ghost use Rattle.log_checker.specs.Claims.{IsClaim, PlainClaim};
ghost use Rattle.pick_problem.specs.Admissible.{IsFit};
ghost use Rattle.pick_problem.specs.Later.{NoNegative, behind_twins, later_value, least_weight};
ghost use Rattle.pick_problem.specs.Pool.{IsItem, item_at};
ghost use Rattle.pick_problem.specs.Problem.{IsProblem};
ghost use Rattle.pick_problem.specs.Score.{score_of};

use crate::fault::LogFault;
use fund_base::{Memory, Places};
use pick_problem::{Item, Kind, Problem, Score, Tails};
use std::alloc::Global;
use std::marker::Model;

/// Whether there is no answer, or it is an admissible selection.
fn is_fit(problem: &Problem, answer: Option<&[u32]>) -> bool
    ensures { IsTrue result ↔ IsFit problem.now (option_copied answer.entry) }
{
    match answer {
        None => true,
        Some(places) => problem.are_places(places) && problem.admissible(places),
    }
}

/// The score of an answer; without one any score.
fn answer_score(problem: &Problem, answer: Option<&[u32]>) -> Score
    requires { IsFit problem.now (option_copied answer) }
    ensures { ForSome (option_copied answer.entry) (λ best. result ≡ score_of problem.now best) }
{
    match answer {
        None => Score {
            first: 0,
            second: 0,
        },
        Some(places) => problem.score(places),
    }
}

/// A copy of an answer.
fn copied(alloc: Global, answer: Option<&[u32]>) -> Result<Option<Places>, Memory>
    ensures { IfOk result (λ copy. copy ≡ option_copied answer.entry) }
{
    match answer {
        None => Ok(None),
        Some(places) => Ok(Some(Places::new(Vec::from_slice(alloc, places)?))),
    }
}

/// Whether no item has a negative cost.
fn has_plain_costs(problem: &Problem) -> bool
    ensures { IsTrue result ↔ NoNegative problem.now }
{
    problem.items().iter().all(|item| item.cost >= 0)
}

/// A problem, and the answer that is claimed to be its best; without one, that no selection is admissible.
pub struct Claim {
    problem: Problem,
    // its items once more: each letter looks at one
    items: Vec<Item>,
    tails: Tails,
    plain_costs: bool,
    answer: Option<Places>,
    score: Score,
}

/// One call, wherever it is dropped.
impl Drop for Claim {
    fn drop(self) {
        let Claim {
            problem: _,
            items: _,
            tails: _,
            plain_costs: _,
            answer: _,
            score: _,
        } = self;
    }
}

impl Model for Claim {
    ghost use Rattle.log_checker.specs.Claims.{IsClaim, PlainClaim};

    ghost Value = { PlainClaim };

    ghost view = { λ c. record { problem = c.problem; answer = c.answer } };

    ghost invariant = { λ c. IsClaim c.problem c.answer c.items.items c.tails c.plain_costs c.score };
}

impl Claim {
    /// The claim that the answer is the problem's best. It takes all memory that its calls need.
    pub fn new(alloc: Global, problem: &Problem, answer: Option<&[u32]>) -> Result<Claim, LogFault>
        ensures ok { IfOk result (λ c. c ≡ record { problem = problem.now; answer = option_copied answer.entry }) }
        ensures unfit { result ≡ Err LogFault.AnswerNotAdmissible ↔ ¬ IsFit problem.now (option_copied answer.entry) }
        ensures only { IfErr result (λ f. (f ≡ LogFault.AnswerNotAdmissible) ⊎ (f ≡ LogFault.Memory)) }
    {
        if !is_fit(problem, answer) {
            return Err(LogFault::AnswerNotAdmissible);
        }
        let score = answer_score(problem, answer);
        Ok(Claim {
            problem: problem.copy()?,
            items: Vec::from_slice(alloc, problem.items())?,
            tails: Tails::new(alloc, problem)?,
            plain_costs: has_plain_costs(problem),
            answer: copied(alloc, answer)?,
            score,
        })
    }

    /// The number of places.
    #[inline(always)]
    pub fn count(&self) -> u32
        ensures count { result ≡ length self.now.problem.items }
        ensures few { result ≤ 10_000 }
        ensures problem { IsProblem self.now.problem }
        ensures fit { IsFit self.now.problem self.now.answer }
    {
        self.items.len() as u32
    }

    /// The item at a place.
    #[inline(always)]
    pub fn item(&self, place: u32) -> Item
        requires { place < length self.now.problem.items }
        ensures item { result ≡ item_at self.now.problem.items place }
        ensures ranges { IsItem result }
        ensures problem { IsProblem self.now.problem }
    {
        self.items[place as usize]
    }

    /// The least value, in satoshi.
    #[inline(always)]
    pub fn lo(&self) -> u64
        ensures lo { result ≡ self.now.problem.lo }
        ensures some { 1 ≤ result }
    {
        self.problem.lo()
    }

    /// The greatest value without change, in satoshi.
    #[inline(always)]
    pub fn hi(&self) -> u64
        ensures { result ≡ self.now.problem.hi }
    {
        self.problem.hi()
    }

    /// The greatest weight, in weight units.
    #[inline(always)]
    pub fn most_weight(&self) -> u64
        ensures { result ≡ self.now.problem.most_weight }
    {
        self.problem.most_weight()
    }

    /// Which selections are looked for.
    #[inline(always)]
    pub fn kind(&self) -> Kind
        ensures { result ≡ self.now.problem.kind }
    {
        self.problem.kind()
    }

    /// Whether no item has a negative cost.
    #[inline(always)]
    pub fn plain_costs(&self) -> bool
        ensures { IsTrue result ↔ NoNegative self.now.problem }
    {
        self.plain_costs
    }

    /// The sum of the values from a place on, in satoshi.
    #[tactic(auto, using(pick_problem::proofs::TailLaws::later_small))]
    #[inline(always)]
    pub fn later_value(&self, t: u32) -> u128
        requires { t ≤ length self.now.problem.items }
        ensures value { result ≡ later_value self.now.problem t }
        ensures small { result ≤ 2_100_000_000_000_000_000_000 }
    {
        self.tails.later_value(t)
    }

    /// The least weight from a place on, in weight units; none after the last place.
    #[inline(always)]
    pub fn least_weight(&self, t: u32) -> Option<u64>
        requires { t ≤ length self.now.problem.items }
        ensures weight { SomeIff result (t < length self.now.problem.items) (least_weight self.now.problem t) }
        ensures small { IfSome result (λ weight. weight ≤ 40_000_000) }
    {
        self.tails.least_weight(t)
    }

    /// The first place after the given one that is no twin of it, or the number of places.
    #[inline(always)]
    pub fn run_end(&self, t: u32) -> u32
        requires { t < length self.now.problem.items }
        ensures end { result ≡ behind_twins self.now.problem (t + 1) }
        ensures problem { IsProblem self.now.problem }
    {
        self.tails.run_end(t)
    }

    /// The places of the answer, if there is one.
    #[inline(always)]
    pub fn answer(&self) -> Option<&Places>
        ensures { option_copied result ≡ self.now.answer }
    {
        self.answer.as_ref()
    }

    /// The score of the answer, if there is one.
    #[inline(always)]
    pub fn score(&self) -> Option<Score>
        ensures { MatchOption result (self.now.answer ≡ None) (λ score. IsSomeAnd self.now.answer (λ best. score ≡ score_of self.now.problem best)) }
    {
        match &self.answer {
            None => None,
            Some(_) => Some(self.score),
        }
    }
}

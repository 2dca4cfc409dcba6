//! What a pool saves from each place on, in a table that is made once.

ghost use Rattle.std.specs.Prelude.{◌≡◌, ◌+◌, ◌<◌, ℕ, IfOk, length};
ghost use Rattle.pick_problem.specs.Problem.{PlainProblem};
ghost use Rattle.wide_check.specs.SavingsTable.{AreSavings, saving_at};
ghost use Rattle.wide_check.specs.WideSteps.{savings};

use fund_base::Memory;
use pick_problem::{Item, Problem};
use std::alloc::Global;
use std::marker::Model;

/// The row of a place, from that of the next place.
#[tactic(auto, using(crate::proofs::SavingLaws::savings_plain))]
fn row_from(problem: &Problem, t: u32, behind: i128) -> i128
    requires below { t < length problem.now.items }
    requires behind { behind ≡ savings problem.now (t + 1) }
    ensures { result ≡ savings problem.now t }
{
    let items = problem.items();
    let cost = items[t as usize].cost;
    if cost < 0 {
        i128::from(cost) + behind
    } else {
        behind
    }
}

/// What a pool saves from each of its places on: the sum of the negative costs, in satoshi. It is made once, from the
/// last place to the first, and then answers without a loop.
#[derive(Drop)]
pub struct Savings {
    rows: Vec<i128>,
}

impl Model for Savings {
    ghost use Rattle.std.specs.Prelude.{List, ℤ};

    ghost Value = { List ℤ };

    ghost view = { λ s. s.rows.items };
}

impl Savings {
    /// The savings of a problem's pool: a row for each place, and one after the last. The error is out of memory.
    #[tactic(auto, using(crate::proofs::SavingLaws::savings_last))]
    pub fn new(alloc: Global, problem: &Problem) -> Result<Savings, Memory>
        ensures { IfOk result (λ rows. AreSavings problem.now rows) }
    {
        let count = problem.items().len() as u32;
        let mut rows = vec![in alloc; 0i128; count as usize + 1]?;
        let mut t = count;
        'back: while t > 0 {
            let behind = rows[t as usize];
            t -= 1;
            rows[t as usize] = row_from(problem, t, behind);
        }
        Ok(Savings { rows })
    }

    /// The sum of the negative costs from the given place on, in satoshi: no list of these places costs less. It is 0 or
    /// negative. The place is at most the number of items.
    pub fn from(&self, t: u32) -> i128
        requires { t < length self.now }
        ensures row { result ≡ saving_at self.now t }
        ensures savings { (p : PlainProblem) → AreSavings p self.now → result ≡ savings p t }
    {
        self.rows[t as usize]
    }
}

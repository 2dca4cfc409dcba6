//! The draw of a problem.

ghost use Rattle.std.specs.Prelude.{◌≡◌, [], IfOk};
ghost use Rattle.pick_problem.specs.Admissible.{IsFit};
ghost use Rattle.random_draw.specs.Draw.{draw_of, found_from};
ghost use Rattle.random_draw.specs.KeptPlaces.{AreFresh};

use crate::kept::Kept;
use crate::shuffling::order;
use fund_base::{Memory, Places};
use pick_problem::{Kind, Problem};
use std::alloc::Global;

/// Adds these places one after another until they reach what is looked for.
fn find(alloc: Global, problem: &Problem, order: &[u32]) -> Result<Option<Places>, Memory>
    requires { AreFresh problem.now [] order.now }
    ensures { IfOk result (λ found. found ≡ found_from problem.now [] order.now) }
{
    let lo = u128::from(problem.lo());
    let mut kept = Kept::new(alloc);
    for place in order {
        kept.add(problem, *place)?;
        if kept.value() >= lo {
            return Ok(Some(kept.into_places(problem)));
        }
    }
    Ok(None)
}

/// What the draw of a problem, whose kind is [`Kind::Lean`], finds by a seed (Bitcoin Core, single random draw). The
/// places are added in the order of [`order`]. After each addition, while the kept places weigh more than the limit,
/// the least valuable one is dropped, on a tie the greater place. It ends as soon as the kept places reach `lo`, and
/// answers them, rising; they are admissible for the problem. `None` is the answer where they never reach it. The
/// error is out of memory.
pub fn draw(alloc: Global, problem: &Problem, seed: [u8; 32]) -> Result<Option<Places>, Memory>
    requires { problem.now.kind ≡ Kind.Lean }
    ensures value { IfOk result (λ found. found ≡ draw_of problem.now seed) }
    ensures admissible { IfOk result (λ found. IsFit problem.now found) }
{
    let order = order(alloc, problem.items().len() as u32, seed)?;
    find(alloc, problem, order.as_slice())
}

//! The best selection so far.

ghost use Rattle.std.specs.Prelude.{◌≡◌, ◌<◌, ◌≤◌, ◌∷◌, ◌++◌, [], IfOk, None, length};
ghost use Rattle.std.specs.Vec.{vec_capacity};
ghost use Rattle.wide_search.specs.Best.{IsBestSoFar, plain_best};
ghost use Rattle.wide_search.specs.Stack.{AreSums, IsStack, with_place};
ghost use Rattle.wide_search.specs.WideWalk.{better};

use crate::prepared::Prepared;
use crate::stack::{Stack, add};
use crate::sums::Sums;
use fund_base::Memory;
use std::alloc::Global;

/// The best selection so far, if one was found, with its waste in satoshi.
#[derive(Drop)]
pub(crate) struct Best {
    pub(crate) found: bool,
    pub(crate) places: Vec<u32>,
    pub(crate) waste: i128,
}

/// Chosen places with one more, where there is room for them.
fn replace(places: &mut Vec<u32>, chosen: &[u32], place: u32)
    requires { length chosen.now < vec_capacity places.old }
    ensures places { places.new.items ≡ chosen.now ++ place ∷ [] }
    ensures room { vec_capacity places.old ≤ vec_capacity places.new }
{
    places.clear();
    if let Err(_) = places.extend_from_slice(chosen) {
        unreachable!()
    }
    add(places, place);
}

impl Best {
    /// None yet, with room for every place. The error is out of memory.
    pub(crate) fn new(alloc: Global, prepared: &Prepared) -> Result<Best, Memory>
        ensures best { IfOk result (λ b. IsBestSoFar prepared.now b) }
        ensures none { IfOk result (λ b. plain_best b ≡ None) }
    {
        let places = Vec::with_capacity(alloc, prepared.count() as usize)?;
        Ok(Best {
            found: false,
            places,
            waste: 0,
        })
    }
}

/// The chosen places with one more, which have these sums, become the best if there is none, or if they waste less.
pub(crate) fn improve(best: &mut Best, prepared: &Prepared, stack: &Stack, t: u32, sums: &Sums)
    requires below { t < length prepared.now.items }
    requires stack { IsStack prepared.now t stack.now }
    requires sums { AreSums prepared.now (with_place stack.now t) sums.now }
    requires best { IsBestSoFar prepared.now best.old }
    ensures best { plain_best best.new ≡ better prepared.now (plain_best best.old) (with_place stack.now t) }
    ensures is { IsBestSoFar prepared.now best.new }
{
    let waste = prepared.waste(sums);
    if best.found && best.waste <= waste {
        return;
    }
    replace(&mut best.places, stack.places.as_slice(), t);
    best.waste = waste;
    best.found = true;
}

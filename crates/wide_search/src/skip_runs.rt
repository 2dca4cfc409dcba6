//! Runs of tries that drop their place, and change nothing else.

ghost use Rattle.std.specs.Prelude.{◌+◌, ◌*◌, ◌<◌, ◌≤◌, length};
ghost use Rattle.std.specs.Vec.{vec_capacity};
ghost use Rattle.wide_search.specs.Best.{IsBestSoFar, plain_best};
ghost use Rattle.wide_search.specs.SkipRuns.{HasGlided};
ghost use Rattle.wide_search.specs.Stack.{IsStack};

use crate::best::Best;
use crate::prepared::Prepared;
use crate::skipping::drop_reason;
use crate::stack::Stack;
use crate::transitions::drop_place;

/// Where a run of tries leads: the next place; and how many tries were made.
#[derive(Clone, Copy)]
pub(crate) struct Run {
    pub(crate) next: u32,
    pub(crate) made: u64,
}

/// Tries from a place on, as long as each is told to drop its place and to change nothing else, and at most so many. The
/// next place and the count are local here: a search keeps them in memory.
#[inline(always)]
pub(crate) fn glide(
    prepared: &Prepared,
    best: &Best,
    stack: &Stack,
    letters: &mut Vec<u8>,
    from: u32,
    tries: u64,
) -> Run
    requires below { from < length prepared.now.items }
    requires stack { IsStack prepared.now from stack.now }
    requires best { IsBestSoFar prepared.now best.now }
    requires room { length letters.old.items + 3 * tries ≤ vec_capacity letters.old }
    ensures glided { HasGlided prepared.now (plain_best best.now) stack.now.places.items
        from result.next result.made letters.old.items letters.new.items }
    ensures few { result.made ≤ tries }
    ensures stack { IsStack prepared.now result.next stack.now }
    ensures room { vec_capacity letters.old ≤ vec_capacity letters.new }
{
    let mut next = from;
    let mut made = 0;
    'gliding: while made < tries {
        match drop_reason(prepared, best, stack, next) {
            None => return Run { next, made },
            Some(reason) => {
                next = drop_place(prepared, letters, next, reason);
                made += 1;
            }
        }
    }
    Run { next, made }
}

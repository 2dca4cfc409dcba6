//! Draws among made-up items, under a limit of weight for as many of them as is said and with nothing that is ever
//! reached: each place is added, and each one beyond the limit dropped. It does so by as many seeds as is said, and
//! once without a limit and with all that there is to reach, and tells how many places that found. If asked to, it
//! tells how long a draw under the limit takes too, in nanoseconds.

ghost use Rattle.std.specs.Prelude.{◌≡◌, ◌≤◌, IfOk, IfSome};

use fund_base::Memory;
use pick_problem::{Item, Kind, Problem, are_items};
use random_draw::draw;
use row_columns::{Answer, number_in, number_within};
use std::alloc::Global;
use std::io;
use std::rc::Rc;
use std::time::Instant;

/// Items of falling value, each of 272 weight units.
fn made(alloc: Global, count: u32) -> Result<Vec<Item>, Memory> {
    let mut items = Vec::new(alloc);
    for place in 0..count {
        items.push(Item {
            value: 1_000 + 3 * (count - place) as u64,
            weight: 272,
            cost: 0,
        })?;
    }
    Ok(items)
}

/// A problem of made-up items. None where they are too many, or nothing is looked for.
fn problem(alloc: Global, count: u32, lo: u64, limit: u64) -> Result<Option<Problem>, Memory>
    ensures { IfOk result (λ made. IfSome made (λ problem. problem.kind ≡ Kind.Lean)) }
{
    let items = made(alloc, count)?;
    if lo == 0 || !are_items(items.as_slice()) {
        return Ok(None);
    }
    let items = Rc::new(alloc, items)?;
    Ok(Some(Problem::new(items, lo, lo, limit, Kind::Lean)))
}

/// How many places the draws by so many seeds find.
fn draws(alloc: Global, problem: &Problem, seeds: u64) -> Result<u64, Memory>
    requires { problem.now.kind ≡ Kind.Lean }
{
    let mut places: u64 = 0;
    for number in 0..seeds {
        let mut seed = [0; 32];
        let [a, b, c, d, ..] = number.to_le_bytes();
        seed[0] = a;
        seed[1] = b;
        seed[2] = c;
        seed[3] = d;
        if let Some(found) = draw(alloc, problem, seed)? {
            places = places.wrapping_add(found.as_slice().len() as u64);
        }
    }
    Ok(places)
}

/// Puts how many places draws find, and whether there was enough memory.
fn put_draws(out: &mut Answer, word: &str, found: Result<u64, Memory>) {
    match found {
        Ok(places) => out.number(word, places),
        Err(_) => out.lack(),
    }
}

/// How many places the draw finds that has to reach all that there is.
fn whole(alloc: Global, count: u32) -> Result<u64, Memory>
    requires { count ≤ 10_000 }
{
    let items = u64::from(count);
    let all = 1_000 * items + 3 * items * (items + 1) / 2;
    match problem(alloc, count, all, u64::MAX)? {
        Some(problem) => draws(alloc, &problem, 1),
        None => Ok(0),
    }
}

/// Puts what draws find of a problem where nothing is ever reached, what one finds that has to reach all there is, and, if asked
/// to, how long one of the former takes.
fn put_both(
    rt: &HostRuntime,
    out: &mut Answer,
    never: &Problem,
    count: u32,
    seeds: u64,
    timed: bool,
) -> io::Result<()>
    requires count { count ≤ 10_000 }
    requires kind { never.now.kind ≡ Kind.Lean }
{
    let start = Instant::now(rt)?;
    put_draws(out, "", draws(out.alloc, never, seeds));
    let time = start.elapsed(rt)?;
    put_draws(out, " and ", whole(out.alloc, count));
    out.word(" places\n");
    if timed {
        out.large("", time.as_nanos() / u128::from(seeds.max(1)));
        out.word(" ns\n");
    }
    Ok(())
}

/// Puts what the draws find among so many items, of which the limit allows so many.
fn run(
    rt: &HostRuntime,
    out: &mut Answer,
    count: u32,
    kept: u64,
    seeds: u64,
    timed: bool,
) -> io::Result<bool>
    requires { count ≤ 10_000 }
{
    let Ok(Some(never)) = problem(out.alloc, count, u64::MAX, kept.saturating_mul(272)) else {
        out.word("there is no such problem\n");
        return Ok(false);
    };
    put_both(rt, out, &never, count, seeds, timed)?;
    Ok(true)
}

/// Draws by the numbers of three words: how many items there are, for how many of them the limit is, and how many
/// seeds.
pub(crate) fn draw_words(
    rt: &HostRuntime,
    out: &mut Answer,
    items: &str,
    kept: &str,
    seeds: &str,
    timed: bool,
) -> io::Result<bool> {
    let count = number_in(items, u64::MAX);
    if count > 10_000 {
        out.word("up to 10000 items can be made\n");
        return Ok(false);
    }
    let kept = number_within(kept, 4_294_967_295);
    run(rt, out, count as u32, kept, number_in(seeds, 0), timed)
}

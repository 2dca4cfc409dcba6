//! What a try writes, and where it leads.

ghost use Rattle.std.specs.Prelude.{◌≡◌, ◌+◌, ◌*◌, ◌<◌, ◌≤◌, [], ◌∷◌, ◌++◌, if◌then◌else◌, length, nat_lt, reverse};
ghost use Rattle.std.specs.Vec.{vec_capacity};
ghost use Rattle.pick_problem.specs.Later.{behind_twins};
ghost use Rattle.wide_check.specs.WideLetters.{letters_of};
ghost use Rattle.wide_check.specs.WideTokens.{letter_of};
ghost use Rattle.wide_check.specs.declared.token.WideToken.TheVariants.{Close, Enter, Pass};
ghost use Rattle.wide_search.specs.Best.{IsBestSoFar, plain_best};
ghost use Rattle.wide_search.specs.Cases.{rule_of};
ghost use Rattle.wide_search.specs.Skipping.{dropping};
ghost use Rattle.wide_search.specs.Stack.{AreSums, IsStack, with_place};
ghost use Rattle.wide_search.specs.Transitions.{HasWalked};
ghost use Rattle.wide_search.specs.WideWalk.{best_of, going, leave, rule, shift, start, way_of, writes};

use crate::best::{Best, improve};
use crate::cases::{Case, first_case};
use crate::prepared::Prepared;
use crate::stack::Stack;
use crate::stop::Stop;
use crate::sums::Sums;
use wide_check::{WideReason, WideToken};

/// A token's letter, where there is room for it.
#[inline(always)]
fn put(letters: &mut Vec<u8>, token: WideToken)
    requires { length letters.old.items < vec_capacity letters.old }
    ensures letters { letters.new.items ≡ letters.old.items ++ letter_of token ∷ [] }
    ensures room { vec_capacity letters.old ≤ vec_capacity letters.new }
{
    letters.push_reserved(token.letter());
}

/// I and the letter of a reason, where there is room for them.
#[inline(always)]
fn note(letters: &mut Vec<u8>, reason: WideReason)
    requires { length letters.old.items + 2 ≤ vec_capacity letters.old }
    ensures letters { letters.new.items ≡ letters.old.items ++ letters_of (Enter ∷ Close reason ∷ []) }
    ensures room { vec_capacity letters.old ≤ vec_capacity letters.new }
{
    put(letters, WideToken::Enter);
    put(letters, WideToken::Close(reason));
}

/// A place is dropped after I and a reason, and its twins are passed. The place after them is given.
#[inline(always)]
#[tactic(auto, using(crate::proofs::DropLaws::drops_some, crate::proofs::DropLaws::drops_none))]
pub(crate) fn drop_place(
    prepared: &Prepared,
    letters: &mut Vec<u8>,
    t: u32,
    reason: WideReason,
) -> u32
    requires below { t < length prepared.now.items }
    requires room { length letters.old.items + 3 ≤ vec_capacity letters.old }
    ensures letters { letters.new.items ≡ letters.old.items ++ letters_of (dropping prepared.now t reason) }
    ensures next { result ≡ behind_twins prepared.now (t + 1) }
    ensures behind { t < result }
    ensures room { vec_capacity letters.old ≤ vec_capacity letters.new }
{
    let end = prepared.run_end(t);
    let behind = prepared.behind(t);
    note(letters, reason);
    if behind < end {
        put(letters, WideToken::Pass);
        return end;
    }
    behind
}

/// Where a walk begins: at the first place, or done at once where the whole pool doesn't reach the least value.
#[tactic(auto, using(crate::proofs::SearchLaws::start_short, crate::proofs::SearchLaws::start_open))]
pub(crate) fn begin(prepared: &Prepared, letters: &mut Vec<u8>) -> Stop
    requires none { letters.old.items ≡ [] }
    requires room { 2 ≤ vec_capacity letters.old }
    ensures next { result.next ≡ (start prepared.now).next }
    ensures done { result.done ≡ (start prepared.now).done }
    ensures letters { letters.new.items ≡ letters_of (start prepared.now).tokens }
    ensures room { 2 ≤ vec_capacity letters.new }
{
    if prepared.later_value(0) < u128::from(prepared.problem().lo()) {
        put(letters, WideToken::Close(WideReason::Short));
        Stop {
            next: prepared.count(),
            done: true,
        }
    } else {
        Stop {
            next: 0,
            done: false,
        }
    }
}

/// T where twins of a place that is dropped stand after it, before the given end.
#[inline(always)]
fn pass(letters: &mut Vec<u8>, j: u32, end: u32)
    requires room { length letters.old.items < vec_capacity letters.old }
    requires end { j < end }
    ensures letters { letters.new.items ≡ letters.old.items
        ++ letters_of (if nat_lt (j + 1) end then Pass ∷ [] else []) }
    ensures few { length letters.new.items ≤ length letters.old.items + 1 }
    ensures room { vec_capacity letters.old ≤ vec_capacity letters.new }
{
    if j + 1 < end {
        put(letters, WideToken::Pass);
    }
}

/// The last chosen place is dropped, and further ones as long as no place is left after their twins. The chosen places
/// are below the given one.
#[inline(never)]
fn leave(prepared: &Prepared, stack: &mut Stack, letters: &mut Vec<u8>, below: u32) -> Stop
    requires within { below ≤ length prepared.now.items }
    requires stack { IsStack prepared.now below stack.old }
    requires room { length letters.old.items + 2 * length stack.old.places.items ≤ vec_capacity letters.old }
    ensures walked { HasWalked prepared.now (leave prepared.now (reverse stack.old.places.items))
        letters.old.items letters.new.items stack.new result }
    ensures room { vec_capacity letters.old ≤ vec_capacity letters.new }
{
    let mut next = below;
    'leaving: while let Some(j) = stack.drop_last(prepared, next) {
        let end = prepared.run_end(j);
        pass(letters, j, end);
        if end < prepared.count() {
            return Stop {
                next: end,
                done: false,
            };
        }
        put(letters, WideToken::Close(WideReason::Ended));
        next = j;
    }
    Stop {
        next: prepared.count(),
        done: true,
    }
}

/// A place is dropped, and its twins are passed; where no place is left, the last chosen one is dropped too.
#[inline(always)]
fn shift(prepared: &Prepared, stack: &mut Stack, letters: &mut Vec<u8>, j: u32) -> Stop
    requires below { j < length prepared.now.items }
    requires stack { IsStack prepared.now j stack.old }
    requires room { length letters.old.items + 2 * (length stack.old.places.items + 1) ≤ vec_capacity letters.old }
    ensures walked { HasWalked prepared.now (shift prepared.now (reverse stack.old.places.items) j)
        letters.old.items letters.new.items stack.new result }
    ensures room { vec_capacity letters.old ≤ vec_capacity letters.new }
{
    let end = prepared.run_end(j);
    pass(letters, j, end);
    if end < prepared.count() {
        return Stop {
            next: end,
            done: false,
        };
    }
    put(letters, WideToken::Close(WideReason::Ended));
    leave(prepared, stack, letters, j)
}

/// The walk goes on with a place, with which the chosen places have these sums; the last place is dropped again.
#[inline(always)]
fn go(prepared: &Prepared, stack: &mut Stack, letters: &mut Vec<u8>, t: u32, sums: &Sums) -> Stop
    requires below { t < length prepared.now.items }
    requires stack { IsStack prepared.now t stack.old }
    requires sums { AreSums prepared.now (with_place stack.old t) sums.now }
    requires room { length letters.old.items + 2 * (length stack.old.places.items + 1) + 1 ≤ vec_capacity letters.old }
    ensures walked { HasWalked prepared.now (going prepared.now (reverse stack.old.places.items) t)
        letters.old.items letters.new.items stack.new result }
    ensures room { vec_capacity letters.old ≤ vec_capacity letters.new }
{
    let next = prepared.behind(t);
    if next < prepared.count() {
        stack.choose(t, sums);
        return Stop { next, done: false };
    }
    put(letters, WideToken::Close(WideReason::Ended));
    shift(prepared, stack, letters, t)
}

/// The branch with a place is closed, and the place is dropped.
#[inline(always)]
fn close(
    prepared: &Prepared,
    stack: &mut Stack,
    letters: &mut Vec<u8>,
    t: u32,
    reason: WideReason,
) -> Stop
    requires below { t < length prepared.now.items }
    requires stack { IsStack prepared.now t stack.old }
    requires room { length letters.old.items + 2 * (length stack.old.places.items + 1) + 1 ≤ vec_capacity letters.old }
    ensures walked { HasWalked prepared.now
        (writes (Close reason) (shift prepared.now (reverse stack.old.places.items) t))
        letters.old.items letters.new.items stack.new result }
    ensures room { vec_capacity letters.old ≤ vec_capacity letters.new }
{
    put(letters, WideToken::Close(reason));
    shift(prepared, stack, letters, t)
}

/// What follows by a rule.
#[inline(always)]
fn follow(
    prepared: &Prepared,
    stack: &mut Stack,
    letters: &mut Vec<u8>,
    t: u32,
    sums: &Sums,
    case: Case,
) -> Stop
    requires below { t < length prepared.now.items }
    requires stack { IsStack prepared.now t stack.old }
    requires sums { AreSums prepared.now (with_place stack.old t) sums.now }
    requires room { length letters.old.items + 2 * (length stack.old.places.items + 1) + 2 ≤ vec_capacity letters.old }
    ensures walked { HasWalked prepared.now (way_of prepared.now (reverse stack.old.places.items) t (rule_of case))
        letters.old.items letters.new.items stack.new result }
    ensures room { vec_capacity letters.old ≤ vec_capacity letters.new }
{
    match case {
        Case::Short => {
            put(letters, WideToken::Close(WideReason::Short));
            put(letters, WideToken::Close(WideReason::Short));
            leave(prepared, stack, letters, t)
        }
        Case::Over => close(prepared, stack, letters, t, WideReason::Over),
        Case::Heavy => close(prepared, stack, letters, t, WideReason::Heavy),
        Case::Wasteful => close(prepared, stack, letters, t, WideReason::Wasteful),
        Case::Hit => {
            put(letters, WideToken::Mark);
            go(prepared, stack, letters, t, sums)
        }
        Case::Goes => go(prepared, stack, letters, t, sums),
    }
}

/// One try: the next place is put after the chosen ones, and the first rule that applies is followed.
#[inline(always)]
pub(crate) fn step(
    prepared: &Prepared,
    best: &mut Best,
    stack: &mut Stack,
    letters: &mut Vec<u8>,
    t: u32,
) -> Stop
    requires below { t < length prepared.now.items }
    requires stack { IsStack prepared.now t stack.old }
    requires best { IsBestSoFar prepared.now best.old }
    requires room { length letters.old.items + 2 * length stack.old.places.items + 5 ≤ vec_capacity letters.old }
    ensures walked { HasWalked prepared.now
        (writes Enter (way_of prepared.now (reverse stack.old.places.items) t
        (rule prepared.now (plain_best best.old) (with_place stack.old t) t)))
        letters.old.items letters.new.items stack.new result }
    ensures best { plain_best best.new ≡ best_of prepared.now (plain_best best.old) (with_place stack.old t)
        (rule prepared.now (plain_best best.old) (with_place stack.old t) t) }
    ensures is { IsBestSoFar prepared.now best.new }
    ensures room { vec_capacity letters.old ≤ vec_capacity letters.new }
{
    let sums = stack.sums_with(prepared, t);
    put(letters, WideToken::Enter);
    match first_case(prepared, best, &sums, t) {
        Case::Hit => {
            improve(best, prepared, stack, t, &sums);
            follow(prepared, stack, letters, t, &sums, Case::Hit)
        }
        case => follow(prepared, stack, letters, t, &sums, case),
    }
}

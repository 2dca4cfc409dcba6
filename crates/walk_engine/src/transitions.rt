//! What a try writes, and where it leads.

ghost use Rattle.std.specs.Prelude.{◌≡◌, ◌+◌, ◌*◌, ◌<◌, ◌≤◌, [], ◌∷◌, ◌++◌, if◌then◌else◌, length, nat_lt, reverse};
ghost use Rattle.std.specs.Vec.{vec_capacity};
ghost use Rattle.pick_problem.specs.Later.{behind_twins, later_value};
ghost use Rattle.pick_problem.specs.Letters.{letters_of};
ghost use Rattle.pick_problem.specs.Pool.{item_at};
ghost use Rattle.pick_problem.specs.Problem.{value_of};
ghost use Rattle.pick_problem.specs.Tokens.{letter_of};
ghost use Rattle.pick_problem.specs.Walk.{GoesOn, best_of, cut, cut_or_shift, is_lightest, leave, rule, shift, start};
ghost use Rattle.pick_problem.specs.Walk.{upward, way_of, worse_way, writes};
ghost use Rattle.pick_problem.specs.declared.token.Reason.TheVariants.{Short};
ghost use Rattle.pick_problem.specs.declared.token.Token.TheVariants.{Close, Enter, Pass};
ghost use Rattle.walk_engine.specs.Best.{IsBestSoFar, plain_best};
ghost use Rattle.walk_engine.specs.Cases.{rule_of};
ghost use Rattle.walk_engine.specs.Skipping.{dropping};
ghost use Rattle.walk_engine.specs.Stack.{IsStack, with_place};
ghost use Rattle.walk_engine.specs.Transitions.{HasWalked};

use crate::best::{Best, improve};
use crate::cases::{Case, first_case};
use crate::prepared::Prepared;
use crate::stack::Stack;
use crate::stop::Stop;
use pick_problem::{Kind, Reason, Token};

/// A token's letter, where there is room for it.
#[inline(always)]
fn put(letters: &mut Vec<u8>, token: Token)
    requires { length letters.old.items < vec_capacity letters.old }
    ensures letters { letters.new.items ≡ letters.old.items ++ letter_of token ∷ [] }
    ensures room { vec_capacity letters.old ≤ vec_capacity letters.new }
{
    letters.push_reserved(token.letter());
}

/// I and the letter of a reason, where there is room for them.
#[inline(always)]
fn note(letters: &mut Vec<u8>, reason: Reason)
    requires { length letters.old.items + 2 ≤ vec_capacity letters.old }
    ensures letters { letters.new.items ≡ letters.old.items ++ letters_of (Enter ∷ Close reason ∷ []) }
    ensures room { vec_capacity letters.old ≤ vec_capacity letters.new }
{
    put(letters, Token::Enter);
    put(letters, Token::Close(reason));
}

/// A place is dropped after I and a reason, and its twins are passed. The place after them is given.
#[inline(always)]
#[tactic(auto, using(crate::proofs::DropLaws::drops_some, crate::proofs::DropLaws::drops_none))]
pub(crate) fn drop_place(prepared: &Prepared, letters: &mut Vec<u8>, t: u32, reason: Reason) -> u32
    requires below { t < length prepared.now.items }
    requires room { length letters.old.items + 3 ≤ vec_capacity letters.old }
    ensures letters { letters.new.items ≡ letters.old.items ++ letters_of (dropping prepared.now t reason) }
    ensures next { result ≡ behind_twins prepared.now (t + 1) }
    ensures behind { t < result }
    ensures room { vec_capacity letters.old ≤ vec_capacity letters.new }
{
    let end = prepared.run_end(t);
    let behind = prepared.behind(t);
    note(letters, reason);
    if behind < end {
        put(letters, Token::Pass);
        return end;
    }
    behind
}

/// Where a walk begins: at the first place, or done at once where the whole pool doesn't reach the least value.
#[tactic(auto, using(crate::proofs::SearchLaws::start_short, crate::proofs::SearchLaws::start_open))]
pub(crate) fn begin(prepared: &Prepared, letters: &mut Vec<u8>) -> Stop
    requires none { letters.old.items ≡ [] }
    requires room { 2 ≤ vec_capacity letters.old }
    ensures next { result.next ≡ (start prepared.now).next }
    ensures done { result.done ≡ (start prepared.now).done }
    ensures letters { letters.new.items ≡ letters_of (start prepared.now).tokens }
    ensures room { 2 ≤ vec_capacity letters.new }
{
    if prepared.later_value(0) < u128::from(prepared.problem().lo()) {
        put(letters, Token::Close(Reason::Short));
        Stop {
            next: prepared.count(),
            done: true,
        }
    } else {
        Stop {
            next: 0,
            done: false,
        }
    }
}

/// T where twins of a place that is dropped stand after it, before the given end.
#[inline(always)]
fn pass(letters: &mut Vec<u8>, j: u32, end: u32)
    requires room { length letters.old.items < vec_capacity letters.old }
    requires end { j < end }
    ensures letters { letters.new.items ≡ letters.old.items
        ++ letters_of (if nat_lt (j + 1) end then Pass ∷ [] else []) }
    ensures few { length letters.new.items ≤ length letters.old.items + 1 }
    ensures room { vec_capacity letters.old ≤ vec_capacity letters.new }
{
    if j + 1 < end {
        put(letters, Token::Pass);
    }
}

/// The last chosen place is dropped, and further ones as long as no place is left after their twins. The chosen places
/// are below the given one.
#[inline(never)]
fn leave(prepared: &Prepared, stack: &mut Stack, letters: &mut Vec<u8>, below: u32) -> Stop
    requires within { below ≤ length prepared.now.items }
    requires stack { IsStack prepared.now below stack.old }
    requires room { length letters.old.items + 2 * length stack.old.places.items ≤ vec_capacity letters.old }
    ensures walked { HasWalked prepared.now (leave prepared.now (reverse stack.old.places.items))
        letters.old.items letters.new.items stack.new result }
    ensures room { vec_capacity letters.old ≤ vec_capacity letters.new }
{
    let mut next = below;
    'leaving: while let Some(j) = stack.drop_last(prepared, next) {
        let end = prepared.run_end(j);
        pass(letters, j, end);
        if end < prepared.count() {
            return Stop {
                next: end,
                done: false,
            };
        }
        put(letters, Token::Close(Reason::Short));
        next = j;
    }
    Stop {
        next: prepared.count(),
        done: true,
    }
}

/// A place is dropped, and its twins are passed; where no place is left, the last chosen one is dropped too.
#[inline(always)]
fn shift(prepared: &Prepared, stack: &mut Stack, letters: &mut Vec<u8>, j: u32) -> Stop
    requires below { j < length prepared.now.items }
    requires stack { IsStack prepared.now j stack.old }
    requires room { length letters.old.items + 2 * (length stack.old.places.items + 1) ≤ vec_capacity letters.old }
    ensures walked { HasWalked prepared.now (shift prepared.now (reverse stack.old.places.items) j)
        letters.old.items letters.new.items stack.new result }
    ensures room { vec_capacity letters.old ≤ vec_capacity letters.new }
{
    let end = prepared.run_end(j);
    pass(letters, j, end);
    if end < prepared.count() {
        return Stop {
            next: end,
            done: false,
        };
    }
    put(letters, Token::Close(Reason::Short));
    leave(prepared, stack, letters, j)
}

/// Why the branch without a place is closed: S where what is left doesn't reach the least value, else the given reason.
#[inline(always)]
fn cut_reason(prepared: &Prepared, stack: &Stack, t: u32, reason: Reason) -> Reason
    requires below { t < length prepared.now.items }
    requires stack { IsStack prepared.now t stack.now }
    ensures { result ≡ (if nat_lt (value_of prepared.now (upward (reverse stack.now.places.items))
        + later_value prepared.now (t + 1)) prepared.now.lo
        then Short else reason) }
{
    if prepared.value_behind(t) < u128::from(stack.gap) {
        Reason::Short
    } else {
        reason
    }
}

/// A place is dropped, and the branch without it is closed too: by S where what is left doesn't reach the least value.
#[inline(always)]
fn cut(
    prepared: &Prepared,
    stack: &mut Stack,
    letters: &mut Vec<u8>,
    t: u32,
    reason: Reason,
) -> Stop
    requires below { t < length prepared.now.items }
    requires stack { IsStack prepared.now t stack.old }
    requires room { length letters.old.items + 2 * (length stack.old.places.items + 1) ≤ vec_capacity letters.old }
    ensures walked { HasWalked prepared.now (cut prepared.now (reverse stack.old.places.items) t reason)
        letters.old.items letters.new.items stack.new result }
    ensures room { vec_capacity letters.old ≤ vec_capacity letters.new }
{
    let closed = cut_reason(prepared, stack, t, reason);
    put(letters, Token::Close(closed));
    leave(prepared, stack, letters, t)
}

/// Whether a place is the last, or weighs at most as much as any later one.
#[inline(always)]
#[tactic(auto, using(crate::proofs::WayLaws::lightest_last, crate::proofs::WayLaws::lightest_some))]
pub(crate) fn is_lightest(prepared: &Prepared, t: u32) -> bool
    requires { t < length prepared.now.items }
    ensures { result ≡ is_lightest prepared.now t }
{
    prepared.item(t).weight <= prepared.weight_behind(t)
}

/// A place is dropped; where it is the lightest one left, the branch without it is closed too.
#[inline(always)]
fn cut_or_shift(
    prepared: &Prepared,
    stack: &mut Stack,
    letters: &mut Vec<u8>,
    t: u32,
    reason: Reason,
) -> Stop
    requires below { t < length prepared.now.items }
    requires stack { IsStack prepared.now t stack.old }
    requires room { length letters.old.items + 2 * (length stack.old.places.items + 1) ≤ vec_capacity letters.old }
    ensures walked { HasWalked prepared.now (cut_or_shift prepared.now (reverse stack.old.places.items) t reason)
        letters.old.items letters.new.items stack.new result }
    ensures room { vec_capacity letters.old ≤ vec_capacity letters.new }
{
    if is_lightest(prepared, t) {
        cut(prepared, stack, letters, t, reason)
    } else {
        shift(prepared, stack, letters, t)
    }
}

/// What follows where a place is no better than the best.
#[inline(always)]
fn close_worse(prepared: &Prepared, stack: &mut Stack, letters: &mut Vec<u8>, t: u32) -> Stop
    requires below { t < length prepared.now.items }
    requires stack { IsStack prepared.now t stack.old }
    requires room { length letters.old.items + 2 * (length stack.old.places.items + 1) + 1 ≤ vec_capacity letters.old }
    ensures walked { HasWalked prepared.now
        (worse_way prepared.now.kind prepared.now (reverse stack.old.places.items) t)
        letters.old.items letters.new.items stack.new result }
    ensures room { vec_capacity letters.old ≤ vec_capacity letters.new }
{
    match prepared.kind() {
        Kind::Changeless => {
            put(letters, Token::Close(Reason::Worse));
            shift(prepared, stack, letters, t)
        }
        Kind::Lean => {
            put(letters, Token::Close(Reason::Heavier));
            cut_or_shift(prepared, stack, letters, t, Reason::Far)
        }
    }
}

/// What follows by a rule.
#[inline(always)]
fn follow(prepared: &Prepared, stack: &mut Stack, letters: &mut Vec<u8>, t: u32, case: Case) -> Stop
    requires below { t < length prepared.now.items }
    requires stack { IsStack prepared.now t stack.old }
    requires goes { rule_of case ≡ GoesOn → (item_at prepared.now.items t).value ≤ stack.old.gap }
    requires room { length letters.old.items + 2 * (length stack.old.places.items + 1) + 1 ≤ vec_capacity letters.old }
    ensures walked { HasWalked prepared.now (way_of prepared.now (reverse stack.old.places.items) t (rule_of case))
        letters.old.items letters.new.items stack.new result }
    ensures room { vec_capacity letters.old ≤ vec_capacity letters.new }
{
    match case {
        Case::Short => {
            put(letters, Token::Close(Reason::Short));
            cut(prepared, stack, letters, t, Reason::Short)
        }
        Case::Over => {
            put(letters, Token::Close(Reason::Over));
            shift(prepared, stack, letters, t)
        }
        Case::Heavy => {
            put(letters, Token::Close(Reason::Heavy));
            cut_or_shift(prepared, stack, letters, t, Reason::NoRoom)
        }
        Case::Worse => close_worse(prepared, stack, letters, t),
        Case::Hit => {
            put(letters, Token::Close(Reason::Hit));
            shift(prepared, stack, letters, t)
        }
        Case::Far => {
            put(letters, Token::Close(Reason::Far));
            cut_or_shift(prepared, stack, letters, t, Reason::Far)
        }
        Case::Goes => {
            stack.choose(prepared, t);
            Stop {
                next: prepared.behind(t),
                done: false,
            }
        }
    }
}

/// One try: the next place is put after the chosen ones, and the first rule that applies is followed.
#[inline(always)]
pub(crate) fn step(
    prepared: &Prepared,
    best: &mut Best,
    stack: &mut Stack,
    letters: &mut Vec<u8>,
    t: u32,
) -> Stop
    requires below { t < length prepared.now.items }
    requires stack { IsStack prepared.now t stack.old }
    requires best { IsBestSoFar prepared.now best.old }
    requires room { length letters.old.items + 2 * length stack.old.places.items + 4 ≤ vec_capacity letters.old }
    ensures walked { HasWalked prepared.now
        (writes Enter (way_of prepared.now (reverse stack.old.places.items) t
        (rule prepared.now (plain_best best.old) (with_place stack.old t) t)))
        letters.old.items letters.new.items stack.new result }
    ensures best { plain_best best.new ≡ best_of prepared.now (plain_best best.old) (with_place stack.old t)
        (rule prepared.now (plain_best best.old) (with_place stack.old t) t) }
    ensures sums { IsBestSoFar prepared.now best.new }
    ensures room { vec_capacity letters.old ≤ vec_capacity letters.new }
{
    put(letters, Token::Enter);
    match first_case(prepared, best, stack, t) {
        Case::Hit => {
            improve(best, prepared, stack, t);
            follow(prepared, stack, letters, t, Case::Hit)
        }
        case => follow(prepared, stack, letters, t, case),
    }
}

//! Reading the path of a key.

ghost use Rattle.std.specs.Prelude.{◌≡◌, ◌<◌, ◌≤◌, [], IfOk, IfSome, IsTrue, length, option_map};
ghost use Rattle.json_fields.specs.Tree.{view};
ghost use Rattle.fund_base.specs.Parsing.{YieldsAll};
ghost use Rattle.json_fields.specs.declared.fault.FieldFault.TheVariants.{Memory as NoMemory};
ghost use Rattle.keys_text.specs.KeysText.{path_at};
ghost use Rattle.keys_text.specs.Paths.{few_steps, is_marked, path_in, step_in, step_number, steps_behind, steps_from};

use fund_base::{Memory, read_decimal};
use json::Value;
use json_fields::{FieldFault, text_of};
use std::alloc::Global;

/// The greatest number of a step.
const MOST_NUMBER: u64 = 2_147_483_647;

/// What the index of a hardened step has above its number.
const HARDENED: u32 = 2_147_483_648;

/// The most steps that lead to a key: its depth is one byte.
const MOST_STEPS: usize = 255;

/// Whether the last letter is the mark of a hardened step.
fn is_marked(text: &[u8]) -> bool
    ensures value { result ≡ is_marked text.now }
    ensures some { IsTrue result → 1 ≤ length text.now }
{
    match text.last() {
        Some(letter) => *letter == b'h' || *letter == b'\'',
        None => false,
    }
}

/// The number that a step's digits spell.
fn step_number(digits: &[u8]) -> Option<u32>
    ensures value { result ≡ step_number digits.now }
    ensures most { IfSome result (λ n. n < 2_147_483_648) }
{
    match read_decimal(digits, MOST_NUMBER) {
        Some(number) => Some(number as u32),
        None => None,
    }
}

/// The index of a step.
#[tactic(auto, unfolding(crate::specs::Paths::step_in))]
fn step_in(text: &[u8]) -> Option<u32>
    ensures { result ≡ step_in text.now }
{
    if !is_marked(text) {
        return step_number(text);
    }
    let (digits, _) = text.split_at(text.len() - 1);
    match step_number(digits) {
        Some(number) => Some(number + HARDENED),
        None => None,
    }
}

/// The indices of the steps of a text that is cut at its slashes, where each is one.
fn steps_in(alloc: Global, text: &[u8]) -> Result<Option<Vec<u32>>, Memory>
    ensures { IfOk result (λ steps. option_map (λ v. v.items) steps ≡ steps_from [] [] text.now) }
{
    let mut steps = Vec::new(alloc);
    let mut start = 0;
    for i in 0..text.len() {
        if text[i] == b'/' {
            match step_in(&text[start..i]) {
                Some(index) => steps.push(index)?,
                None => return Ok(None),
            }
            start = i + 1;
        }
    }
    match step_in(&text[start..]) {
        Some(index) => {
            steps.push(index)?;
            Ok(Some(steps))
        }
        None => Ok(None),
    }
}

/// The steps, where they are at most 255.
fn few_steps(steps: Vec<u32>) -> Option<Vec<u32>>
    ensures { option_map (λ v. v.items) result ≡ few_steps steps.items }
{
    if steps.len() <= MOST_STEPS {
        Some(steps)
    } else {
        None
    }
}

/// The indices of the steps behind the letter m, each behind a slash.
fn steps_behind(alloc: Global, text: &[u8]) -> Result<Option<Vec<u32>>, Memory>
    ensures { IfOk result (λ steps. option_map (λ v. v.items) steps ≡ steps_behind text.now) }
{
    match text.split_first() {
        Some((letter, steps)) => {
            if *letter != b'/' {
                return Ok(None);
            }
            match steps_in(alloc, steps)? {
                Some(steps) => Ok(few_steps(steps)),
                None => Ok(None),
            }
        }
        None => Ok(Some(Vec::new(alloc))),
    }
}

/// The indices of the steps of a path.
#[tactic(auto, unfolding(crate::specs::Paths::path_in))]
fn path_in(alloc: Global, text: &[u8]) -> Result<Option<Vec<u32>>, Memory>
    ensures { IfOk result (λ path. option_map (λ v. v.items) path ≡ path_in text.now) }
{
    match text.split_first() {
        Some((letter, rest)) => {
            if *letter != b'm' {
                return Ok(None);
            }
            let path = steps_behind(alloc, rest)?;
            Ok(path)
        }
        None => Ok(None),
    }
}

/// The path that a string spells.
#[tactic(auto, unfolding(crate::specs::KeysText::path_at))]
pub fn path_of(alloc: Global, value: &Value) -> Result<Vec<u32>, FieldFault>
    ensures { YieldsAll NoMemory (λ path. path.items) result (path_at (view value.now)) }
{
    let text = text_of(value, "path")?;
    match path_in(alloc, text.as_bytes())? {
        Some(path) => Ok(path),
        None => Err(FieldFault::kind("path")),
    }
}

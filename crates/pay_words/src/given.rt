//! The flags that stand among the words.

ghost use Rattle.std.specs.Prelude.{◌≡◌, [], Err, IsOk, None, is_some};
ghost use Rattle.fund_base.specs.Parsing.{YieldsAll};
ghost use Rattle.pay_words.specs.Given.{BeginsWithFlag, begun, ended_by, flags_in, next_of, place_of};
ghost use Rattle.pay_words.specs.declared.fault.WordFault.TheVariants.{Memory as OutOfMemory};

use crate::fault::WordFault;
use crate::flag::{Flag, flag_of, is_same, may_repeat, takes_value};
use std::alloc::Global;

/// A flag that was given.
#[derive(Clone, Copy)]
pub struct Given {
    /// Which flag it is.
    pub flag: Flag,
    /// The place of its value among the words, or of the flag itself where it takes none.
    pub place: usize,
}

/// The place that the first of these tells that is of the flag.
#[tactic(auto, unfolding(crate::specs::Given::place_of))]
pub fn place_of(given: &[Given], flag: Flag) -> Option<usize>
    ensures { result ≡ place_of given.now flag }
{
    for one in given {
        if is_same(one.flag, flag) {
            return Some(one.place);
        }
    }
    None
}

/// Takes a flag: it is given, or it waits for its value. It runs out of memory only where it may be given.
fn begin(given: &mut Vec<Given>, place: usize, flag: Flag) -> Result<Option<Flag>, WordFault>
    ensures gives { YieldsAll OutOfMemory (λ wanted. (given.new.items, wanted)) result (begun given.old.items place flag) }
    ensures short { result ≡ Err OutOfMemory → IsOk (begun given.old.items place flag) }
{
    if !may_repeat(flag) && place_of(given.as_slice(), flag).is_some() {
        return Err(WordFault::Twice(place));
    }
    if takes_value(flag) {
        return Ok(Some(flag));
    }
    given.push(Given { flag, place })?;
    Ok(None)
}

/// Takes the word at this place, the value of the flag that waits for one, or else a flag; and answers the flag that then
/// waits for its value. The word of a flag is no value. It runs out of memory only where the word is taken.
fn take_word(
    given: &mut Vec<Given>,
    wanted: Option<Flag>,
    place: usize,
    word: &str,
) -> Result<Option<Flag>, WordFault>
    ensures gives { YieldsAll OutOfMemory (λ next. (given.new.items, next)) result (next_of given.old.items wanted place word.now) }
    ensures short { result ≡ Err OutOfMemory → IsOk (next_of given.old.items wanted place word.now) }
{
    match wanted {
        Some(flag) => {
            if flag_of(word).is_some() {
                return Err(WordFault::NoValue(flag));
            }
            given.push(Given { flag, place })?;
            Ok(None)
        }
        None => match flag_of(word) {
            Some(flag) => begin(given, place, flag),
            None => Err(WordFault::Unknown(place)),
        },
    }
}

/// The flags, where the words end and this flag waits for its value, if one does. It never runs out of memory.
fn ended(given: Vec<Given>, wanted: Option<Flag>) -> Result<Vec<Given>, WordFault>
    ensures { result ≡ ended_by given wanted }
{
    match wanted {
        None => Ok(given),
        Some(flag) => Err(WordFault::NoValue(flag)),
    }
}

/// The flags that the words give, in their order, or the first fault. It runs out of memory only where the first word is that
/// of a flag.
#[tactic(auto, unfolding(crate::specs::Given::flags_in))]
pub fn flags_in(alloc: Global, words: &[String]) -> Result<Vec<Given>, WordFault>
    ensures gives { YieldsAll OutOfMemory (λ given. given.items) result (flags_in words.now) }
    ensures short { result ≡ Err OutOfMemory → BeginsWithFlag words.now }
{
    let mut given = Vec::new(alloc);
    let mut wanted: Option<Flag> = None;
    for (place, word) in words.iter().enumerate() {
        match take_word(&mut given, wanted, place, word.as_str()) {
            Ok(next) => wanted = next,
            Err(fault) => return Err(fault),
        }
    }
    ended(given, wanted)
}

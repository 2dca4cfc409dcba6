//! An answer handed to the caller, in its buffer.

ghost use Rattle.std.specs.Prelude.{◌≡◌, ◌+◌, ◌++◌, ◌≤◌, ◌<◌, length, take, drop, IsTrue, IsFalse};
ghost use Rattle.ninelace_c.specs.Told.{IsLaid, IsTold, fault_code, no_sizes, parts_in, sizes_of, total};

use crate::sizes::NinelaceSizes;
use fund_calls::{Answer, PackFault};

/// The buffer has no room for the answer.
const SHORT: u8 = 20;

/// There was not enough memory.
const MEMORY: u8 = 7;

/// The bytes that were given as a job are no packed job.
const JOB: u8 = 21;

/// Puts these bytes into the buffer at a place.
fn put_at(into: &mut [u8], at: usize, bytes: &[u8])
    requires { at + length bytes.now ≤ length into.old }
    ensures front { take (at + length bytes.now) into.new ≡ take at into.old ++ bytes.now }
    ensures behind { drop (at + length bytes.now) into.new ≡ drop (at + length bytes.now) into.old }
{
    into[at..at + bytes.len()].copy_from_slice(bytes);
}

/// Puts the parts of an answer into the buffer, if there is room, and tells how long they are. Without room the buffer stays.
fn hand_over(answer: &Answer, into: &mut [u8], sizes: &mut NinelaceSizes) -> bool
    ensures sizes { sizes.new ≡ sizes_of (parts_in answer.now) }
    ensures laid { IsTrue result → IsLaid (parts_in answer.now) into.old into.new }
    ensures kept { IsFalse result → into.new ≡ into.old }
    ensures room { IsFalse result → length into.old < total (sizes_of (parts_in answer.now)) }
{
    let printed = answer.printed.as_slice();
    let log = answer.log.as_slice();
    let job = answer.job.as_slice();
    *sizes = NinelaceSizes {
        printed: printed.len(),
        log: log.len(),
        job: job.len(),
    };
    let room = into.len();
    if printed.len() > room {
        return false;
    }
    let room = room - printed.len();
    if log.len() > room {
        return false;
    }
    if job.len() > room - log.len() {
        return false;
    }
    put_at(into, 0, printed);
    put_at(into, printed.len(), log);
    put_at(into, printed.len() + log.len(), job);
    true
}

/// Tells the caller that there is no answer, and leaves the code of why.
fn tell_none(fault: PackFault, sizes: &mut NinelaceSizes) -> u8
    ensures code { result ≡ fault_code fault }
    ensures sizes { sizes.new ≡ no_sizes }
{
    *sizes = NinelaceSizes {
        printed: 0,
        log: 0,
        job: 0,
    };
    match fault {
        PackFault::Memory => MEMORY,
        _ => JOB,
    }
}

/// Tells the caller what a call came to, and leaves its code.
pub(crate) fn tell(
    called: Result<Answer, PackFault>,
    into: &mut [u8],
    sizes: &mut NinelaceSizes,
) -> u8
    ensures { IsTold called result into.old into.new sizes.new }
{
    match called {
        Ok(answer) => {
            if hand_over(&answer, into, sizes) {
                answer.status.code()
            } else {
                SHORT
            }
        }
        Err(fault) => tell_none(fault, sizes),
    }
}

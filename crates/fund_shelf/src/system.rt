//! What the system answers, as the outside tells it.

ghost use Rattle.std.specs.Prelude.{◌≡◌, ◌≢◌, ◌≤◌, IfOk, OnOk, OnErr, IsErrOf, Err};
ghost use Rattle.fund_shelf.specs.Causes.{Rose, one_more};

use crate::shelf::Fault;
use std::io;

/// An answer of the system, told to whoever asked: what it gave is given, and whatever its error is, it is a failure,
/// which is counted. It is never told as out of memory.
pub(crate) fn told<T: Drop>(answer: io::Result<T>, failures: &mut u64) -> Result<T, Fault>
    // What the system gave is given, and nothing is counted.
    ensures given { IfOk answer (λ given. result ≡ Ok given) }
    ensures uncounted { OnOk answer (failures.new ≡ failures.old) }
    // An error is a failure, and the count is one more.
    ensures failed { OnErr answer (result ≡ Err Fault.Failed) }
    ensures counted { OnErr answer (failures.new ≡ one_more failures.old) }
    // So the count never falls, it stays exactly where something is given, and being out of memory isn't told.
    ensures grows { failures.old ≤ failures.new }
    ensures cause { IsErrOf result Fault.Failed → Rose failures.old failures.new }
    ensures one_more { IsErrOf result Fault.Failed → failures.new ≡ one_more failures.old }
    ensures unfailed { OnOk result (failures.new ≡ failures.old) }
    ensures short { result ≢ Err Fault.Memory }
{
    match answer {
        Ok(given) => Ok(given),
        Err(_) => {
            *failures = failures.saturating_add(1);
            Err(Fault::Failed)
        }
    }
}

//! What the database answers, as a keeper tells it.

ghost use Rattle.std.specs.Prelude.{◌≡◌, ◌≤◌, IsErrOf, OnOk};
ghost use Rattle.fund_shelf.specs.Causes.{Rose, one_more};
ghost use Rattle.keep_sqlite.specs.Reported.{reported_answer};

use fund_outside::KeepFault;
use sqlite::{Error, ErrorCode};

/// An answer of the database, told to whoever asked: what it gave is given, and nothing is counted. That it was out of
/// memory is told as that and not counted; every other error is a failure, and counts once.
pub(crate) fn told<T: Drop>(answer: Result<T, Error>, faults: &mut u64) -> Result<T, KeepFault>
    ensures told { result ≡ reported_answer answer }
    // So the count rises by one at each failure, and at nothing else.
    ensures grows { faults.old ≤ faults.new }
    ensures cause { IsErrOf result KeepFault.Failed → Rose faults.old faults.new }
    ensures counted { IsErrOf result KeepFault.Failed → faults.new ≡ one_more faults.old }
    ensures unfailed { OnOk result (faults.new ≡ faults.old) }
    ensures short { IsErrOf result KeepFault.Memory → faults.new ≡ faults.old }
{
    match answer {
        Ok(given) => Ok(given),
        Err(Error::SqliteFailure(ErrorCode::OutOfMemory)) => Err(KeepFault::Memory),
        Err(_) => {
            *faults = faults.saturating_add(1);
            Err(KeepFault::Failed)
        }
    }
}

//! The standard output.

ghost use Rattle.std.specs.Prelude.{◌≡◌, ◌≢◌, ◌≤◌, [], length, IfOk, OnOk, IsErrOf, Err};
ghost use Rattle.fund_shelf.specs.Causes.{Rose, one_more};

use crate::shelf::Fault;
use crate::sink::Sink;
use crate::system::told;

/// The standard output. It doesn't tell what was written.
#[derive(Drop)]
pub struct StdSink<R: Print + Drop> {
    rt: R,
    faults: u64,
}

impl<R: Print + Drop> StdSink<R> {
    ghost use Rattle.fund_shelf.specs.StdSink.{view_of};

    /// The output that `rt` reaches, without a failure so far.
    pub fn new(rt: R) -> StdSink<R>
        ensures { view_of result ≡ record { written = []; faults = 0; refusals = 0 } }
    {
        StdSink { rt, faults: 0 }
    }
}

impl<R: Print + Drop> Sink for StdSink<R> {
    ghost use Rattle.fund_shelf.specs.StdSink.{view_of};

    ghost tells = { ⊥ };

    ghost view = { view_of };

    fn put(&mut self, bytes: &[u8]) -> Result<usize, Fault>
        ensures bound { IfOk result (λ n. n ≤ length bytes.now) }
        ensures some { IfOk result (λ n. n ≡ 0 → length bytes.now ≡ 0) }
        ensures faults { (view_of self.old).faults ≤ (view_of self.new).faults }
        ensures refusals { (view_of self.new).refusals ≡ (view_of self.old).refusals }
        ensures memory { IsErrOf result Fault.Memory → Rose (view_of self.old).refusals (view_of self.new).refusals }
        ensures cause { IsErrOf result Fault.Failed → Rose (view_of self.old).faults (view_of self.new).faults }
        ensures unfailed { OnOk result ((view_of self.new).faults ≡ (view_of self.old).faults) }
        ensures refused_alone { IsErrOf result Fault.Memory → (view_of self.new).faults ≡ (view_of self.old).faults }

        // Whatever the system's error is, it is told as a failure.
        ensures counted { IsErrOf result Fault.Failed → (view_of self.new).faults ≡ one_more (view_of self.old).faults }
        ensures failed { result ≢ Err Fault.Memory }
    {
        let count = told(self.rt.write_some(bytes), &mut self.faults)?;
        if count == 0 && !bytes.is_empty() {
            self.faults = self.faults.saturating_add(1);
            return Err(Fault::Failed);
        }
        Ok(count)
    }
}

//! Bytes put in memory, where some puts fail.

ghost use Rattle.std.specs.Prelude.{◌≡◌, ◌≤◌, ◌↔◌, ◌++◌, [], length, take, IfOk, OnOk, OnErr, IsErrOf, IsTrue};
ghost use Rattle.fund_shelf.specs.Causes.{Rose, one_more};
ghost use Rattle.fund_shelf.specs.Failures.{is_due, after_call};

use crate::failures::Failures;
use crate::shelf::Fault;
use crate::sink::Sink;
use std::alloc::Global;

/// Bytes put in memory, where failures are told beforehand. It takes a piece whole or not at all.
#[derive(Drop)]
pub struct MemSink {
    written: Vec<u8>,
    puts: Failures,
    faults: u64,
    refusals: u64,
}

impl MemSink {
    ghost use Rattle.fund_shelf.specs.MemSink.{view_of, put_plan};

    /// A sink in which nothing is written. `fails` has the numbers, from 0, of the calls of `put` that
    /// are to fail.
    pub fn new(alloc: Global, fails: Vec<u64>) -> MemSink
        ensures view { view_of result ≡ record { written = []; faults = 0; refusals = 0 } }
        ensures puts { put_plan result ≡ record { numbers = fails.items; next = 0 } }
    {
        MemSink {
            written: Vec::new(alloc),
            puts: Failures::new(fails),
            faults: 0,
            refusals: 0,
        }
    }

    /// What was written.
    pub fn written(&self) -> &[u8]
        ensures { result.now ≡ (view_of self.now).written }
    {
        self.written.as_slice()
    }
}

impl Sink for MemSink {
    ghost use Rattle.fund_shelf.specs.MemSink.{view_of, put_plan};

    ghost tells = { Unit {0} };

    ghost view = { view_of };

    fn put(&mut self, bytes: &[u8]) -> Result<usize, Fault>
        ensures bound { IfOk result (λ n. n ≤ length bytes.now) }
        ensures some { IfOk result (λ n. n ≡ 0 → length bytes.now ≡ 0) }
        ensures wrote { IfOk result (λ n. (view_of self.new).written ≡ (view_of self.old).written ++ take n bytes.now) }
        ensures kept { OnErr result ((view_of self.new).written ≡ (view_of self.old).written) }
        ensures faults { (view_of self.old).faults ≤ (view_of self.new).faults }
        ensures refusals { (view_of self.old).refusals ≤ (view_of self.new).refusals }
        ensures memory { IsErrOf result Fault.Memory → Rose (view_of self.old).refusals (view_of self.new).refusals }
        ensures cause { IsErrOf result Fault.Failed → Rose (view_of self.old).faults (view_of self.new).faults }
        ensures unfailed { OnOk result ((view_of self.new).faults ≡ (view_of self.old).faults) }
        ensures unrefused { OnOk result ((view_of self.new).refusals ≡ (view_of self.old).refusals) }
        ensures failed_alone { IsErrOf result Fault.Failed → (view_of self.new).refusals ≡ (view_of self.old).refusals }
        ensures refused_alone { IsErrOf result Fault.Memory → (view_of self.new).faults ≡ (view_of self.old).faults }

        ensures counted { IsErrOf result Fault.Failed → (view_of self.new).faults ≡ one_more (view_of self.old).faults }
        ensures counted_short { IsErrOf result Fault.Memory → (view_of self.new).refusals ≡ one_more (view_of self.old).refusals }
        ensures failed { IsErrOf result Fault.Failed ↔ IsTrue (is_due (put_plan self.old)) }
        ensures whole { IfOk result (λ n. n ≡ length bytes.now) }
        ensures plan { put_plan self.new ≡ after_call (put_plan self.old) }
    {
        if self.puts.strike() {
            self.faults = self.faults.saturating_add(1);
            return Err(Fault::Failed);
        }
        if self.written.extend_from_slice(bytes).is_err() {
            self.refusals = self.refusals.saturating_add(1);
            return Err(Fault::Memory);
        }
        Ok(bytes.len())
    }
}

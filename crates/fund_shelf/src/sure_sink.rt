//! Bytes put in memory without a failure.

ghost use Rattle.std.specs.Prelude.{◌≡◌, []};

use crate::shelf::Fault;
use crate::sink::Sink;
use std::alloc::Global;

/// Bytes put in memory. It never fails, and its count of failures is always 0; memory may be short.
#[derive(Drop)]
pub struct SureSink {
    written: Vec<u8>,
    refusals: u64,
}

impl SureSink {
    ghost use Rattle.fund_shelf.specs.SureSink.{view_of};

    /// A sink in which nothing is written.
    pub fn new(alloc: Global) -> SureSink
        ensures { view_of result ≡ record { written = []; faults = 0; refusals = 0 } }
    {
        SureSink {
            written: Vec::new(alloc),
            refusals: 0,
        }
    }

    /// What was written.
    pub fn written(&self) -> &[u8]
        ensures { result.now ≡ (view_of self.now).written }
    {
        self.written.as_slice()
    }
}

impl Sink for SureSink {
    ghost use Rattle.fund_shelf.specs.SureSink.{view_of};

    ghost tells = { Unit {0} };

    ghost view = { view_of };

    fn put(&mut self, bytes: &[u8]) -> Result<usize, Fault> {
        if self.written.extend_from_slice(bytes).is_err() {
            self.refusals = self.refusals.saturating_add(1);
            return Err(Fault::Memory);
        }
        Ok(bytes.len())
    }
}

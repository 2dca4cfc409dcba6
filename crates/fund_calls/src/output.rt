//! What a command prints, in memory.

ghost use Rattle.std.specs.Prelude.{◌≡◌, ◌==◌};
ghost use Rattle.fund_calls.specs.Given.{empty_sink};
ghost use Rattle.fund_calls.specs.Output.{view_of};

use fund_shelf::{Fault, Sink};
use std::alloc::Global;

/// Bytes put in memory. It never fails, but memory may be short; it tells whether it ever was.
#[derive(Drop)]
pub(crate) struct Output {
    written: Vec<u8>,
    refusals: u64,
}

impl Output {
    /// An output to which nothing was put.
    pub(crate) fn new(alloc: Global) -> Output
        ensures { view_of result ≡ empty_sink }
    {
        Output {
            written: Vec::new(alloc),
            refusals: 0,
        }
    }

    /// Whether memory sufficed for all that was put.
    pub(crate) fn took_all(&self) -> bool
        ensures { result ≡ ((view_of self.now).refusals == 0) }
    {
        self.refusals == 0
    }

    /// What was put.
    pub(crate) fn written(&self) -> &[u8]
        ensures { result.now ≡ (view_of self.now).written }
    {
        self.written.as_slice()
    }
}

impl Sink for Output {
    ghost tells = { Unit {0} };

    ghost view = { view_of };

    fn put(&mut self, bytes: &[u8]) -> Result<usize, Fault> {
        if self.written.extend_from_slice(bytes).is_err() {
            self.refusals = self.refusals.saturating_add(1);
            return Err(Fault::Memory);
        }
        Ok(bytes.len())
    }
}

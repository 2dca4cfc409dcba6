//! A writer that keeps the bytes behind a place.

ghost use Rattle.std.specs.Prelude.{◌≡◌, ◌∷◌, []};
ghost use Rattle.closing_log.specs.Behind.{KeepsBehind};

use fund_base::Writer;
use std::alloc::AllocError;

/// Keeps the bytes that it takes but for the first ones.
#[derive(Drop)]
pub(crate) struct Behind {
    /// How many bytes it still passes over.
    left: u64,
    bytes: Vec<u8>,
}

impl Behind {
    /// A writer that passes over `from` bytes and keeps the others in `bytes`, which is empty.
    pub(crate) fn new(bytes: Vec<u8>, from: u64) -> Behind
        ensures { bytes.items ≡ [] → KeepsBehind result.bytes.items result.left (from ∷ []) }
    {
        Behind { left: from, bytes }
    }

    /// The bytes that it kept.
    pub(crate) fn into_bytes(self) -> Vec<u8>
        ensures { result.items ≡ self.bytes.items }
    {
        self.bytes
    }
}

/// The error is out of memory.
impl Writer for Behind {
    type Error = AllocError;

    ghost use Rattle.closing_log.specs.Behind.{KeepsBehind};

    ghost holds = { λ w m. KeepsBehind w.bytes.items w.left m };

    fn write_bytes(&mut self, bytes: &[u8]) -> Result<(), AllocError> {
        let pass = self.left.min(bytes.len() as u64);
        let (_, kept) = bytes.split_at(pass as usize);
        self.bytes.extend_from_slice(kept)?;
        self.left -= pass;
        Ok(())
    }
}

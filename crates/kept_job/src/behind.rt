//! What is kept of a log already.

ghost use Rattle.std.specs.Prelude.{◌≡◌, ◌++◌, [], IfOk, length};
ghost use Rattle.sha2.specs.Hashers.{Holds256};
ghost use Rattle.sha2.specs.Sha256.{sha256};

use fund_base::Memory;
use sha2::{Digest, Sha256};
use std::alloc::Global;
use std::marker::Model;
use std::snapshot::Snapshot;

/// What is kept of a log already: its first bytes, in so many parts. Of the bytes it has their number and the state of their
/// digest, so that they aren't read again when a part is put behind them. It is seen as the number of the parts, and the
/// bytes that they make joined.
pub struct Behind {
    parts: u32,
    byte_count: u64,
    hasher: Sha256,
    // the bytes take no memory
    bytes: Snapshot<Vec<u8>>,
}

/// One call, wherever it is dropped.
impl Drop for Behind {
    fn drop(self) {
        let Behind {
            parts: _,
            byte_count: _,
            hasher: _,
            bytes: _,
        } = self;
    }
}

impl Model for Behind {
    ghost use Rattle.std.specs.Prelude.{◌≡◌, length};
    ghost use Rattle.sha2.specs.Hashers.{Holds256};
    ghost use Rattle.kept_job.specs.Saving.{PlainBehind};

    ghost Value = { PlainBehind };

    ghost view = { λ b. record { parts = b.parts; bytes = b.bytes.value.items } };

    ghost invariant = { λ b. (b.byte_count ≡ length b.bytes.value.items) × Holds256 b.hasher b.bytes.value.items };
}

impl Behind {
    /// Nothing, as of a plan that is saved for the first time.
    pub fn nothing(alloc: Global) -> Behind
        ensures { result ≡ record { parts = 0; bytes = [] } }
    {
        let bytes: Vec<u8> = Vec::new(alloc);
        Behind {
            parts: 0,
            byte_count: 0,
            hasher: Sha256::new(),
            bytes: Snapshot::of(&bytes),
        }
    }

    /// So many parts, of which these are the bytes, with the state of their digest.
    pub(crate) fn of(parts: u32, bytes: Vec<u8>, hasher: Sha256) -> Behind
        requires { Holds256 hasher bytes.items }
        ensures { result ≡ record { parts = parts; bytes = bytes.items } }
    {
        Behind {
            parts,
            byte_count: bytes.len() as u64,
            hasher,
            bytes: Snapshot::of(&bytes),
        }
    }

    /// How many parts are kept.
    pub(crate) fn parts(&self) -> u32
        ensures { result ≡ self.now.parts }
    {
        self.parts
    }

    /// How many bytes these have together.
    pub(crate) fn byte_count(&self) -> u64
        ensures { result ≡ length self.now.bytes }
    {
        self.byte_count
    }

    /// The SHA-256 of the bytes with a part behind them. The error is out of memory.
    pub(crate) fn digest_with(&self, part: &[u8]) -> Result<[u8; 32], Memory>
        ensures { IfOk result (λ digest. digest ≡ sha256 (self.now.bytes ++ part.now)) }
    {
        let mut hasher = self.hasher.clone()?;
        hasher.update(part);
        Ok(hasher.finalize())
    }
}

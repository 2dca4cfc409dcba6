//! A writer that digests what it takes.

ghost use Rattle.std.specs.Prelude.{◌≡◌, List, [], ℕ};
ghost use Rattle.sha2.specs.Hashers.{Holds256};
ghost use Rattle.sha2.specs.Sha256.{sha256};

use fund_base::Writer;
use sha2::{Digest, Sha256};
use std::convert::Infallible;

/// Digests the bytes that it takes.
#[derive(Drop)]
pub(crate) struct Digesting {
    digest: Sha256,
}

impl Digesting {
    /// No bytes yet.
    pub(crate) fn new() -> Digesting
        ensures { Holds256 result.digest [] }
    {
        Digesting {
            digest: Sha256::new(),
        }
    }

    /// The SHA-256 of the bytes.
    pub(crate) fn finish(self) -> [u8; 32]
        ensures { (m : List ℕ) → Holds256 self.digest m → result ≡ sha256 m }
    {
        self.digest.finalize()
    }
}

impl Writer for Digesting {
    type Error = Infallible;

    ghost holds = { λ s m. Holds256 s.digest m };

    fn write_bytes(&mut self, bytes: &[u8]) -> Result<(), Infallible> {
        self.digest.update(bytes);
        Ok(())
    }
}

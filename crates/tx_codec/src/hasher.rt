//! The digest that names a transaction.

ghost use Rattle.std.specs.Prelude.{◌≡◌, ◌++◌, List, [], ℕ};
ghost use Rattle.sha2.specs.Hashers.{Holds256};
ghost use Rattle.sha2.specs.Sha256.{sha256};

use fund_base::{Txid, Writer};
use sha2::{Digest, Sha256};
use std::convert::Infallible;

/// Digests the bytes that it takes.
#[derive(Drop)]
pub struct Hasher {
    digest: Sha256,
}

impl Hasher {
    /// No bytes yet.
    pub fn new() -> Hasher
        ensures { Holds256 result.digest [] }
    {
        Hasher {
            digest: Sha256::new(),
        }
    }

    /// Takes bytes.
    pub fn update(&mut self, bytes: &[u8])
        ensures { (m : List ℕ) → Holds256 self.old.digest m → Holds256 self.new.digest (m ++ bytes.now) }
    {
        self.digest.update(bytes);
    }

    /// The double SHA-256 of the bytes.
    pub fn txid(self) -> Txid
        ensures { (m : List ℕ) → Holds256 self.digest m → result ≡ sha256 (sha256 m) }
    {
        Txid(Sha256::digest(self.digest.finalize()))
    }
}

/// The txid of a transaction whose form without marker, flag and witnesses is these three parts, one after the other.
pub fn txid_of_parts(version: &[u8], body: &[u8], locktime: &[u8]) -> Txid
    ensures { result ≡ sha256 (sha256 (version.now ++ (body.now ++ locktime.now))) }
{
    let mut hasher = Hasher::new();
    hasher.update(version);
    hasher.update(body);
    hasher.update(locktime);
    hasher.txid()
}

impl Writer for Hasher {
    type Error = Infallible;

    ghost holds = { λ s m. Holds256 s.digest m };

    fn write_bytes(&mut self, bytes: &[u8]) -> Result<(), Infallible> {
        self.digest.update(bytes);
        Ok(())
    }
}

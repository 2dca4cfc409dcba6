//! The digest that names a job by its files.

ghost use Rattle.std.specs.Prelude.{◌≡◌};
ghost use Rattle.kept_job.specs.Digest.{digest_by};

use sha2::{Digest, Sha256};

/// The digest of a job, by those of its wallet file, its block file and its request file: the SHA-256 of the 96 bytes that
/// these make in this order.
pub fn job_digest(wallet: &[u8; 32], blocks: &[u8; 32], request: &[u8; 32]) -> [u8; 32]
    ensures { result ≡ digest_by wallet.now blocks.now request.now }
{
    let mut hasher = Sha256::new();
    hasher.update(wallet);
    hasher.update(blocks);
    hasher.update(request);
    hasher.finalize()
}

//! The Merkle tree of a block, level by level.

ghost use Rattle.std.specs.Prelude.{◌≡◌, ◌∷◌, IfOk};
ghost use Rattle.block_feed.specs.Merkle.{hash_above, level_above, has_twins, first_hash, merkle_root, is_mutated};

use sha2::{Digest, Sha256};
use std::alloc::{AllocError, Global};

/// What the Merkle tree of some hashes says.
#[derive(Drop)]
pub struct Tree {
    /// Its root, and 32 zero bytes where there are no hashes.
    pub root: [u8; 32],
    /// Whether some level of two or more hashes has equal hashes at an even place and the next.
    pub mutated: bool,
}

#[tactic(auto, unfolding(crate::specs::Merkle::hash_above))]
fn hash_above(left: &[u8; 32], right: &[u8; 32]) -> [u8; 32]
    ensures { result ≡ hash_above left.now right.now }
{
    let mut digest = Sha256::new();
    digest.update(*left);
    digest.update(*right);
    Sha256::digest(digest.finalize())
}

fn level_above(alloc: Global, level: &[[u8; 32]]) -> Result<Vec<[u8; 32]>, AllocError>
    ensures { IfOk result (λ above. above.items ≡ level_above level.now) }
{
    let mut above = Vec::new(alloc);
    let mut rest = level;
    'pairing: while let [left, after @ ..] = rest {
        let right = after.first().unwrap_or(left);
        above.push(hash_above(left, right))?;
        rest = after.get(1..).unwrap_or(&[]);
    }
    Ok(above)
}

fn has_twins(level: &[[u8; 32]]) -> bool
    ensures { result ≡ has_twins level.now }
{
    let mut rest = level;
    'comparing: while let [left, right, after @ ..] = rest {
        if left == right {
            return true;
        }
        rest = after;
    }
    false
}

fn first_hash(level: &[[u8; 32]]) -> [u8; 32]
    ensures { result ≡ first_hash level.now }
{
    match level {
        [first, ..] => *first,
        [] => [0; 32],
    }
}

/// The Merkle root of hashes, and whether their tree is mutated. The error is out of memory.
#[tactic(auto, using(crate::proofs::Trees::same_none, crate::proofs::Trees::same_more, crate::proofs::Trees::same_all, crate::proofs::Trees::shorter))]
pub fn tree_of(alloc: Global, hashes: Vec<[u8; 32]>) -> Result<Tree, AllocError>
    ensures root { IfOk result (λ m. m.root ≡ merkle_root hashes.items) }
    ensures mutated { IfOk result (λ m. m.mutated ≡ is_mutated hashes.items) }
{
    let mut level = hashes;
    let mut mutated = false;
    'rising: while level.len() > 1 {
        mutated |= has_twins(&level);
        level = level_above(alloc, &level)?;
    }
    Ok(Tree {
        root: first_hash(&level),
        mutated,
    })
}

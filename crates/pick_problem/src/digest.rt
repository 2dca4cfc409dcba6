//! The digest that names a problem.

ghost use Rattle.std.specs.Prelude.{◌≡◌};
ghost use Rattle.sha2.specs.Hashers.{Holds256};
ghost use Rattle.fund_base.specs.Writer.{Feeds};
ghost use Rattle.pick_problem.specs.Digest.{digest_of, head_bytes, item_bytes, kind_byte};

use crate::item::{Item, Kind};
use crate::problem::Problem;
use sha2::{Digest, Sha256};

/// The byte that stands for a kind.
fn kind_byte(kind: Kind) -> u8
    ensures { result ≡ kind_byte kind }
{
    match kind {
        Kind::Changeless => 0,
        Kind::Lean => 1,
    }
}

#[tactic(auto, unfolding(crate::specs::Digest::item_bytes))]
fn put_item(hasher: &mut Sha256, item: &Item)
    ensures { Feeds Holds256 hasher.old hasher.new (item_bytes item.now) }
{
    hasher.update(item.value.to_le_bytes());
    hasher.update(item.weight.to_le_bytes());
    hasher.update(item.cost.to_le_bytes());
}

impl Problem {
    /// A digest that has taken all but the items.
    #[tactic(auto, unfolding(crate::specs::Digest::head_bytes))]
    fn begun(&self) -> Sha256
        ensures { Holds256 result (head_bytes self.now) }
    {
        let mut hasher = Sha256::new();
        hasher.update([kind_byte(self.kind())]);
        hasher.update(self.lo().to_le_bytes());
        hasher.update(self.hi().to_le_bytes());
        hasher.update(self.most_weight().to_le_bytes());
        hasher.update(self.count().to_le_bytes());
        hasher
    }

    /// The SHA-256 of all that makes the problem: one byte for the kind, 0 for [`Kind::Changeless`] and 1 for
    /// [`Kind::Lean`]; `lo`, `hi` and the greatest weight, 8 bytes each; the number of items, 4 bytes; and for each
    /// item its value, weight and cost, 8 bytes each, the cost in two's complement. Low bytes come first.
    pub fn digest(&self) -> [u8; 32]
        ensures { result ≡ digest_of self.now }
    {
        let mut hasher = self.begun();
        for item in self.items() {
            put_item(&mut hasher, item);
        }
        hasher.finalize()
    }
}

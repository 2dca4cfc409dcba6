//! The byte strings that came before, asked in time that doesn't grow with their number.

ghost use Rattle.std.specs.Prelude.{◌≡◌, ◌++◌, [], ◌∷◌, not, false, if◌then◌else◌, IfOk, OnErr, OnOk};
ghost use Rattle.json_fields.specs.Fields.{is_among};

use fund_base::Memory;
use indexmap::IndexSet;
use std::alloc::Global;
use std::marker::Model;

/// Byte strings, each once, in the order in which they came.
pub struct Seen {
    strings: IndexSet<Vec<u8>>,
}

impl Drop for Seen {
    fn drop(self) {
        let Seen { strings: _ } = self;
    }
}

impl Model for Seen {
    ghost use Rattle.std.specs.Prelude.{List, ℕ};
    ghost use Rattle.tx_codec.specs.Stack.{lists};

    ghost Value = { List (List ℕ) };

    ghost view = { λ s. lists s.strings.keys };
}

impl Seen {
    /// None yet.
    pub fn new(alloc: Global) -> Seen
        ensures { result ≡ [] }
    {
        Seen {
            strings: IndexSet::new(alloc),
        }
    }

    /// Takes one that didn't come before, and says whether it did so. It runs out of memory only for one that didn't come
    /// before.
    pub fn insert(&mut self, string: Vec<u8>) -> Result<bool, Memory>
        ensures fresh { IfOk result (λ r. r ≡ not (is_among self.old string.items)) }
        ensures strings { OnOk result (self.new ≡ (if is_among self.old string.items then self.old else self.old ++ string.items ∷ [])) }
        ensures absent { OnErr result (is_among self.old string.items ≡ false) }
    {
        Ok(self.strings.insert(string)?)
    }
}

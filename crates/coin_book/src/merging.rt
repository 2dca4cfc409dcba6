//! Ledgers put together: all of it, or nothing.

ghost use Rattle.std.specs.Prelude.{◌≡◌, ◌++◌, OnErr, OnOk, bytes_eq};
ghost use Rattle.std.specs.List.{IsDistinct};
ghost use Rattle.std.specs.Map.{keys_of};
ghost use Rattle.indexmap.specs.IndexMap.{insert_all};
ghost use Rattle.fund_base.specs.Outpoints.{same_outpoint};
ghost use Rattle.fund_base.specs.declared.outpoint.OutPoint.{OutPoint};
ghost use Rattle.coin_book.specs.Places.{spends_in};

use crate::ledger::Ledger;
use fund_base::Memory;
use std::alloc::Global;

impl Ledger {
    /// Puts what the other ledger holds after what this one does. When out of memory, this one stays as it was.
    pub fn append(&mut self, alloc: Global, mut more: Ledger) -> Result<(), Memory>
        ensures coins { OnOk result (self.new.coins.entries ≡ insert_all same_outpoint self.old.coins.entries more.coins.entries) }
        ensures heights { OnOk result (self.new.heights.entries ≡ insert_all bytes_eq self.old.heights.entries more.heights.entries) }
        ensures spends { (o : OutPoint) → OnOk result (spends_in self.new.spends o ≡ spends_in self.old.spends o ++ spends_in more.spends o) }
        ensures heights_apart { IsDistinct bytes_eq (keys_of more.heights.entries) }
        ensures kept_coins { OnErr result (self.new.coins.entries ≡ self.old.coins.entries) }
        ensures kept_heights { OnErr result (self.new.heights.entries ≡ self.old.heights.entries) }
        ensures kept_spends { (o : OutPoint) → OnErr result (spends_in self.new.spends o ≡ spends_in self.old.spends o) }
    {
        self.coins.reserve(more.coins.len())?;
        self.heights.reserve(more.heights.len())?;
        self.spends.append(alloc, &more.spends)?;
        // there is room for these two
        let _ = self.coins.append(&mut more.coins);
        let _ = self.heights.append(&mut more.heights);
        Ok(())
    }
}

//! Files as the tool reads and writes them.

ghost use Rattle.std.specs.Prelude.{◌≡◌, ◌≢◌, ◌≤◌, List, ℕ, [], ◌∷◌, ◌++◌, length, Err, IfOk, OnOk, IsErrOf};
ghost use Rattle.fund_shelf.specs.Causes.{ShelfView, Asks, Rose, NeverFall, IsRead, SameElsewhere};

use std::alloc::AllocError;

/// Why an object of the outside did not do as it was asked.
#[derive(Clone, Copy, PartialEq, Eq)]
pub enum Fault {
    /// It failed, and its count of failures rose in this call.
    Failed,
    /// There was not enough memory. What it holds is as before.
    Memory,
}

impl From<AllocError> for Fault {
    ghost use Rattle.fund_shelf.specs.declared.shelf.Fault.TheVariants.{Memory};

    ghost from_gives = { λ _ fault. fault ≡ Memory };

    fn from(_: AllocError) -> Fault {
        Fault::Memory
    }
}

/// Files by name. It counts for each name how often a read and how often a write failed; at the
/// greatest `u64` a count stays. A call that doesn't fail changes no count. Where it tells its files it also tells the
/// name that each read asked for, in order.
pub trait Shelf {
    /// Whether it tells what its files hold. The clauses on content hold where it does.
    ghost tells: { Type 0 };

    /// What it holds, its counts of failures, and the names that were asked for.
    ghost view: { Self → ShelfView };

    /// Reads bytes of the file `name` from place `at` on to the front of `buf`, and answers how many:
    /// 0 exactly where `buf` is empty or `at` is at the file's end or behind it. What `buf` holds
    /// behind them, and after an error, is open.
    fn read_at(&mut self, name: &str, at: u64, buf: &mut [u8]) -> Result<usize, Fault>
        requires { at ≤ 1073741824 }
        ensures bound { IfOk result (λ n. n ≤ length buf.new) }
        ensures bytes { tells → IfOk result (λ n. IsRead ((view self.old).files name.now) at n buf.new) }
        ensures same { tells → (view self.new).files ≡ (view self.old).files }
        ensures reads { NeverFall (view self.old).reads (view self.new).reads }
        ensures writes { (view self.new).writes ≡ (view self.old).writes }
        ensures cause { IsErrOf result Fault.Failed → Rose ((view self.old).reads name.now) ((view self.new).reads name.now) }
        ensures unfailed { OnOk result ((view self.new).reads ≡ (view self.old).reads) }
        ensures short { IsErrOf result Fault.Memory → (view self.new).reads ≡ (view self.old).reads }

        // It asks for this name alone, and once unless memory is short.
        ensures asked { tells → Asks (name.now ∷ []) (view self.old).asked (view self.new).asked }
        ensures once { tells → result ≢ Err Fault.Memory → (view self.new).asked ≡ (view self.old).asked ++ name.now ∷ [] };

    /// Makes `bytes` the whole content of the file `name`. Where it fails that file's content is open.
    fn write_file(&mut self, name: &str, bytes: &[u8]) -> Result<(), Fault>
        ensures wrote { tells → OnOk result ((view self.new).files name.now ≡ bytes.now) }
        ensures others { tells → SameElsewhere name.now (view self.old).files (view self.new).files }
        ensures memory { tells → IsErrOf result Fault.Memory → (view self.new).files ≡ (view self.old).files }
        ensures reads { (view self.new).reads ≡ (view self.old).reads }
        ensures writes { NeverFall (view self.old).writes (view self.new).writes }
        ensures cause { IsErrOf result Fault.Failed → Rose ((view self.old).writes name.now) ((view self.new).writes name.now) }
        ensures unfailed { OnOk result ((view self.new).writes ≡ (view self.old).writes) }
        ensures short { IsErrOf result Fault.Memory → (view self.new).writes ≡ (view self.old).writes }
        ensures asked { (view self.new).asked ≡ (view self.old).asked };
}

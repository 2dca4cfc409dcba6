//! A place where bytes are put, one piece behind the other.

ghost use Rattle.std.specs.Prelude.{◌≡◌, ◌≤◌, ◌++◌, length, take, IfOk, OnOk, OnErr, IsErrOf};
ghost use Rattle.fund_shelf.specs.Causes.{SinkView, Rose};

use crate::shelf::Fault;

/// A place where bytes are put. It counts how often a put failed, and how often one found no memory;
/// at the greatest `u64` a count stays. A call that answers neither changes no count.
pub trait Sink {
    /// Whether it tells what was written. The clauses on content hold where it does.
    ghost tells: { Type 0 };

    /// What was written, and its counts.
    ghost view: { Self → SinkView };

    /// Appends the first bytes of `bytes`, and answers how many: 0 only where `bytes` is empty. After
    /// an error what was written is as before. To take nothing of a nonempty piece is a failure.
    fn put(&mut self, bytes: &[u8]) -> Result<usize, Fault>
        ensures bound { IfOk result (λ n. n ≤ length bytes.now) }
        ensures some { IfOk result (λ n. n ≡ 0 → length bytes.now ≡ 0) }
        ensures wrote { tells → IfOk result (λ n. (view self.new).written ≡ (view self.old).written ++ take n bytes.now) }
        ensures kept { tells → OnErr result ((view self.new).written ≡ (view self.old).written) }
        ensures faults { (view self.old).faults ≤ (view self.new).faults }
        ensures refusals { (view self.old).refusals ≤ (view self.new).refusals }
        ensures memory { IsErrOf result Fault.Memory → Rose (view self.old).refusals (view self.new).refusals }
        ensures cause { IsErrOf result Fault.Failed → Rose (view self.old).faults (view self.new).faults }
        ensures unfailed { OnOk result ((view self.new).faults ≡ (view self.old).faults) }
        ensures unrefused { OnOk result ((view self.new).refusals ≡ (view self.old).refusals) }
        ensures failed_alone { IsErrOf result Fault.Failed → (view self.new).refusals ≡ (view self.old).refusals }
        ensures refused_alone { IsErrOf result Fault.Memory → (view self.new).faults ≡ (view self.old).faults };
}

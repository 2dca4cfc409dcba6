//! Jobs as the tool keeps them.

ghost use Rattle.std.specs.Prelude.{◌≡◌, ◌≤◌, IfOk, OnOk, OnErr, IsErrOf};
ghost use Rattle.fund_shelf.specs.Causes.{Rose};
ghost use Rattle.fund_outside.specs.Kept.{KeeperView, SameForOthers, after_save, part_in, saved_in, told_bytes};

use std::alloc::AllocError;

/// Why a keeper did not do as it was asked.
#[derive(Clone, Copy, PartialEq, Eq)]
pub enum KeepFault {
    /// It failed, and its count of failures rose in this call.
    Failed,
    /// There was not enough memory.
    Memory,
}

impl From<AllocError> for KeepFault {
    ghost use Rattle.fund_outside.specs.declared.keeper.KeepFault.TheVariants.{Memory};

    ghost from_gives = { λ _ fault. fault ≡ Memory };

    fn from(_: AllocError) -> KeepFault {
        KeepFault::Memory
    }
}

/// Jobs by name, each a saved text and a list of parts, all of them bytes. It counts how often a call failed; at the
/// greatest `u64` the count stays. A call that doesn't fail doesn't change it. After either fault the jobs are as
/// before.
pub trait Keeper {
    /// Whether it tells which jobs it keeps. The clauses on jobs hold where it does.
    ghost tells: { Type 0 };

    /// The jobs that it keeps, and its count of failures.
    ghost view: { Self → KeeperView };

    /// The saved text of the job; `None` exactly where there is no job of this name. The jobs stay.
    fn load(&mut self, job: &str) -> Result<Option<Vec<u8>>, KeepFault>
        ensures saved { tells → IfOk result (λ found. told_bytes found ≡ saved_in ((view self.old).jobs job.now)) }
        ensures same { tells → (view self.new).jobs ≡ (view self.old).jobs }
        ensures faults { (view self.old).faults ≤ (view self.new).faults }
        ensures cause { IsErrOf result KeepFault.Failed → Rose (view self.old).faults (view self.new).faults }
        ensures unfailed { OnOk result ((view self.new).faults ≡ (view self.old).faults) }
        ensures short { IsErrOf result KeepFault.Memory → (view self.new).faults ≡ (view self.old).faults };

    /// The job's part of this number, counted from 0; `None` exactly where there is no such part. The jobs stay.
    fn part(&mut self, job: &str, number: u32) -> Result<Option<Vec<u8>>, KeepFault>
        ensures part { tells → IfOk result (λ found. told_bytes found ≡ part_in ((view self.old).jobs job.now) number) }
        ensures same { tells → (view self.new).jobs ≡ (view self.old).jobs }
        ensures faults { (view self.old).faults ≤ (view self.new).faults }
        ensures cause { IsErrOf result KeepFault.Failed → Rose (view self.old).faults (view self.new).faults }
        ensures unfailed { OnOk result ((view self.new).faults ≡ (view self.old).faults) }
        ensures short { IsErrOf result KeepFault.Memory → (view self.new).faults ≡ (view self.old).faults };

    /// Keeps the first `first` of the job's parts, all where there are fewer, and `part` behind them, and makes
    /// `saved` its saved text. A job of this name that isn't kept yet has no parts. All other jobs stay, and after a
    /// fault this one too.
    fn save(&mut self, job: &str, first: u32, part: &[u8], saved: &[u8]) -> Result<(), KeepFault>
        ensures saved { tells → OnOk result ((view self.new).jobs job.now ≡ after_save ((view self.old).jobs job.now) first part.now saved.now) }
        ensures others { tells → SameForOthers job.now (view self.old).jobs (view self.new).jobs }
        ensures kept { tells → OnErr result ((view self.new).jobs ≡ (view self.old).jobs) }
        ensures faults { (view self.old).faults ≤ (view self.new).faults }
        ensures cause { IsErrOf result KeepFault.Failed → Rose (view self.old).faults (view self.new).faults }
        ensures unfailed { OnOk result ((view self.new).faults ≡ (view self.old).faults) }
        ensures short { IsErrOf result KeepFault.Memory → (view self.new).faults ≡ (view self.old).faults };
}

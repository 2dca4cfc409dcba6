//! Jobs kept in memory without a failure.

ghost use Rattle.std.specs.Prelude.{◌≡◌, ◌≤◌, ◌+◌, is_some, None, IfOk, OnOk, OnErr, IsErrOf, if◌then◌else◌};
ghost use Rattle.fund_shelf.specs.Causes.{Rose};
ghost use Rattle.fund_outside.specs.Kept.{SameForOthers, after_save};

use crate::jobs::{self, Job};
use crate::keeper::{KeepFault, Keeper};
use std::alloc::Global;

/// Jobs kept in memory. It never fails, and its count of failures is always 0; memory may be short. A job that is saved
/// again takes the place of what was kept of it.
#[derive(Drop)]
pub struct SureKeeper {
    alloc: Global,
    jobs: Vec<Job>,
}

impl SureKeeper {
    ghost use Rattle.fund_outside.specs.SureKeeper.{held, view_of};

    /// A keeper of no jobs.
    pub fn new(alloc: Global) -> SureKeeper
        ensures view { view_of result ≡ record { jobs = λ _. None; faults = 0 } }
        ensures held { held result ≡ 0 }
    {
        SureKeeper {
            alloc,
            jobs: Vec::new(alloc),
        }
    }
}

impl Keeper for SureKeeper {
    ghost use Rattle.fund_outside.specs.SureKeeper.{held, view_of};

    ghost tells = { Unit {0} };

    ghost view = { view_of };

    fn load(&mut self, job: &str) -> Result<Option<Vec<u8>>, KeepFault> {
        Ok(jobs::saved(self.alloc, self.jobs.as_slice(), job)?)
    }

    fn part(&mut self, job: &str, number: u32) -> Result<Option<Vec<u8>>, KeepFault> {
        Ok(jobs::part(self.alloc, self.jobs.as_slice(), job, number)?)
    }

    fn save(&mut self, job: &str, first: u32, part: &[u8], saved: &[u8]) -> Result<(), KeepFault>
        ensures saved { OnOk result ((view_of self.new).jobs job.now ≡ after_save ((view_of self.old).jobs job.now) first part.now saved.now) }
        ensures others { SameForOthers job.now (view_of self.old).jobs (view_of self.new).jobs }
        ensures kept { OnErr result ((view_of self.new).jobs ≡ (view_of self.old).jobs) }
        ensures faults { (view_of self.old).faults ≤ (view_of self.new).faults }
        ensures cause { IsErrOf result KeepFault.Failed → Rose (view_of self.old).faults (view_of self.new).faults }
        ensures unfailed { OnOk result ((view_of self.new).faults ≡ (view_of self.old).faults) }
        ensures short { IsErrOf result KeepFault.Memory → (view_of self.new).faults ≡ (view_of self.old).faults }

        // A job that is kept already takes no further room.
        ensures held { OnOk result (held self.new ≡ (if is_some ((view_of self.old).jobs job.now) then held self.old else held self.old + 1)) }
    {
        jobs::save(self.alloc, &mut self.jobs, job, first, part, saved)?;
        Ok(())
    }
}

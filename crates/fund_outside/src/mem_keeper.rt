//! Jobs kept in memory, where some calls fail.

ghost use Rattle.std.specs.Prelude.{◌≡◌, ◌≤◌, ◌+◌, ◌↔◌, is_some, None, IfOk, OnOk, OnErr, IsErrOf, IsTrue, if◌then◌else◌};
ghost use Rattle.fund_shelf.specs.Causes.{Rose, one_more};
ghost use Rattle.fund_shelf.specs.Failures.{is_due, after_call};
ghost use Rattle.fund_outside.specs.Kept.{SameForOthers, after_save, part_in, saved_in, told_bytes};

use crate::jobs::{self, Job};
use crate::keeper::{KeepFault, Keeper};
use fund_shelf::Failures;
use std::alloc::Global;

/// Jobs kept in memory, where failures are told beforehand. A job that is saved again takes the place of what was
/// kept of it.
#[derive(Drop)]
pub struct MemKeeper {
    alloc: Global,
    jobs: Vec<Job>,
    loads: Failures,
    parts: Failures,
    saves: Failures,
    faults: u64,
}

impl MemKeeper {
    ghost use Rattle.fund_outside.specs.MemKeeper.{held, load_plan, part_plan, save_plan, view_of};

    /// A keeper of no jobs. Each list has the numbers, from 0, of the calls of a method that are to fail:
    /// `load_fails` those of `load`, `part_fails` those of `part`, `save_fails` those of `save`.
    pub fn new(
        alloc: Global,
        load_fails: Vec<u64>,
        part_fails: Vec<u64>,
        save_fails: Vec<u64>,
    ) -> MemKeeper
        ensures view { view_of result ≡ record { jobs = λ _. None; faults = 0 } }
        ensures loads { load_plan result ≡ record { numbers = load_fails.items; next = 0 } }
        ensures parts { part_plan result ≡ record { numbers = part_fails.items; next = 0 } }
        ensures saves { save_plan result ≡ record { numbers = save_fails.items; next = 0 } }
        ensures held { held result ≡ 0 }
    {
        MemKeeper {
            alloc,
            jobs: Vec::new(alloc),
            loads: Failures::new(load_fails),
            parts: Failures::new(part_fails),
            saves: Failures::new(save_fails),
            faults: 0,
        }
    }
}

impl Keeper for MemKeeper {
    ghost use Rattle.fund_outside.specs.MemKeeper.{held, load_plan, part_plan, save_plan, view_of};

    ghost tells = { Unit {0} };

    ghost view = { view_of };

    fn load(&mut self, job: &str) -> Result<Option<Vec<u8>>, KeepFault>
        ensures saved { IfOk result (λ found. told_bytes found ≡ saved_in ((view_of self.old).jobs job.now)) }
        ensures same { (view_of self.new).jobs ≡ (view_of self.old).jobs }
        ensures faults { (view_of self.old).faults ≤ (view_of self.new).faults }
        ensures cause { IsErrOf result KeepFault.Failed → Rose (view_of self.old).faults (view_of self.new).faults }
        ensures unfailed { OnOk result ((view_of self.new).faults ≡ (view_of self.old).faults) }
        ensures short { IsErrOf result KeepFault.Memory → (view_of self.new).faults ≡ (view_of self.old).faults }

        ensures counted { IsErrOf result KeepFault.Failed → (view_of self.new).faults ≡ one_more (view_of self.old).faults }
        ensures failed { IsErrOf result KeepFault.Failed ↔ IsTrue (is_due (load_plan self.old)) }
        ensures load_plan { load_plan self.new ≡ after_call (load_plan self.old) }
        ensures part_plan { part_plan self.new ≡ part_plan self.old }
        ensures save_plan { save_plan self.new ≡ save_plan self.old }
    {
        if self.loads.strike() {
            self.faults = self.faults.saturating_add(1);
            return Err(KeepFault::Failed);
        }
        Ok(jobs::saved(self.alloc, self.jobs.as_slice(), job)?)
    }

    fn part(&mut self, job: &str, number: u32) -> Result<Option<Vec<u8>>, KeepFault>
        ensures part { IfOk result (λ found. told_bytes found ≡ part_in ((view_of self.old).jobs job.now) number) }
        ensures same { (view_of self.new).jobs ≡ (view_of self.old).jobs }
        ensures faults { (view_of self.old).faults ≤ (view_of self.new).faults }
        ensures cause { IsErrOf result KeepFault.Failed → Rose (view_of self.old).faults (view_of self.new).faults }
        ensures unfailed { OnOk result ((view_of self.new).faults ≡ (view_of self.old).faults) }
        ensures short { IsErrOf result KeepFault.Memory → (view_of self.new).faults ≡ (view_of self.old).faults }

        ensures counted { IsErrOf result KeepFault.Failed → (view_of self.new).faults ≡ one_more (view_of self.old).faults }
        ensures failed { IsErrOf result KeepFault.Failed ↔ IsTrue (is_due (part_plan self.old)) }
        ensures load_plan { load_plan self.new ≡ load_plan self.old }
        ensures part_plan { part_plan self.new ≡ after_call (part_plan self.old) }
        ensures save_plan { save_plan self.new ≡ save_plan self.old }
    {
        if self.parts.strike() {
            self.faults = self.faults.saturating_add(1);
            return Err(KeepFault::Failed);
        }
        Ok(jobs::part(self.alloc, self.jobs.as_slice(), job, number)?)
    }

    fn save(&mut self, job: &str, first: u32, part: &[u8], saved: &[u8]) -> Result<(), KeepFault>
        ensures saved { OnOk result ((view_of self.new).jobs job.now ≡ after_save ((view_of self.old).jobs job.now) first part.now saved.now) }
        ensures others { SameForOthers job.now (view_of self.old).jobs (view_of self.new).jobs }
        ensures kept { OnErr result ((view_of self.new).jobs ≡ (view_of self.old).jobs) }
        ensures faults { (view_of self.old).faults ≤ (view_of self.new).faults }
        ensures cause { IsErrOf result KeepFault.Failed → Rose (view_of self.old).faults (view_of self.new).faults }
        ensures unfailed { OnOk result ((view_of self.new).faults ≡ (view_of self.old).faults) }
        ensures short { IsErrOf result KeepFault.Memory → (view_of self.new).faults ≡ (view_of self.old).faults }

        ensures counted { IsErrOf result KeepFault.Failed → (view_of self.new).faults ≡ one_more (view_of self.old).faults }
        ensures failed { IsErrOf result KeepFault.Failed ↔ IsTrue (is_due (save_plan self.old)) }
        ensures load_plan { load_plan self.new ≡ load_plan self.old }
        ensures part_plan { part_plan self.new ≡ part_plan self.old }
        ensures save_plan { save_plan self.new ≡ after_call (save_plan self.old) }

        // A job that is kept already takes no further room.
        ensures held { OnOk result (held self.new ≡ (if is_some ((view_of self.old).jobs job.now) then held self.old else held self.old + 1)) }
    {
        if self.saves.strike() {
            self.faults = self.faults.saturating_add(1);
            return Err(KeepFault::Failed);
        }
        jobs::save(self.alloc, &mut self.jobs, job, first, part, saved)?;
        Ok(())
    }
}

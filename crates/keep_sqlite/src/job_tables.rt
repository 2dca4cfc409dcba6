//! Jobs kept in the tables of a database, over any store.

ghost use Rattle.std.specs.Prelude.{◌≡◌, ◌≤◌, [], ◌∷◌, pos, None, Err, IsErrOf, IsTrue, OnErr, OnOk};
ghost use Rattle.fund_shelf.specs.Causes.{Rose, one_more};
ghost use Rattle.sqlite.specs.Held.{state};
ghost use Rattle.sqlite.specs.State.{HasCleanDisk};
ghost use Rattle.sqlite.specs.declared.types.Value.TheVariants.{Int, Text};
ghost use Rattle.keep_sqlite.specs.Saving.{IsAsBefore, Saves};
ghost use Rattle.keep_sqlite.specs.Tables.{Finds, bytes_text, saved_text};
ghost use Rattle.keep_sqlite.specs.Reported.{Reports};

use crate::tables;
use crate::told::told;
use fund_outside::{KeepFault, Keeper};
use sqlite::{Alter, Connection};

/// Jobs kept in the tables `job` and `part` of a database. It tells nothing of which jobs these are. Each call that the
/// database refuses is counted, but for being out of memory; `save` is one transaction, so that after any error, and after
/// a stop at any moment of it, the tables are as before or as after it. A load or a part tells what its query shows:
/// `None` where the tables aren't made or no row is shown, and never in place of an error. That is promised while the
/// disk returns what was written and nothing else writes the database.
#[derive(Drop)]
pub struct JobTables<S: Alter + Drop> {
    connection: Connection<S>,
    faults: u64,
}

impl<S: Alter + Drop> JobTables<S> {
    ghost use Rattle.keep_sqlite.specs.JobTables.{held_by, view_of};

    /// The jobs of an open database, without a failure so far. The tables are made by the first `save`. No clause says
    /// what a call answers over a database of anything else, or what a load or a part does while a transaction is open.
    pub fn adopt(connection: Connection<S>) -> JobTables<S>
        ensures view { view_of result ≡ record { jobs = λ _. None; faults = 0 } }
        ensures held { held_by result ≡ connection }
    {
        JobTables {
            connection,
            faults: 0,
        }
    }

    /// The database again, as the calls left it.
    pub fn into_connection(self) -> Connection<S>
        ensures { result ≡ held_by self }
    {
        let JobTables {
            connection,
            faults: _,
        } = self;
        connection
    }
}

impl<S: Alter + Drop> Keeper for JobTables<S> {
    ghost use Rattle.keep_sqlite.specs.JobTables.{held_by, view_of};

    ghost tells = { ⊥ };

    ghost view = { view_of };

    fn load(&mut self, job: &str) -> Result<Option<Vec<u8>>, KeepFault>
        ensures faults { (view_of self.old).faults ≤ (view_of self.new).faults }
        ensures cause { IsErrOf result KeepFault.Failed → Rose (view_of self.old).faults (view_of self.new).faults }
        ensures unfailed { OnOk result ((view_of self.new).faults ≡ (view_of self.old).faults) }
        ensures short { IsErrOf result KeepFault.Memory → (view_of self.new).faults ≡ (view_of self.old).faults }

        // Whatever the database's error is, it is told once.
        ensures counted { IsErrOf result KeepFault.Failed → (view_of self.new).faults ≡ one_more (view_of self.old).faults }

        // What it tells is what the tables show, where the disk has returned what was written.
        ensures told { HasCleanDisk (state S.Store (held_by self.new)) → Reports (Finds S.Store saved_text (Text job.now ∷ []) (held_by self.old) (held_by self.new)) result }
    {
        told(tables::load(&mut self.connection, job), &mut self.faults)
    }

    fn part(&mut self, job: &str, number: u32) -> Result<Option<Vec<u8>>, KeepFault>
        ensures faults { (view_of self.old).faults ≤ (view_of self.new).faults }
        ensures cause { IsErrOf result KeepFault.Failed → Rose (view_of self.old).faults (view_of self.new).faults }
        ensures unfailed { OnOk result ((view_of self.new).faults ≡ (view_of self.old).faults) }
        ensures short { IsErrOf result KeepFault.Memory → (view_of self.new).faults ≡ (view_of self.old).faults }

        // Whatever the database's error is, it is told once.
        ensures counted { IsErrOf result KeepFault.Failed → (view_of self.new).faults ≡ one_more (view_of self.old).faults }

        // What it tells is what the tables show, where the disk has returned what was written.
        ensures told { HasCleanDisk (state S.Store (held_by self.new)) → Reports (Finds S.Store bytes_text (Text job.now ∷ Int (pos number) ∷ []) (held_by self.old) (held_by self.new)) result }
    {
        told(
            tables::part(&mut self.connection, job, number),
            &mut self.faults,
        )
    }

    fn save(&mut self, job: &str, first: u32, part: &[u8], saved: &[u8]) -> Result<(), KeepFault>
        ensures faults { (view_of self.old).faults ≤ (view_of self.new).faults }
        ensures cause { IsErrOf result KeepFault.Failed → Rose (view_of self.old).faults (view_of self.new).faults }
        ensures unfailed { OnOk result ((view_of self.new).faults ≡ (view_of self.old).faults) }
        ensures short { IsErrOf result KeepFault.Memory → (view_of self.new).faults ≡ (view_of self.old).faults }

        // Whatever the database's error is, it is told once.
        ensures counted { IsErrOf result KeepFault.Failed → (view_of self.new).faults ≡ one_more (view_of self.old).faults }

        // What a save that is done has written and committed, where the disk has returned what was written.
        ensures saved { HasCleanDisk (state S.Store (held_by self.new)) → OnOk result (Saves S.Store job.now first part.now saved.now (held_by self.old) (held_by self.new)) }

        // While a transaction is open it fails, and the database stays as it is.
        ensures open { IsTrue (held_by self.old).in_transaction → (result ≡ Err KeepFault.Failed) × (held_by self.new ≡ held_by self.old) }

        // After an error the database is as before, where the disk has returned what was written.
        ensures neither { HasCleanDisk (state S.Store (held_by self.new)) → IsTrue (state S.Store (held_by self.new)).is_open → OnErr result (IsAsBefore S.Store (held_by self.old) (held_by self.new)) }
    {
        told(
            tables::save(&mut self.connection, job, first, part, saved),
            &mut self.faults,
        )
    }
}

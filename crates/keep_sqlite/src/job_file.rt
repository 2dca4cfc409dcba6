//! Jobs kept in a file of the current folder.

ghost use Rattle.std.specs.Prelude.{◌≡◌, ◌≤◌, [], ◌∷◌, pos, None, IfErr, IfOk, IsErrOf, IsTrue, OnOk};
ghost use Rattle.fund_shelf.specs.Causes.{Rose, one_more};
ghost use Rattle.sqlite.specs.Files.{over_files};
ghost use Rattle.sqlite.specs.Opening.{is_open_error};
ghost use Rattle.sqlite.specs.declared.types.Value.TheVariants.{Int, Text};
ghost use Rattle.keep_sqlite.specs.Calls.{AnswersIn};
ghost use Rattle.keep_sqlite.specs.JobFile.{FindsIn, IsOpened, SavesIn};
ghost use Rattle.keep_sqlite.specs.Tables.{bytes_text, saved_text};
ghost use Rattle.keep_sqlite.specs.Reported.{Reports};

use crate::tables::{self, Call};
use crate::told::told;
use fund_outside::{KeepFault, Keeper};
use sqlite::{Connection, Error, ErrorCode, File, FileStore};
use std::fs::OpenOptions;
use std::io::ErrorKind;
use std::ops::Deref;
use std::os::unix::fs::OpenOptionsExt;

/// The name of the job file.
const NAME: &str = "fund-jobs.sqlite";

/// Jobs kept in the file `fund-jobs.sqlite` of the current folder, as [`JobTables`](crate::JobTables) keeps them. The
/// file is opened, or made, by the first call, and held until the keeper is dropped: another program that asks for it
/// meanwhile is refused at once. A file that can't be opened fails the call, and the next call tries again. A file that
/// is made is its owner's alone to read and write, and so is its log.
pub struct SqliteKeeper<R: Deref<Target = HostRuntime> + Drop> {
    rt: R,
    connection: Option<Connection<FileStore<File>>>,
    faults: u64,
}

impl<R: Deref<Target = HostRuntime> + Drop> SqliteKeeper<R> {
    ghost use Rattle.keep_sqlite.specs.JobFile.{view_of};

    /// The job file of the current folder, which isn't opened yet, without a failure so far.
    pub fn new(rt: R) -> SqliteKeeper<R>
        ensures { view_of result ≡ record { jobs = λ _. None; faults = 0 } }
    {
        SqliteKeeper {
            rt,
            connection: None,
            faults: 0,
        }
    }
}

/// What was saved is copied from the log into the file itself. Where that fails, it stays in the log beside the file,
/// and the next open finds it there.
impl<R: Deref<Target = HostRuntime> + Drop> Drop for SqliteKeeper<R> {
    fn drop(self) {
        let SqliteKeeper {
            rt: _,
            connection,
            faults: _,
        } = self;
        if let Some(connection) = connection {
            let _ = connection.close();
        }
    }
}

/// Makes the file, empty and its owner's alone, where nothing has its name. Its errors are among those of an open.
fn make_private(rt: &HostRuntime) -> Result<(), Error>
    ensures { IfErr result (λ error. IsTrue (is_open_error error)) }
{
    let made = OpenOptions::new()
        .write(true)
        .create_new(true)
        .mode(0o600)
        .open(rt, NAME);
    match made {
        Ok(_) => Ok(()),
        Err(error) => match error.kind() {
            ErrorKind::AlreadyExists => Ok(()),
            ErrorKind::OutOfMemory => Err(Error::SqliteFailure(ErrorCode::OutOfMemory)),
            _ => Err(Error::SqliteFailure(ErrorCode::CannotOpen)),
        },
    }
}

/// Opens the file where no connection is held.
fn opened(
    rt: &HostRuntime,
    connection: &Option<Connection<FileStore<File>>>,
) -> Result<Option<Connection<FileStore<File>>>, Error>
    ensures opened { IfOk result (IsOpened over_files connection.now) }
    ensures unopened { IfErr result (λ error. IsTrue (is_open_error error) × (connection.now ≡ None)) }
{
    if connection.is_some() {
        return Ok(None);
    }
    make_private(rt)?;
    let made = Connection::open(rt, NAME)?;
    Ok(Some(made))
}

/// What the file answers to a call. It is opened where it isn't open yet. A connection that is held stays; where the
/// open fails, none is held. All calls are made here: what is proved of tables over any store is tied to the store of a
/// file once.
fn ask(
    rt: &HostRuntime,
    connection: &mut Option<Connection<FileStore<File>>>,
    call: &Call<'_>,
) -> Result<Option<Vec<u8>>, Error>
    ensures { AnswersIn over_files call.now connection.old connection.new result }
{
    let opened = opened(rt, connection)?;
    tables::ask_held(connection, opened, call)
}

impl<R: Deref<Target = HostRuntime> + Drop> Keeper for SqliteKeeper<R> {
    ghost use Rattle.keep_sqlite.specs.JobFile.{view_of};

    ghost tells = { ⊥ };

    ghost view = { view_of };

    fn load(&mut self, job: &str) -> Result<Option<Vec<u8>>, KeepFault>
        ensures faults { (view_of self.old).faults ≤ (view_of self.new).faults }
        ensures cause { IsErrOf result KeepFault.Failed → Rose (view_of self.old).faults (view_of self.new).faults }
        ensures unfailed { OnOk result ((view_of self.new).faults ≡ (view_of self.old).faults) }
        ensures short { IsErrOf result KeepFault.Memory → (view_of self.new).faults ≡ (view_of self.old).faults }

        // Whatever the database's error is, it is told once.
        ensures counted { IsErrOf result KeepFault.Failed → (view_of self.new).faults ≡ one_more (view_of self.old).faults }

        // What it tells is what the tables show, or why the file can't be opened.
        ensures told { Reports (FindsIn over_files saved_text (Text job.now ∷ []) self.old.connection self.new.connection) result }
    {
        told(
            ask(&self.rt, &mut self.connection, &Call::Load { job }),
            &mut self.faults,
        )
    }

    fn part(&mut self, job: &str, number: u32) -> Result<Option<Vec<u8>>, KeepFault>
        ensures faults { (view_of self.old).faults ≤ (view_of self.new).faults }
        ensures cause { IsErrOf result KeepFault.Failed → Rose (view_of self.old).faults (view_of self.new).faults }
        ensures unfailed { OnOk result ((view_of self.new).faults ≡ (view_of self.old).faults) }
        ensures short { IsErrOf result KeepFault.Memory → (view_of self.new).faults ≡ (view_of self.old).faults }

        // Whatever the database's error is, it is told once.
        ensures counted { IsErrOf result KeepFault.Failed → (view_of self.new).faults ≡ one_more (view_of self.old).faults }

        // What it tells is what the tables show, or why the file can't be opened.
        ensures told { Reports (FindsIn over_files bytes_text (Text job.now ∷ Int (pos number) ∷ []) self.old.connection self.new.connection) result }
    {
        told(
            ask(&self.rt, &mut self.connection, &Call::Part { job, number }),
            &mut self.faults,
        )
    }

    fn save(&mut self, job: &str, first: u32, part: &[u8], saved: &[u8]) -> Result<(), KeepFault>
        ensures faults { (view_of self.old).faults ≤ (view_of self.new).faults }
        ensures cause { IsErrOf result KeepFault.Failed → Rose (view_of self.old).faults (view_of self.new).faults }
        ensures unfailed { OnOk result ((view_of self.new).faults ≡ (view_of self.old).faults) }
        ensures short { IsErrOf result KeepFault.Memory → (view_of self.new).faults ≡ (view_of self.old).faults }

        // Whatever the database's error is, it is told once.
        ensures counted { IsErrOf result KeepFault.Failed → (view_of self.new).faults ≡ one_more (view_of self.old).faults }

        // What a save that is done has written and committed, where the disk has returned what was written.
        ensures saved { OnOk result (SavesIn over_files job.now first part.now saved.now self.old.connection self.new.connection) }
    {
        let call = Call::Save {
            job,
            first,
            part,
            saved,
        };
        match told(ask(&self.rt, &mut self.connection, &call), &mut self.faults) {
            Ok(_) => Ok(()),
            Err(fault) => Err(fault),
        }
    }
}

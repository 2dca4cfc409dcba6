//! Jobs in the tables of a database over two files, whatever these are.

use crate::findings::{Due, Found, judge};
use crate::saves::keep_all;
use fund_outside::{KeepFault, Keeper};
use keep_sqlite::JobTables;
use sqlite::{Alter, Connection, FileStore, Files, Options};
use sqlite_disk::Disk;
use std::alloc::Global;

/// What a run was at when its files failed.
#[derive(Drop)]
pub(crate) enum Step {
    Open,
    Save,
    Close,
    /// They didn't fail.
    Done,
}

impl Step {
    pub(crate) fn word(&self) -> &'static str {
        match self {
            Step::Open => "open",
            Step::Save => "save",
            Step::Close => "close",
            Step::Done => "done",
        }
    }
}

/// A database over files; these again, where they are refused.
fn opened<D: Disk + Drop>(
    alloc: Global,
    files: Files<D>,
    options: Options,
) -> Result<Connection<FileStore<D>>, Files<D>> {
    if !files.log.may_be_used() {
        return Err(files);
    }
    if !files.db.may_be_used() {
        return Err(files);
    }
    match Connection::open_files(alloc, files, options) {
        Ok(connection) => Ok(connection),
        Err((_, left)) => Err(left.into_files()),
    }
}

/// What is done over a database behind saves: a look at what is kept, where it is said what is due.
#[derive(Drop)]
pub(crate) struct Work<'a> {
    pub(crate) due: Option<&'a Due>,
    /// Whether the database is closed then.
    pub(crate) is_closed: bool,
    /// What was found to be kept.
    pub(crate) found: Found,
}

/// Has a keeper do saves and a work, up to the first call that fails.
fn do_work<K: Keeper>(
    alloc: Global,
    keeper: &mut K,
    saves: &[&str],
    work: &mut Work,
) -> Result<(), KeepFault> {
    keep_all(alloc, keeper, saves)?;
    if let Some(due) = work.due {
        work.found = judge(alloc, keeper, due)?;
    }
    Ok(())
}

/// Has a keeper over a database do saves and a work. Gives the database back where it is to be closed, and else what it stands on.
fn worked<S: Alter + Drop>(
    alloc: Global,
    connection: Connection<S>,
    saves: &[&str],
    work: &mut Work,
) -> Result<Connection<S>, (Step, S)> {
    let mut keeper = JobTables::adopt(connection);
    let is_done = do_work(alloc, &mut keeper, saves, work).is_ok();
    let connection = keeper.into_connection();
    if !is_done {
        return Err((Step::Save, connection.into_store()));
    }
    if work.is_closed {
        Ok(connection)
    } else {
        Err((Step::Done, connection.into_store()))
    }
}

/// The files of a database that is closed.
fn closed<D: Disk + Drop>(connection: Connection<FileStore<D>>) -> (Step, Files<D>) {
    match connection.close_files() {
        Ok(files) => (Step::Done, files),
        Err((_, store)) => (Step::Close, store.close()),
    }
}

/// Opens files, does saves and a work, and closes them if that is asked for, until they fail.
pub(crate) fn run<D: Disk + Drop>(
    alloc: Global,
    files: Files<D>,
    options: Options,
    saves: &[&str],
    work: &mut Work,
) -> (Step, Files<D>) {
    match opened(alloc, files, options) {
        Ok(connection) => match worked(alloc, connection, saves, work) {
            Ok(connection) => closed(connection),
            Err((step, store)) => (step, store.close()),
        },
        Err(files) => (Step::Open, files),
    }
}

//! Jobs as rows of two tables: one row a job, and one row a part.

ghost use Rattle.std.specs.Prelude.{◌≡◌, ◌≤◌, [], ◌∷◌, pos, Err, IsSome, IsTrue, OnErr, OnOk};
ghost use Rattle.std.specs.Option.{option_or};
ghost use Rattle.sqlite.specs.Held.{state};
ghost use Rattle.sqlite.specs.State.{HasCleanDisk};
ghost use Rattle.sqlite.specs.Values.{bound};
ghost use Rattle.sqlite.specs.View.{doubt};
ghost use Rattle.sqlite.specs.declared.types.Value.TheVariants.{Int, Text};
ghost use Rattle.keep_sqlite.specs.Calls.{Answers, AnswersFrom};
ghost use Rattle.keep_sqlite.specs.Saving.{IsAsBefore, IsRun, MakesTables, Saves, StaysInside, TellsInside, WritesJob, WritesRows};
ghost use Rattle.keep_sqlite.specs.Tables.{AreBytesOf, AreCounted, AreMadeBy, Finds, ShowsBytes, TellsTables, bytes_text, saved_text, tables_made};

use sqlite::types::ValueRef;
use sqlite::{Alter, Connection, Error, ErrorCode, Row, Transaction, params};

/// A job by its name, and its saved text.
const JOB: &str = "CREATE TABLE job (name TEXT NOT NULL PRIMARY KEY, saved BLOB NOT NULL) STRICT";

/// A part by its job and its number, counted from 0.
const PART: &str =
    "CREATE TABLE part (job TEXT NOT NULL, number INTEGER NOT NULL, bytes BLOB NOT NULL, PRIMARY KEY (job, number)) STRICT";

/// How many tables and other objects there are, but for those that SQLite makes by itself, and how many of them are
/// ours, with our text.
const OBJECTS: &str =
    "SELECT count(*), coalesce(sum(name = 'job' AND sql = ?1 OR name = 'part' AND sql = ?2), 0) FROM sqlite_schema WHERE substr(name, 1, 7) <> 'sqlite_'";

const SAVED: &str = "SELECT saved FROM job WHERE name = ?1";

const BYTES: &str = "SELECT bytes FROM part WHERE job = ?1 AND number = ?2";

/// Drops the parts from a number on, and those below 0, which no save leaves; all of them where there is no such job.
const DROP_PARTS: &str =
    "DELETE FROM part WHERE job = ?1 AND (number < 0 OR number >= ?2 OR ?1 NOT IN (SELECT name FROM job))";

const ADD_PART: &str =
    "INSERT INTO part (job, number, bytes) SELECT ?1, coalesce(max(number) + 1, 0), ?2 FROM part WHERE job = ?1";

const KEEP_SAVED: &str =
    "INSERT INTO job (name, saved) VALUES (?1, ?2) ON CONFLICT (name) DO UPDATE SET saved = excluded.saved";

/// What is asked of the tables, or what they are to keep.
#[derive(Clone, Copy)]
pub(crate) enum Call<'a> {
    /// The saved text of a job.
    Load {
        job: &'a str,
    },
    /// The part of that number of a job.
    Part {
        job: &'a str,
        number: u32,
    },
    /// A part of a job behind the first ones, at most so many, and its saved text.
    Save {
        job: &'a str,
        first: u32,
        part: &'a [u8],
        saved: &'a [u8],
    },
}

/// Whether the tables are there, by the counts of objects and of ours. A database with any other object in it, or with
/// a table of another shape, isn't ours.
fn are_made(objects: i64, ours: i64) -> Result<bool, Error>
    ensures { result ≡ tables_made objects ours }
{
    match (objects, ours) {
        (0, _) => Ok(false),
        (2, 2) => Ok(true),
        _ => Err(Error::SqliteFailure(ErrorCode::NotADatabase)),
    }
}

/// Whether the tables are there, by the row of both counts.
fn are_made_by_row(counts: &Row) -> Result<bool, Error>
    ensures { AreCounted counts.now result }
{
    are_made(counts.get(0)?, counts.get(1)?)
}

/// Whether the tables are there, by what the database answers when it is asked for both counts.
fn are_made_by(answer: Result<Row, Error>) -> Result<bool, Error>
    ensures { AreMadeBy answer result }
{
    match answer {
        Ok(counts) => are_made_by_row(&counts),
        Err(error) => Err(error),
    }
}

/// Whether the database has the tables; an error where it is one of something else.
fn has_tables<S: Alter>(connection: &mut Connection<S>) -> Result<bool, Error>
    ensures told { HasCleanDisk (state S.Store connection.new) → TellsTables S.Store connection.old connection.new result }
    ensures clean { doubt (state S.Store connection.old).is_clean ≤ doubt (state S.Store connection.new).is_clean }
{
    are_made_by(connection.query_row(OBJECTS, params![JOB, PART]))
}

/// Whether the tables are there, as the transaction sees them.
fn are_there<S: Alter>(transaction: &mut Transaction<'_, S>) -> Result<bool, Error>
    ensures same_reference { transaction.new.conn.ghost_name ≡ transaction.old.conn.ghost_name }
    ensures left { StaysInside S.Store transaction.old.conn.now transaction.new.conn.now result }
    ensures told { HasCleanDisk (state S.Store transaction.new.conn.now) → TellsInside S.Store transaction.old.conn.now transaction.new.conn.now result }
{
    are_made_by(transaction.query_row(OBJECTS, params![JOB, PART]))
}

/// Runs a statement in the transaction.
fn run<S: Alter>(
    transaction: &mut Transaction<'_, S>,
    statement: &str,
    params: &[ValueRef<'_>],
) -> Result<(), Error>
    ensures same_reference { transaction.new.conn.ghost_name ≡ transaction.old.conn.ghost_name }
    ensures left { StaysInside S.Store transaction.old.conn.now transaction.new.conn.now result }
    ensures ran { HasCleanDisk (state S.Store transaction.new.conn.now) → IsTrue transaction.old.conn.now.in_transaction → OnOk result (IsRun S.Store statement.now (bound params.now) transaction.old.conn.now transaction.new.conn.now) }
{
    match transaction.execute(statement, params) {
        Ok(_) => Ok(()),
        Err(error) => Err(error),
    }
}

/// Makes the tables where they aren't there yet.
fn make_tables<S: Alter>(transaction: &mut Transaction<'_, S>) -> Result<(), Error>
    ensures same_reference { transaction.new.conn.ghost_name ≡ transaction.old.conn.ghost_name }
    ensures left { StaysInside S.Store transaction.old.conn.now transaction.new.conn.now result }
    ensures made { HasCleanDisk (state S.Store transaction.new.conn.now) → IsTrue transaction.old.conn.now.in_transaction → OnOk result (MakesTables S.Store transaction.old.conn.now transaction.new.conn.now) }
{
    if are_there(transaction)? {
        return Ok(());
    }
    run(transaction, JOB, &[])?;
    run(transaction, PART, &[])
}

/// The bytes that a query shows, where it shows a row. That it shows none is `None`, and no other error is.
fn bytes_of(answer: Result<Row, Error>) -> Result<Option<Vec<u8>>, Error>
    ensures { AreBytesOf answer result }
{
    match answer {
        Ok(row) => Ok(Some(row.get(0)?)),
        Err(Error::QueryReturnedNoRows) => Ok(None),
        Err(error) => Err(error),
    }
}

/// The bytes that the query shows in the database, where the disk has returned what was written.
fn shown<S: Alter>(
    connection: &mut Connection<S>,
    query: &str,
    params: &[ValueRef<'_>],
) -> Result<Option<Vec<u8>>, Error>
    ensures told { HasCleanDisk (state S.Store connection.new) → ShowsBytes S.Store query.now (bound params.now) connection.old connection.new result }
    ensures clean { doubt (state S.Store connection.old).is_clean ≤ doubt (state S.Store connection.new).is_clean }
{
    bytes_of(connection.query_row(query, params))
}

/// The saved text of the job; `None` where the tables aren't made or the query shows no row.
pub(crate) fn load<S: Alter>(
    connection: &mut Connection<S>,
    job: &str,
) -> Result<Option<Vec<u8>>, Error>
    ensures told { HasCleanDisk (state S.Store connection.new) → Finds S.Store saved_text (Text job.now ∷ []) connection.old connection.new result }
    ensures clean { doubt (state S.Store connection.old).is_clean ≤ doubt (state S.Store connection.new).is_clean }
{
    if !has_tables(connection)? {
        return Ok(None);
    }
    shown(connection, SAVED, params![job])
}

/// The job's part of that number; `None` where the tables aren't made or the query shows no row.
pub(crate) fn part<S: Alter>(
    connection: &mut Connection<S>,
    job: &str,
    number: u32,
) -> Result<Option<Vec<u8>>, Error>
    ensures told { HasCleanDisk (state S.Store connection.new) → Finds S.Store bytes_text (Text job.now ∷ Int (pos number) ∷ []) connection.old connection.new result }
    ensures clean { doubt (state S.Store connection.old).is_clean ≤ doubt (state S.Store connection.new).is_clean }
{
    if !has_tables(connection)? {
        return Ok(None);
    }
    shown(connection, BYTES, params![job, number])
}

/// Writes the rows of a job.
fn keep<S: Alter>(
    transaction: &mut Transaction<'_, S>,
    job: &str,
    first: u32,
    part: &[u8],
    saved: &[u8],
) -> Result<(), Error>
    ensures same_reference { transaction.new.conn.ghost_name ≡ transaction.old.conn.ghost_name }
    ensures left { StaysInside S.Store transaction.old.conn.now transaction.new.conn.now result }
    ensures rows { HasCleanDisk (state S.Store transaction.new.conn.now) → IsTrue transaction.old.conn.now.in_transaction → OnOk result (WritesRows S.Store job.now first part.now saved.now transaction.old.conn.now transaction.new.conn.now) }
{
    run(transaction, DROP_PARTS, params![job, first])?;
    run(transaction, ADD_PART, params![job, part])?;
    run(transaction, KEEP_SAVED, params![job, saved])
}

/// Makes the tables where they aren't there yet, and writes the rows of a job.
fn write<S: Alter>(
    transaction: &mut Transaction<'_, S>,
    job: &str,
    first: u32,
    part: &[u8],
    saved: &[u8],
) -> Result<(), Error>
    ensures same_reference { transaction.new.conn.ghost_name ≡ transaction.old.conn.ghost_name }
    ensures left { StaysInside S.Store transaction.old.conn.now transaction.new.conn.now result }
    ensures written { HasCleanDisk (state S.Store transaction.new.conn.now) → IsTrue transaction.old.conn.now.in_transaction → OnOk result (WritesJob S.Store job.now first part.now saved.now transaction.old.conn.now transaction.new.conn.now) }
{
    make_tables(transaction)?;
    keep(transaction, job, first, part, saved)
}

/// Keeps the first parts of the job, at most so many, one more behind them, and its saved text: all in one
/// transaction, which is rolled back at an error. An open transaction is an error.
pub(crate) fn save<S: Alter>(
    connection: &mut Connection<S>,
    job: &str,
    first: u32,
    part: &[u8],
    saved: &[u8],
) -> Result<(), Error>
    ensures open { IsTrue connection.old.in_transaction → (result ≡ Err (Error.SqliteFailure ErrorCode.TransactionState)) × (connection.new ≡ connection.old) }
    ensures neither { HasCleanDisk (state S.Store connection.new) → IsTrue (state S.Store connection.new).is_open → OnErr result (IsAsBefore S.Store connection.old connection.new) }
    ensures saved { HasCleanDisk (state S.Store connection.new) → OnOk result (Saves S.Store job.now first part.now saved.now connection.old connection.new) }
{
    if !connection.is_autocommit() {
        return Err(Error::SqliteFailure(ErrorCode::TransactionState));
    }
    let mut transaction = connection.transaction();
    write(&mut transaction, job, first, part, saved)?;
    transaction.commit()
}

/// What the tables answer to a call; a save that is done finds nothing.
fn ask<S: Alter>(connection: &mut Connection<S>, call: &Call<'_>) -> Result<Option<Vec<u8>>, Error>
    ensures { HasCleanDisk (state S.Store connection.new) → Answers S.Store call.now connection.old connection.new result }
{
    match *call {
        Call::Load { job } => load(connection, job),
        Call::Part { job, number } => part(connection, job, number),
        Call::Save {
            job,
            first,
            part,
            saved,
        } => {
            save(connection, job, first, part, saved)?;
            Ok(None)
        }
    }
}

/// The same of a database that has been opened for the call and is held from then on, or else of the one that is held.
pub(crate) fn ask_held<S: Alter + Drop>(
    held: &mut Option<Connection<S>>,
    opened: Option<Connection<S>>,
    call: &Call<'_>,
) -> Result<Option<Vec<u8>>, Error>
    requires { IsSome (option_or opened held.now) }
    ensures { AnswersFrom S.Store call.now (option_or opened held.old) held.new result }
{
    *held = opened.or(held.take());
    ask(held.as_mut().unwrap(), call)
}

//! The files and jobs of a case, and what is done with them.

use crate::calls::{
    ended, ended_surely, filled, keep, made_whole, made_whole_with_keys, make, paid, swept,
};
use crate::columns::with_pieces;
use crate::people::{show_filled, show_paid, show_swept};
use crate::settled::settled;
use crate::shown::{show, show_column, show_count, show_number};
use crate::turning::Turning;
use command_end::Sources;
use fund_base::Memory;
use fund_outside::{Keeper, MemKeeper};
use fund_shelf::{MemShelf, MemSink, SureSink};
use row_columns::{column, numbers_in, short_in, words_behind};
use sha2::{Digest, Sha256};
use std::alloc::Global;
use std::mem;

/// The files and jobs, the new files of the last payment, and the numbers of the puts that fail.
#[derive(Drop)]
pub(crate) struct Case {
    shelf: MemShelf,
    new_files: MemShelf,
    keeper: MemKeeper,
    puts: Vec<u64>,
}

/// No files, of which the reads and writes of two columns fail.
fn shelf_of(alloc: Global, reads: &str, writes: &str) -> Result<MemShelf, Memory> {
    let reads = numbers_in(alloc, reads)?;
    let writes = numbers_in(alloc, writes)?;
    Ok(MemShelf::new(alloc, Vec::new(alloc), reads, writes))
}

/// No jobs, of which the loads, parts and saves of three columns fail.
fn keeper_of(alloc: Global, columns: &[&str]) -> Result<MemKeeper, Memory> {
    let loads = numbers_in(alloc, column(columns, 4))?;
    let parts = numbers_in(alloc, column(columns, 5))?;
    let saves = numbers_in(alloc, column(columns, 6))?;
    Ok(MemKeeper::new(alloc, loads, parts, saves))
}

/// Prints the parts of a job.
fn show_parts<K: Keeper>(rt: &HostRuntime, keeper: &mut K, job: &str) {
    for number in 0..1000 {
        match keeper.part(job, number) {
            Ok(Some(part)) => {
                show_count(rt, b"part ", number as u64);
                show(rt, &part);
                show(rt, b"\n");
            }
            Ok(None) => return,
            Err(_) => show_count(rt, b"no part ", number as u64),
        }
    }
}

/// Prints a job.
fn show_job<K: Keeper>(rt: &HostRuntime, keeper: &mut K, job: &str) {
    match keeper.load(job) {
        Ok(Some(saved)) => {
            show(rt, &saved);
            show_parts(rt, keeper, job);
        }
        Ok(None) => show(rt, b"no job\n"),
        Err(_) => show(rt, b"load failed\n"),
    }
}

/// The bytes of a file; others where there is none.
fn file_in<'a>(shelf: &'a MemShelf, name: &str, others: &'a [u8]) -> &'a [u8] {
    match shelf.file(name) {
        Some(bytes) => bytes,
        None => others,
    }
}

/// How many lines a text has, each ended by a line feed.
fn lines_in(text: &[u8]) -> u64 {
    let mut lines: u64 = 0;
    for byte in text {
        if *byte == b'\n' {
            lines = lines.saturating_add(1);
        }
    }
    lines
}

/// Prints how many lines a text has, and its SHA-256.
fn show_sum(rt: &HostRuntime, text: &[u8]) -> Result<(), Memory> {
    let mut digest = Sha256::new();
    digest.update(text);
    let digits = hex::encode(rt.alloc(), digest.finalize())?;
    show_number(rt, b"", lines_in(text));
    show(rt, b" lines, SHA-256 ");
    show(rt, digits.as_bytes());
    show(rt, b"\n");
    Ok(())
}

/// Prints a label, which is a text, and a status.
fn show_status(rt: &HostRuntime, label: &str, code: u8) -> Result<(), Memory> {
    show_column(rt, label)?;
    show_count(rt, b"status ", code as u64);
    Ok(())
}

/// Does a command without files and jobs, in memory that never fails, and prints how it ended.
pub(crate) fn surely(rt: &HostRuntime, columns: &[&str]) -> Result<(), Memory> {
    let alloc = rt.alloc();
    let words = words_behind(alloc, columns)?;
    let mut sink = SureSink::new(alloc);
    let code = ended_surely(alloc, &words, &mut sink);
    show_status(rt, column(columns, 0), code)?;
    show(rt, sink.written());
    Ok(())
}

impl Case {
    /// A case without files and jobs.
    pub(crate) fn new(alloc: Global, columns: &[&str]) -> Result<Case, Memory> {
        let puts = numbers_in(alloc, column(columns, 3))?;
        let shelf = shelf_of(alloc, column(columns, 1), column(columns, 2))?;
        let new_files = shelf_of(alloc, "", "")?;
        let keeper = keeper_of(alloc, columns)?;
        Ok(Case {
            shelf,
            new_files,
            keeper,
            puts,
        })
    }

    /// Makes a file.
    pub(crate) fn file(&mut self, alloc: Global, columns: &[&str]) -> Result<(), Memory> {
        let bytes = with_pieces(alloc, b"", column(columns, 1), column(columns, 2))?;
        make(&mut self.shelf, column(columns, 0), &bytes);
        Ok(())
    }

    /// Puts bytes behind a file.
    pub(crate) fn more(&mut self, alloc: Global, columns: &[&str]) -> Result<(), Memory> {
        let before = file_in(&self.shelf, column(columns, 0), b"");
        let bytes = with_pieces(alloc, before, column(columns, 1), column(columns, 2))?;
        make(&mut self.shelf, column(columns, 0), &bytes);
        Ok(())
    }

    /// An output of which the puts of the case fail.
    fn sink(&self, alloc: Global) -> Result<MemSink, Memory> {
        Ok(MemSink::new(alloc, Vec::from_slice(alloc, &self.puts)?))
    }

    /// Does a command, and prints how it ended; and what it printed.
    fn done(&mut self, rt: &HostRuntime, columns: &[&str]) -> Result<MemSink, Memory> {
        let alloc = rt.alloc();
        let words = words_behind(alloc, columns)?;
        let mut sink = self.sink(alloc)?;
        let code = ended(alloc, &words, &mut self.shelf, &mut sink, &mut self.keeper);
        show_status(rt, column(columns, 0), code)?;
        Ok(sink)
    }

    /// Does a command, and prints how it ended.
    pub(crate) fn act(&mut self, rt: &HostRuntime, columns: &[&str]) -> Result<(), Memory> {
        let sink = self.done(rt, columns)?;
        show(rt, sink.written());
        Ok(())
    }

    /// Does a command, and prints how it ended, what it printed by its digest.
    pub(crate) fn sum(&mut self, rt: &HostRuntime, columns: &[&str]) -> Result<(), Memory> {
        let sink = self.done(rt, columns)?;
        show_sum(rt, sink.written())
    }

    /// Does a command while a file changes between its readings, and prints how it ended.
    pub(crate) fn turn(&mut self, rt: &HostRuntime, columns: &[&str]) -> Result<(), Memory> {
        let [name, turns, command @ ..] = columns else {
            return Ok(());
        };
        let alloc = rt.alloc();
        let words = words_behind(alloc, command)?;
        let files = mem::replace(&mut self.shelf, shelf_of(alloc, "", "")?);
        let mut shelf = Turning::new(alloc, files, name, turns)?;
        let mut sink = self.sink(alloc)?;
        let code = ended(alloc, &words, &mut shelf, &mut sink, &mut self.keeper);
        self.shelf = shelf.into_shelf();
        show_status(rt, column(command, 0), code)?;
        show(rt, sink.written());
        Ok(())
    }

    /// Makes the PSBT of a file whole, with the keys of another where one is named, and prints how it ended.
    pub(crate) fn whole(&mut self, rt: &HostRuntime, columns: &[&str]) -> Result<(), Memory> {
        let alloc = rt.alloc();
        let sources = Sources {
            wallet: column(columns, 2),
            blocks: column(columns, 3),
        };
        let mut sink = self.sink(alloc)?;
        let psbt = column(columns, 1);
        let keys = column(columns, 4);
        let code = if columns.len() > 4 {
            made_whole_with_keys(alloc, &sources, psbt, keys, &mut self.shelf, &mut sink)
        } else {
            made_whole(alloc, &sources, psbt, &mut self.shelf, &mut sink)
        };
        show_status(rt, column(columns, 0), code)?;
        show(rt, sink.written());
        Ok(())
    }

    /// Looks whether a signed transaction settles a payment, and prints what is shown of it.
    pub(crate) fn settled(&mut self, rt: &HostRuntime, columns: &[&str]) -> Result<(), Memory> {
        settled(rt, columns, &mut self.shelf)
    }

    /// Pays what words ask for, and prints how it ended.
    pub(crate) fn pay(&mut self, rt: &HostRuntime, columns: &[&str]) -> Result<(), Memory> {
        let alloc = rt.alloc();
        let words = words_behind(alloc, columns)?;
        self.new_files = shelf_of(alloc, "", column(columns, 0))?;
        let files = mem::replace(&mut self.shelf, shelf_of(alloc, "", "")?);
        let (ended, files) = paid(alloc, &words, files, &mut self.new_files);
        self.shelf = files;
        show_paid(rt, ended)
    }

    /// Prints words with the amount in place of `max`, or what is wrong with them.
    pub(crate) fn most(&mut self, rt: &HostRuntime, columns: &[&str]) -> Result<(), Memory> {
        let words = words_behind(rt.alloc(), columns)?;
        show_column(rt, column(columns, 0))?;
        show_filled(rt, filled(rt.alloc(), &words, &mut self.shelf))
    }

    /// Pays all coins to whom words name, and prints how it ended.
    pub(crate) fn sweep(&mut self, rt: &HostRuntime, columns: &[&str]) -> Result<(), Memory> {
        let alloc = rt.alloc();
        let words = words_behind(alloc, columns)?;
        self.new_files = shelf_of(alloc, "", column(columns, 0))?;
        let files = mem::replace(&mut self.shelf, shelf_of(alloc, "", "")?);
        let (ended, files) = swept(alloc, &words, files, &mut self.new_files);
        self.shelf = files;
        show_swept(rt, ended)
    }

    /// Prints a new file of the last payment.
    pub(crate) fn new_file(&self, rt: &HostRuntime, columns: &[&str]) {
        show(
            rt,
            file_in(&self.new_files, column(columns, 0), b"no new file"),
        );
        show(rt, b"\n");
    }

    /// Prints a log.
    pub(crate) fn log(&self, rt: &HostRuntime, columns: &[&str]) {
        show(rt, file_in(&self.shelf, column(columns, 0), b"no log\n"));
    }

    /// Keeps a part of a job.
    pub(crate) fn save(&mut self, alloc: Global, columns: &[&str]) -> Result<(), Memory> {
        let saved = with_pieces(alloc, b"", column(columns, 2), "1")?;
        let part = with_pieces(alloc, b"", column(columns, 3), column(columns, 4))?;
        let number = short_in(column(columns, 1));
        keep(&mut self.keeper, column(columns, 0), number, &part, &saved);
        Ok(())
    }

    /// Prints a job.
    pub(crate) fn job(&mut self, rt: &HostRuntime, columns: &[&str]) {
        show_job(rt, &mut self.keeper, column(columns, 0));
    }
}

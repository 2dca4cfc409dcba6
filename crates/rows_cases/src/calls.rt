//! The calls of commands, and of shelves and keepers, for those of any type.

use command_complete::complete;
use command_end::Sources;
use command_keys::complete_keyed;
use command_pay::{Ending, pay};
use command_sweeping::{Ending as SweepEnding, sweep_asked};
use fund_outside::{Keeper, SureKeeper};
use fund_shelf::{Shelf, Sink, SureShelf, SureSink};
use fund_top::{run, run_in_memory};
use max_words::{MaxFault, fill_max};
use pay_words::{Asked, WordFault};
use std::alloc::Global;
use sweep_words::read_sweep;

/// Does a command; its status as a number.
pub(crate) fn ended<H: Shelf, O: Sink, K: Keeper>(
    alloc: Global,
    words: &Vec<String>,
    shelf: &mut H,
    out: &mut O,
    keeper: &mut K,
) -> u8 {
    run(alloc, words, shelf, out, keeper).code()
}

/// Does a command where there is no file and no job, over an output that never fails; its status as a number.
pub(crate) fn ended_surely(alloc: Global, words: &Vec<String>, out: &mut SureSink) -> u8 {
    let mut shelf = SureShelf::new(alloc, Vec::new(alloc));
    let mut keeper = SureKeeper::new(alloc);
    run_in_memory(alloc, words, &mut shelf, out, &mut keeper).code()
}

/// Makes the PSBT of a file whole; the status as a number.
pub(crate) fn made_whole<H: Shelf, O: Sink>(
    alloc: Global,
    sources: &Sources,
    psbt: &str,
    shelf: &mut H,
    out: &mut O,
) -> u8 {
    complete(alloc, sources, psbt, shelf, out).code()
}

/// Makes the PSBT of a file whole, with the keys of another; the status as a number.
pub(crate) fn made_whole_with_keys<H: Shelf, O: Sink>(
    alloc: Global,
    sources: &Sources,
    psbt: &str,
    keys: &str,
    shelf: &mut H,
    out: &mut O,
) -> u8 {
    complete_keyed(alloc, sources, psbt, keys, shelf, out).code()
}

/// Pays what the words ask for over these files, with new files at another shelf; and the files.
pub(crate) fn paid<H: Shelf + Drop, N: Shelf>(
    alloc: Global,
    words: &Vec<String>,
    files: H,
    new_files: &mut N,
) -> (Result<(Asked, Ending), WordFault>, H) {
    pay(alloc, words.as_slice(), [0; 32], files, new_files)
}

/// The words with the amount in place of `max`, by these files; none where no recipient gets that.
pub(crate) fn filled<H: Shelf>(
    alloc: Global,
    words: &Vec<String>,
    files: &mut H,
) -> Result<Option<Vec<String>>, MaxFault> {
    fill_max(alloc, words.as_slice(), [0; 32], files)
}

/// Pays all coins to whom the words name over these files, with new files at another shelf; and the files.
pub(crate) fn swept<H: Shelf + Drop, N: Shelf>(
    alloc: Global,
    words: &Vec<String>,
    files: H,
    new_files: &mut N,
) -> (Result<(Asked, SweepEnding), WordFault>, H) {
    let asked = match read_sweep(alloc, words.as_slice(), [0; 32]) {
        Ok(asked) => asked,
        Err(fault) => return (Err(fault), files),
    };
    let (ending, files) = sweep_asked(alloc, &asked, files, new_files);
    (Ok((asked, ending)), files)
}

/// Makes a file.
pub(crate) fn make<H: Shelf>(shelf: &mut H, name: &str, bytes: &[u8]) {
    let _ = shelf.write_file(name, bytes);
}

/// Keeps a part of a job.
pub(crate) fn keep<K: Keeper>(keeper: &mut K, job: &str, number: u32, part: &[u8], saved: &[u8]) {
    let _ = keeper.save(job, number, part, saved);
}

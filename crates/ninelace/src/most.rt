//! A payment whose one recipient gets all that listed coins are worth.

use crate::listed::Listed;
use crate::pay::refuse_fault;
use crate::plain::{is_given, show, tell};
use command_end::{Sources, Status, refuse_chain};
use fund_files::Stop;
use fund_shelf::{FileShelf, Shelf, SureSink};
use max_words::{MaxFault, fill_max, max_place, max_sentence};
use pay_words::Names;
use std::alloc::Global;
use std::io;

/// The words with the amount in place of `max`, by the files of this shelf; none where no recipient gets that.
fn fill<H: Shelf>(
    alloc: Global,
    words: &[String],
    drawn: [u8; 32],
    files: &mut H,
) -> Result<Option<Vec<String>>, MaxFault> {
    fill_max(alloc, words, drawn, files)
}

/// The same by the files of the system.
pub fn filled(
    rt: &HostRuntime,
    words: &[String],
    drawn: [u8; 32],
) -> Result<Option<Vec<String>>, MaxFault> {
    let mut files = FileShelf::new(rt);
    fill(rt.alloc(), words, drawn, &mut files)
}

/// Says why the files stop the search for the amount of a recipient that gets all.
fn refuse_files(rt: &HostRuntime, json: bool, names: &Names, stop: Stop) -> io::Result<u8> {
    let sources = Sources {
        wallet: names.wallet.as_str(),
        blocks: names.blocks.as_str(),
    };
    let mut out = SureSink::new(rt.alloc());
    let status = refuse_chain(&sources, stop, &mut out);
    show(rt, json, status, out.written())
}

/// The word of the recipient that a fault is about; nothing where it is about none.
fn word_about<'a>(words: &'a [String], fault: &MaxFault) -> &'a str {
    match max_place(fault) {
        Some(place) => match words.get(place) {
            Some(word) => word.as_str(),
            None => "",
        },
        None => "",
    }
}

/// Says why no amount is found for a recipient that gets all.
pub fn refuse_most(
    rt: &HostRuntime,
    words: &[String],
    listed: Option<&Listed>,
    fault: MaxFault,
) -> io::Result<u8> {
    let json = is_given(words, "--json");
    let (about, sentence) = (word_about(words, &fault), max_sentence(&fault));
    match fault {
        MaxFault::Words(fault) => refuse_fault(rt, words, listed, &fault),
        MaxFault::Stopped(names, stop) => refuse_files(rt, json, &names, stop),
        MaxFault::Memory => show(rt, json, Status::Memory, b"fault memory\n"),
        _ => tell(rt, json, Status::Usage, about, sentence),
    }
}

//! The command that pays, as people see it.

use crate::figures::refuse_none;
use crate::json::{Seen, payment_value, print, refusal_value};
use crate::keyed::pay_with_keys;
use crate::listed::{Listed, line_at, lines_in, refused_line};
use crate::most::{filled, refuse_most};
use crate::plain::{files_told, is_given, show, tell, text_made};
use crate::prices::{paid_for_parents, parents_line};
use command_end::{Sources, Status};
use command_pay::{
    Ending, NewFileShelf, PaidReport, change_warning, high_fee_text, is_change_listed, table_text,
    unread_warning, unwritten_text,
};
use fault_lines::line_sentence;
use fund_base::Memory;
use fund_files::WALLET_LIMIT;
use fund_report::InLine;
use fund_shelf::{FileShelf, Shelf, read_whole};
use pay_words::{
    Asked, Flag, WordFault, flag_about, flag_word, letter_about, value_in, word_place,
    word_sentence,
};
use payment_files::NewFile;
use people_advice::{there_text, warnings_text};
use std::alloc::Global;
use std::io::ErrorKind;
use std::random::RandomSource;
use std::{fs, io};
use wallet_text::read_wallet;

/// The word or the flag that a fault is about; nothing where it is about none.
fn word_about<'a>(words: &'a [String], fault: &WordFault) -> &'a str {
    if let Some(flag) = flag_about(fault) {
        return flag_word(flag);
    }
    match word_place(fault) {
        Some(place) => match words.get(place) {
            Some(word) => word.as_str(),
            None => "",
        },
        None => "",
    }
}

/// Says why words ask for no payment: what it is about, the letter of it if it is about one, and the sentence.
fn tell_fault(
    rt: &HostRuntime,
    words: &[String],
    status: Status,
    about: &str,
    fault: &WordFault,
) -> io::Result<u8> {
    let json = is_given(words, "--json");
    match letter_about(fault) {
        Some(letter) => {
            let number = letter.wrapping_add(1);
            let about = format!(in rt.alloc(); "{}: letter {}", about, number)?;
            tell(rt, json, status, about.as_str(), Some(word_sentence(fault)))
        }
        None => tell(rt, json, status, about, Some(word_sentence(fault))),
    }
}

/// Says why the words ask for no payment: the word or the flag that it is about, and the sentence.
pub fn refuse_words(rt: &HostRuntime, words: &[String], fault: &WordFault) -> io::Result<u8> {
    let status = match fault {
        WordFault::Memory => Status::Memory,
        _ => Status::Usage,
    };
    tell_fault(rt, words, status, word_about(words, fault), fault)
}

/// Says why words ask for no payment, behind which may stand those of a file's lines: the line or the word that it is about, and the
/// sentence.
pub fn refuse_fault(
    rt: &HostRuntime,
    words: &[String],
    listed: Option<&Listed>,
    fault: &WordFault,
) -> io::Result<u8> {
    let Some(listed) = listed else {
        return refuse_words(rt, words, fault);
    };
    let line = match word_place(fault) {
        Some(place) => line_at(rt, listed, place)?,
        None => None,
    };
    match line {
        Some(line) => tell_fault(rt, words, Status::Input, line.as_str(), fault),
        None => refuse_words(rt, words, fault),
    }
}

/// Whether the wallet watches the script to which it has change paid; none where its file can't be read any more.
fn is_listed(rt: &HostRuntime, name: &str) -> Option<bool> {
    let alloc = rt.alloc();
    let mut shelf = FileShelf::new(rt);
    let bytes = match read_whole(alloc, &mut shelf, name, WALLET_LIMIT) {
        Ok(bytes) => bytes,
        Err(_) => return None,
    };
    match read_wallet(alloc, &bytes) {
        Ok(wallet) => Some(is_change_listed(&wallet)),
        Err(_) => None,
    }
}

/// Warns where change goes to a script that the wallet doesn't watch, or where that isn't known.
fn warn_of_change(rt: &HostRuntime, listed: Option<bool>) -> io::Result<()> {
    match listed {
        Some(true) => Ok(()),
        Some(false) => rt.println(change_warning()),
        None => rt.println(unread_warning()),
    }
}

/// What a payment has paid for the ancestors of its coins; none where the files can't be read any more.
pub fn parents_of(rt: &HostRuntime, asked: &Asked, coins: &[InLine]) -> Option<u64> {
    let sources = Sources {
        wallet: asked.names.wallet.as_str(),
        blocks: asked.names.blocks.as_str(),
    };
    let mut shelf = FileShelf::new(rt);
    paid_for_parents(rt.alloc(), &sources, asked.settings.rate, coins, &mut shelf)
}

/// Shows what a payment has paid for ancestors, where it has.
pub fn show_parents(rt: &HostRuntime, paid: Option<u64>) -> io::Result<()> {
    match paid {
        Some(paid) if paid > 0 => match parents_line(rt.alloc(), paid) {
            Ok(line) => rt.println(line.as_str()),
            Err(_) => Ok(()),
        },
        _ => Ok(()),
    }
}

/// Shows the request file where it is asked for.
pub fn show_request(rt: &HostRuntime, asked: &Asked) -> io::Result<()> {
    if asked.show_request {
        if let Ok(request) = asked.request(rt.alloc()) {
            rt.println(request.as_str())?;
        }
    }
    Ok(())
}

/// Shows a PSBT, or the file in which it is.
pub fn show_psbt(rt: &HostRuntime, asked: &Asked, psbt: &str) -> io::Result<()> {
    match &asked.names.psbt {
        None => println!(rt; "psbt    {}", psbt),
        Some(name) => println!(rt; "psbt    is in the file {}", name),
    }
}

/// The lines that warn of the scripts of recipients.
fn warnings_of(rt: &HostRuntime, asked: &Asked) -> io::Result<String> {
    text_made(warnings_text(rt.alloc(), &asked.payments))
}

/// Shows a payment as a table, and its PSBT where no file is given for it.
fn show_table(rt: &HostRuntime, asked: &Asked, report: &PaidReport, psbt: &str) -> io::Result<u8> {
    let text = match table_text(rt.alloc(), asked, report) {
        Ok(text) => text,
        Err(_) => return show(rt, false, Status::Memory, b"fault memory\n"),
    };
    show_request(rt, asked)?;
    rt.print(text.as_str())?;
    show_parents(rt, parents_of(rt, asked, report.coins()))?;
    if report.change().is_some() {
        warn_of_change(rt, is_listed(rt, asked.names.wallet.as_str()))?;
    }
    rt.print(warnings_of(rt, asked)?.as_str())?;
    show_psbt(rt, asked, psbt)?;
    Ok(Status::Done.code())
}

/// Shows a payment whose fee is taken, with this PSBT.
pub fn show_payment(
    rt: &HostRuntime,
    asked: &Asked,
    report: &PaidReport,
    psbt: &[u8],
) -> io::Result<u8> {
    let psbt = text_of(psbt);
    if !asked.json {
        return show_table(rt, asked, report, psbt);
    }
    let listed = match report.change() {
        Some(_) => is_listed(rt, asked.names.wallet.as_str()),
        None => None,
    };
    let seen = Seen {
        parents: parents_of(rt, asked, report.coins()),
        change_listed: listed,
        warnings: warnings_of(rt, asked)?,
    };
    match payment_value(rt.alloc(), asked, report, &seen, psbt) {
        Ok(value) => {
            print(rt, &value)?;
            Ok(Status::Done.code())
        }
        Err(_) => show(rt, true, Status::Memory, b"fault memory\n"),
    }
}

/// Says why a payment isn't there, isn't taken or wasn't written: the lines of its run, and the sentence.
pub fn refuse(
    rt: &HostRuntime,
    asked: &Asked,
    status: Status,
    lines: &str,
    sentence: Option<&str>,
) -> io::Result<u8> {
    if asked.json {
        return match refusal_value(rt.alloc(), asked, status.code(), lines, sentence) {
            Ok(value) => {
                print(rt, &value)?;
                Ok(status.code())
            }
            Err(_) => show(rt, true, Status::Memory, b"fault memory\n"),
        };
    }
    show_request(rt, asked)?;
    tell(rt, false, status, lines, sentence)
}

/// Says that the fee is above the greatest that is taken.
pub fn refuse_fee(rt: &HostRuntime, asked: &Asked, fee: u64, most: u64) -> io::Result<u8> {
    match high_fee_text(rt.alloc(), fee, most) {
        Ok(sentence) => refuse(rt, asked, Status::Input, "", Some(sentence.as_str())),
        Err(_) => show(rt, asked.json, Status::Memory, b"fault memory\n"),
    }
}

/// The value of a flag; none where it isn't given, or the words aren't flags with their values. A want of memory is told as that, so that
/// no flag is passed over.
fn value_of(rt: &HostRuntime, words: &[String], flag: Flag) -> io::Result<Option<String>> {
    match value_in(rt.alloc(), words, flag) {
        Ok(Some(name)) => Ok(Some(String::from_str(rt.alloc(), name)?)),
        Ok(None) => Ok(None),
        Err(WordFault::Memory) => Err(io::Error::from(ErrorKind::OutOfMemory)),
        Err(_) => Ok(None),
    }
}

/// Which new files were there before anything was written.
#[derive(Clone, Copy)]
pub struct There {
    /// The request.
    request: bool,
    /// The log.
    log: bool,
    /// The report.
    report: bool,
    /// The PSBT.
    psbt: bool,
}

/// Whether a file of the name behind this flag is there.
fn is_there(rt: &HostRuntime, words: &[String], flag: Flag) -> io::Result<bool> {
    match value_of(rt, words, flag)? {
        Some(name) => Ok(matches!(fs::exists(rt, name.as_str()), Ok(true))),
        None => Ok(false),
    }
}

/// Which new files are there, by the words.
pub fn there_in(rt: &HostRuntime, words: &[String]) -> io::Result<There> {
    Ok(There {
        request: is_there(rt, words, Flag::Request)?,
        log: is_there(rt, words, Flag::Log)?,
        report: is_there(rt, words, Flag::Report)?,
        psbt: is_there(rt, words, Flag::Psbt)?,
    })
}

/// What is said of a new file that wasn't written: that it was there before, or what may be the cause.
fn unwritten(
    rt: &HostRuntime,
    name: &str,
    was_there: bool,
    earlier_written: bool,
) -> Result<String, Memory> {
    if was_there {
        return there_text(rt.alloc(), name, earlier_written);
    }
    unwritten_text(rt.alloc(), name, earlier_written)
}

/// The name that is asked for; nothing where none is.
fn name_or_empty(name: &Option<String>) -> &str {
    match name {
        Some(name) => name.as_str(),
        None => "",
    }
}

/// The name of a new file, and whether it was there before.
fn lost_file(asked: &Asked, file: NewFile, there: There) -> (&str, bool) {
    let names = &asked.names;
    match file {
        NewFile::Request => (name_or_empty(&names.request), there.request),
        NewFile::Log => (name_or_empty(&names.log), there.log),
        NewFile::Report => (name_or_empty(&names.report), there.report),
        NewFile::Psbt => (name_or_empty(&names.psbt), there.psbt),
    }
}

/// Whether a new file is asked for that is written before this one.
fn has_earlier(asked: &Asked, file: NewFile) -> bool {
    let request = asked.names.request.is_some();
    let log = request || asked.names.log.is_some();
    match file {
        NewFile::Request => false,
        NewFile::Log => request,
        NewFile::Report => log,
        NewFile::Psbt => log || asked.names.report.is_some(),
    }
}

/// Says that a new file wasn't written, and whether others were before it.
pub fn refuse_file(rt: &HostRuntime, asked: &Asked, file: NewFile, there: There) -> io::Result<u8> {
    let (name, was_there) = lost_file(asked, file, there);
    match unwritten(rt, name, was_there, has_earlier(asked, file)) {
        Ok(sentence) => refuse(rt, asked, Status::WriteFault, "", Some(sentence.as_str())),
        Err(_) => show(rt, asked.json, Status::Memory, b"fault memory\n"),
    }
}

/// What was said, as text.
pub fn text_of(said: &[u8]) -> &str {
    match str::from_utf8(said) {
        Ok(text) => text,
        Err(_) => "",
    }
}

/// Says why a run came to no payment.
pub fn refuse_run(rt: &HostRuntime, asked: &Asked, status: Status, said: &[u8]) -> io::Result<u8> {
    match status {
        Status::NoSelection => refuse_none(rt, asked, text_of(said)),
        _ => refuse(rt, asked, status, text_of(said), line_sentence(said)),
    }
}

/// The line of a file for which a run is refused, by what it said; none where it is refused for another cause than the request, or for a
/// recipient of the words.
fn line_refused(
    rt: &HostRuntime,
    asked: &Asked,
    listed: &Listed,
    said: &[u8],
) -> io::Result<Option<String>> {
    if said.starts_with(b"fault input request ") {
        return refused_line(rt, listed, asked);
    }
    Ok(None)
}

/// Says why a run with the payments of a file's lines came to no payment: the line for which it is refused stands behind what it said.
fn refuse_listed_run(
    rt: &HostRuntime,
    asked: &Asked,
    listed: &Listed,
    status: Status,
    said: &[u8],
) -> io::Result<u8> {
    match line_refused(rt, asked, listed, said)? {
        None => refuse_run(rt, asked, status, said),
        Some(line) => {
            let mut lines = String::from_str(rt.alloc(), text_of(said))?;
            lines.push_str(line.as_str())?;
            refuse(rt, asked, status, lines.as_str(), line_sentence(said))
        }
    }
}

/// Shows how a payment ended.
pub fn show_ending(
    rt: &HostRuntime,
    asked: &Asked,
    listed: Option<&Listed>,
    there: There,
    ending: &Ending,
) -> io::Result<u8> {
    if let Some(listed) = listed {
        if let Ending::NotPaid(Status::Input, said) = ending {
            return refuse_listed_run(rt, asked, listed, Status::Input, said);
        }
    }
    match ending {
        Ending::Paid(report, _) => show_payment(rt, asked, report, report.psbt()),
        Ending::FeeAboveMaximum(fee, most) => refuse_fee(rt, asked, *fee, *most),
        Ending::NotPaid(status, said) => refuse_run(rt, asked, *status, said),
        Ending::Unwritten(file) => refuse_file(rt, asked, *file, there),
        Ending::Memory => show(rt, asked.json, Status::Memory, b"fault memory\n"),
    }
}

/// Pays what the words ask for over these files, which are given up, with new files at another shelf.
fn pay_over<H: Shelf + Drop, N: Shelf>(
    alloc: Global,
    words: &[String],
    drawn: [u8; 32],
    files: H,
    new_files: &mut N,
) -> Result<(Asked, Ending), WordFault> {
    let (ended, _) = command_pay::pay(alloc, words, drawn, files, new_files);
    ended
}

/// Does what the words ask for, of which none names a keys file.
fn pay_without_keys(
    rt: &HostRuntime,
    words: &[String],
    listed: Option<&Listed>,
    drawn: [u8; 32],
) -> io::Result<u8> {
    let there = there_in(rt, words)?;
    let files = files_told(rt, words);
    let mut new_files = NewFileShelf::new(rt);
    match pay_over(rt.alloc(), words, drawn, files, &mut new_files) {
        Ok((asked, ending)) => show_ending(rt, &asked, listed, there, &ending),
        Err(fault) => refuse_fault(rt, words, listed, &fault),
    }
}

/// Does what the words ask for, behind which may stand those of a file's lines, with this seed where they give none.
fn pay_filled(
    rt: &HostRuntime,
    words: &[String],
    listed: Option<&Listed>,
    drawn: [u8; 32],
) -> io::Result<u8> {
    match value_of(rt, words, Flag::Keys)? {
        None => pay_without_keys(rt, words, listed, drawn),
        Some(name) => pay_with_keys(rt, words, listed, drawn, name.as_str()),
    }
}

/// The same, with the amount in place of `max` where a recipient gets all that listed coins are worth.
fn pay_by(
    rt: &HostRuntime,
    words: &[String],
    listed: Option<&Listed>,
    drawn: [u8; 32],
) -> io::Result<u8> {
    match filled(rt, words, drawn) {
        Ok(None) => pay_filled(rt, words, listed, drawn),
        Ok(Some(words)) => pay_filled(rt, words.as_slice(), listed, drawn),
        Err(fault) => refuse_most(rt, words, listed, fault),
    }
}

/// Does what the words ask for, and pays what the lines of the file of this name list.
fn pay_listed(
    rt: &HostRuntime,
    words: Vec<String>,
    name: String,
    drawn: [u8; 32],
) -> io::Result<u8> {
    if name.is_empty() {
        return refuse_words(rt, &words, &WordFault::EmptyName(Flag::PayFile));
    }
    let lines = match lines_in(rt, &words, name.as_str())? {
        Ok(lines) => lines,
        Err(code) => return Ok(code),
    };
    let listed = Listed {
        name,
        before: words.len(),
        count: lines.len() / 2,
    };
    let mut words = words;
    for line in lines {
        words.push(line)?;
    }
    pay_by(rt, &words, Some(&listed), drawn)
}

/// Does `pay` with the words behind it.
pub fn pay(rt: &HostRuntime, words: Vec<String>) -> io::Result<u8> {
    let mut drawn = [0; 32];
    if rt.fill_bytes(&mut drawn).is_err() {
        return tell(
            rt,
            is_given(&words, "--json"),
            Status::ReadFault,
            "",
            Some("The system gave no random bytes, from which the seed is drawn: try again."),
        );
    }
    match value_of(rt, &words, Flag::PayFile)? {
        Some(name) => pay_listed(rt, words, name, drawn),
        None => pay_by(rt, &words, None, drawn),
    }
}

//! What is said to people beside what commands print, and files that list payments.
//!
//! - `list BYTES`: the words of the lines of a file, or why it lists no payments, with the number of a line
//! - `slip SCRIPT AMOUNT`: the line that warns of paying an amount to a script, or `none`
//! - `status WORD`: the sentence of the status of this number, or `none`
//! - `word WORD`: `other` for a command of the other program, `psbt` for the text of a PSBT, or `none`
//! - `there NAME`, `there NAME earlier`: what is said of a new file that was there, in the second where others were written before it

use pay_words::{LineFault, line_words, pay_file_sentence};
use people_advice::{
    is_other_command, is_psbt_text, payee_warning, status_numbered, status_sentence, there_text,
};
use request_making::Payee;
use row_columns::{Answer, bytes_in, column, number_in, script_in};

/// Puts words with blanks between them.
fn put_words(out: &mut Answer, words: &[String]) {
    for (place, word) in words.iter().enumerate() {
        if place > 0 {
            out.word(" ");
        }
        out.word(word.as_str());
    }
}

/// Puts why a file lists no payments.
fn put_fault(out: &mut Answer, fault: LineFault) {
    match fault {
        LineFault::NoComma(number) => out.number("line ", number as u64),
        LineFault::Memory => return out.lack(),
        _ => out.word("file"),
    }
    out.word(": ");
    out.word(pay_file_sentence(&fault));
}

fn list(out: &mut Answer, bytes: &[u8]) {
    match line_words(out.alloc, bytes) {
        Ok(words) => put_words(out, &words),
        Err(fault) => put_fault(out, fault),
    }
}

fn slip(out: &mut Answer, script: &str, amount: &str) {
    let to = Payee::Script(script_in(out.alloc, script));
    let warning = payee_warning(out.alloc, &to, number_in(amount, 0));
    match warning {
        Ok(warning) if warning.is_empty() => out.word("none"),
        warning => out.words("", warning),
    }
}

fn status(out: &mut Answer, word: &str) {
    match status_numbered(word) {
        Some(status) => out.word(status_sentence(status)),
        None => out.word("none"),
    }
}

fn word(out: &mut Answer, word: &str) {
    if is_other_command(word) {
        out.word("other");
    } else if is_psbt_text(word) {
        out.word("psbt");
    } else {
        out.word("none");
    }
}

pub(crate) fn row(out: &mut Answer, verb: &str, columns: &[&str]) {
    let text = column(columns, 0);
    match verb {
        "list" => list(out, &bytes_in(out.alloc, text)),
        "slip" => slip(out, text, column(columns, 1)),
        "status" => status(out, text),
        "word" => word(out, text),
        _ => out.words(
            "",
            there_text(out.alloc, text, column(columns, 1) == "earlier"),
        ),
    }
}

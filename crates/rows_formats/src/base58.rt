//! Addresses in base58 read and written.
//!
//! - `read TEXT`: the script of an address, and its address; or why the text is none, with the place of a letter that base58 hasn't
//! - `write SCRIPT`: the address of a script, or `none`

use base58_addr::{Base58Fault, decode, encode, other_letter};
use fund_base::{Memory, Script};
use row_columns::{Answer, column, script_in};

/// The word of a fault.
fn fault_word(fault: Base58Fault) -> &'static str {
    match fault {
        Base58Fault::Letter => "Letter",
        Base58Fault::Length => "Length",
        Base58Fault::Checksum => "Checksum",
        Base58Fault::Version => "Version",
        Base58Fault::Memory => "Memory",
    }
}

/// Puts the address of a script, or `none`.
fn put_address(out: &mut Answer, script: &Script) {
    match encode(out.alloc, script) {
        Ok(Some(text)) => out.put(&text),
        Ok(None) => out.word("none"),
        Err(Memory) => out.lack(),
    }
}

/// Puts why a text is none.
fn put_fault(out: &mut Answer, text: &str, fault: Base58Fault) {
    out.word("fault ");
    out.word(fault_word(fault));
    if let Some(letter) = other_letter(text.as_bytes()) {
        out.number(" ", letter as u64);
    }
}

fn read(out: &mut Answer, text: &str) {
    match decode(out.alloc, text) {
        Ok(script) => {
            out.digits("ok ", script.bytes());
            out.word(" written ");
            put_address(out, &script);
        }
        Err(fault) => put_fault(out, text, fault),
    }
}

pub(crate) fn row(out: &mut Answer, verb: &str, columns: &[&str]) {
    let text = column(columns, 0);
    match verb {
        "read" => read(out, text),
        _ => put_address(out, &script_in(out.alloc, text)),
    }
}

//! Addresses read and written.
//!
//! - `read TEXT`: the script of an address, and its address; or why the text is none
//! - `write SCRIPT`: the address of a script, or `none`

use command_end::address_fault_word;
use fund_base::{Memory, Script};
use row_columns::{Answer, column, script_in};
use segwit_addr::{decode, encode};

/// Puts the address of a script, or `none`.
fn put_address(out: &mut Answer, script: &Script) {
    match encode(out.alloc, script) {
        Ok(Some(text)) => out.put(&text),
        Ok(None) => out.word("none"),
        Err(Memory) => out.lack(),
    }
}

fn read(out: &mut Answer, text: &str) {
    match decode(out.alloc, text) {
        Ok(script) => {
            out.digits("ok ", script.bytes());
            out.word(" written ");
            put_address(out, &script);
        }
        Err(fault) => {
            out.word("fault ");
            out.word(address_fault_word(fault));
        }
    }
}

pub(crate) fn row(out: &mut Answer, verb: &str, columns: &[&str]) {
    let text = column(columns, 0);
    match verb {
        "read" => read(out, text),
        _ => put_address(out, &script_in(out.alloc, text)),
    }
}

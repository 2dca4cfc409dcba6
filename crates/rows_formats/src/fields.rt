//! Values of JSON texts, read and refused. Each row has a text.
//!
//! - `number`: the number that the text is
//! - `object`: whether the text is an object that may have a, b and c, and must have b and c
//! - `coin`: the coin that is the member a of the text
//! - `list`: each entry of the list that the text is, as `true` or `false` and as bytes

use command_end::coin_text;
use fund_base::OutPoint;
use json::{Scratch, Value};
use json_fields::{
    FieldFault, coin_of, flag_of, hex_of, items_in, member_of, number_of, object_of, parse,
};
use row_columns::{Answer, column};

/// Puts the fault of this name, and the name that it tells.
fn put_named(out: &mut Answer, fault: &str, name: &str) {
    out.word(fault);
    out.word(name);
}

/// Puts a fault by its name, and the name that it tells.
pub(crate) fn put_fault(out: &mut Answer, fault: &FieldFault) {
    match fault {
        FieldFault::NotJson => out.word("NotJson"),
        FieldFault::Kind(name) => put_named(out, "Kind ", name.as_str()),
        FieldFault::Member(name) => put_named(out, "Member ", name.as_str()),
        FieldFault::Missing(name) => put_named(out, "Missing ", name.as_str()),
        FieldFault::Memory => out.lack(),
    }
}

fn number(out: &mut Answer, value: &Value) {
    match number_of(value, "n", u64::MAX) {
        Ok(number) => out.number("", number),
        Err(fault) => put_fault(out, &fault),
    }
}

fn object(out: &mut Answer, value: &Value) {
    match object_of(out.alloc, value, "whole", &["a", "b", "c"], &["b", "c"]) {
        Ok(()) => out.word("ok"),
        Err(fault) => put_fault(out, &fault),
    }
}

fn read_coin(value: &Value) -> Result<OutPoint, FieldFault> {
    coin_of(member_of(value, "a")?, "a")
}

fn coin(out: &mut Answer, value: &Value) {
    match read_coin(value) {
        Ok(coin) => out.words("", coin_text(out.alloc, &coin)),
        Err(fault) => put_fault(out, &fault),
    }
}

/// Puts an entry as `true` or `false`, and as bytes.
fn put_entry(out: &mut Answer, entry: &Value) {
    match flag_of(entry, "flag") {
        Ok(flag) => out.flag("", flag),
        Err(fault) => put_fault(out, &fault),
    }
    match hex_of(out.alloc, entry, "hex") {
        Ok(bytes) => out.digits(", ", &bytes),
        Err(fault) => {
            out.word(", ");
            put_fault(out, &fault);
        }
    }
    out.word("; ");
}

fn put_entries(out: &mut Answer, entries: &[Value]) {
    for entry in entries {
        put_entry(out, entry);
    }
    out.word("end");
}

fn list(out: &mut Answer, value: &Value) {
    match items_in(value) {
        Some(entries) => put_entries(out, entries),
        None => put_fault(out, &FieldFault::kind("list")),
    }
}

/// Puts what a verb asks of a value.
fn put_value(out: &mut Answer, verb: &str, value: &Value) {
    match verb {
        "number" => number(out, value),
        "object" => object(out, value),
        "coin" => coin(out, value),
        "list" => list(out, value),
        _ => out.word("no such verb"),
    }
}

pub(crate) fn row(out: &mut Answer, verb: &str, columns: &[&str]) {
    let mut scratch = Scratch::new(out.alloc);
    match parse(out.alloc, column(columns, 0).as_bytes(), &mut scratch) {
        Ok(value) => put_value(out, verb, &value),
        Err(fault) => put_fault(out, &fault),
    }
}

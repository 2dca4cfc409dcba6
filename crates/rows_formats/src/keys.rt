//! Keys files. The fault of a file is its first.
//!
//! - `read TEXT SCRIPT`: what the file tells of the script, a line for each part, and its extended public keys. A key has the
//!   fingerprint of its master key behind it, and the indices of its path
//! - `add TEXT PSBT`: the PSBT with what the file tells of it, or why it can't be added; and what adding it once more makes of the
//!   result, where that isn't the same

use crate::{fields, psbts};
use fund_base::Script;
use keys_text::{KeyPath, Keys, KeysFault, ScriptKeys, read_keys};
use psbt_keys::{KeyFault, add_keys};
use row_columns::{Answer, bytes_in, column};

/// Puts a key with its fingerprint and its path.
fn put_key(out: &mut Answer, word: &str, key: &KeyPath) {
    out.digits(word, &key.key);
    out.digits(" ", &key.fingerprint);
    for index in key.path.as_slice() {
        out.number(" ", u64::from(*index));
    }
}

fn put_keys(out: &mut Answer, word: &str, keys: &[KeyPath]) {
    for key in keys {
        put_key(out, word, key);
    }
}

fn put_script(out: &mut Answer, word: &str, script: &Option<Script>) {
    if let Some(script) = script {
        out.digits(word, script.bytes());
    }
}

/// Puts what is known of a script.
fn put_known(out: &mut Answer, known: &ScriptKeys) {
    out.word("known");
    put_script(out, "\nredeem ", &known.redeem);
    put_script(out, "\nwitness ", &known.witness);
    if let Some(internal) = &known.internal {
        out.digits("\ninternal ", internal);
    }
    put_keys(out, "\nkey ", &known.keys);
}

/// Puts what the keys tell of a script, and the extended public keys.
fn put_file(out: &mut Answer, keys: &Keys, script: &[u8]) {
    match keys.known_of(script) {
        Some(known) => put_known(out, known),
        None => out.word("unknown"),
    }
    put_keys(out, "\nxpub ", keys.xpubs());
}

/// Puts a fault of the entry at this index.
fn put_place(out: &mut Answer, fault: &str, index: u32) {
    out.number(fault, u64::from(index));
}

/// Puts a fault of the key at this place of the entry at this index.
fn put_places(out: &mut Answer, fault: &str, index: u32, place: u32) {
    put_place(out, fault, index);
    put_place(out, " ", place);
}

fn put_fault(out: &mut Answer, fault: &KeysFault) {
    out.word("fault ");
    match fault {
        KeysFault::Field(fault) => fields::put_fault(out, fault),
        KeysFault::Script(index) => put_place(out, "Script ", *index),
        KeysFault::Redeem(index) => put_place(out, "Redeem ", *index),
        KeysFault::Witness(index) => put_place(out, "Witness ", *index),
        KeysFault::Internal(index) => put_place(out, "Internal ", *index),
        KeysFault::Key(index, place) => put_places(out, "Key ", *index, *place),
        KeysFault::RepeatKey(index, place) => put_places(out, "RepeatKey ", *index, *place),
        KeysFault::Xpub(index) => put_place(out, "Xpub ", *index),
        KeysFault::RepeatXpub(index) => put_place(out, "RepeatXpub ", *index),
    }
}

fn read(out: &mut Answer, text: &[u8], script: &[u8]) {
    match read_keys(out.alloc, text) {
        Ok(keys) => put_file(out, &keys, script),
        Err(fault) => put_fault(out, &fault),
    }
}

/// Puts a map of a PSBT, its index, and the type of the pair in the way.
fn put_pair(out: &mut Answer, map: &str, index: u32, kind: u8) {
    put_place(out, map, index);
    out.number(" ", u64::from(kind));
}

fn put_conflict(out: &mut Answer, fault: KeyFault) {
    match fault {
        KeyFault::Psbt(fault) => psbts::put_fault(out, &fault),
        KeyFault::Global(number) => put_place(out, "fault Global ", number),
        KeyFault::Input(index, kind) => put_pair(out, "fault Input ", index, kind),
        KeyFault::Output(index, kind) => put_pair(out, "fault Output ", index, kind),
    }
}

/// Puts what adding the keys once more makes of a PSBT that has them.
fn put_again(out: &mut Answer, keys: &Keys, keyed: &[u8]) {
    match add_keys(out.alloc, keyed, keys) {
        Ok(again) => out.again(keyed, &again),
        Err(fault) => put_conflict(out, fault),
    }
}

fn put_keyed(out: &mut Answer, keys: &Keys, bytes: &[u8]) {
    match add_keys(out.alloc, bytes, keys) {
        Ok(keyed) => {
            out.digits("keyed ", &keyed);
            put_again(out, keys, &keyed);
        }
        Err(fault) => put_conflict(out, fault),
    }
}

fn add(out: &mut Answer, text: &[u8], bytes: &[u8]) {
    match read_keys(out.alloc, text) {
        Ok(keys) => put_keyed(out, &keys, bytes),
        Err(fault) => put_fault(out, &fault),
    }
}

pub(crate) fn row(out: &mut Answer, verb: &str, columns: &[&str]) {
    let text = column(columns, 0).as_bytes();
    let bytes = bytes_in(out.alloc, column(columns, 1));
    match verb {
        "read" => read(out, text, &bytes),
        "add" => add(out, text, &bytes),
        _ => out.word("no such verb"),
    }
}

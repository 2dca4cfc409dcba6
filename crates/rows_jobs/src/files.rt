//! Rows of files of the current folder.
//!
//! - `file copy FROM TO MOST`: a file is made of the first bytes of another, so many at most
//! - `file alike FIRST SECOND LABEL`: prints whether two files are the same
//! - `file private NAME LABEL`: prints whether a file is its owner's alone
//! - `file remove NAME`: removes a file, where it is there
//! - `file folder NAME`, `file unfolder NAME`: makes a folder, and removes one

use crate::saves::{put_line, say};
use row_columns::{Answer, column, number_in};
use std::os::unix::fs::MetadataExt;
use std::{fs, io};

/// Makes a file of the first bytes of another.
fn copy(rt: &HostRuntime, from: &str, to: &str, most: u64) -> io::Result<()> {
    let bytes = fs::read(rt, from)?;
    let count = (bytes.len() as u64).min(most) as usize;
    fs::write(rt, to, bytes.get(..count).unwrap_or(&[]))
}

/// Whether two files are the same.
fn alike(rt: &HostRuntime, first: &str, second: &str) -> io::Result<bool> {
    let first = fs::read(rt, first)?;
    let second = fs::read(rt, second)?;
    Ok(first.as_slice() == second.as_slice())
}

/// Whether a file is its owner's alone.
fn is_private(rt: &HostRuntime, name: &str) -> io::Result<bool> {
    let mode = fs::metadata(rt, name)?.mode() & 0o777;
    Ok(mode == 0o600)
}

/// Does a row of files.
pub(crate) fn row(rt: &HostRuntime, out: &mut Answer, columns: &[&str]) -> io::Result<()> {
    let (name, other) = (column(columns, 1), column(columns, 2));
    match column(columns, 0) {
        "copy" => return copy(rt, name, other, number_in(column(columns, 3), u64::MAX)),
        "alike" => put_line(out, column(columns, 3), say(alike(rt, name, other)?)),
        "private" => put_line(out, other, say(is_private(rt, name)?)),
        "folder" => return fs::create_dir(rt, name),
        "unfolder" => return fs::remove_dir(rt, name),
        _ => {
            let _ = fs::remove_file(rt, name);
        }
    }
    Ok(())
}

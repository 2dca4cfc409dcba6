//! Files in memory and of the system, read and written, where some calls fail.

ghost use Rattle.std.specs.Prelude.{◌≤◌};

use fund_base::Memory;
use fund_shelf::{Fault, FileShelf, MemShelf, ReadError, Shelf, SureShelf, read_whole};
use row_columns::Answer;
use std::alloc::Global;
use std::fs;

/// A name and as many bytes, each the rest of its place by 251.
fn file_of(alloc: Global, name: &str, len: u32) -> Result<(String, Vec<u8>), Memory> {
    let mut bytes = Vec::new(alloc);
    for index in 0..len {
        bytes.push((index % 251) as u8)?;
    }
    Ok((String::from_str(alloc, name)?, bytes))
}

/// How many of the first bytes are the rest of their place by 251.
fn count_as_made(bytes: &[u8]) -> usize {
    for index in 0..bytes.len() {
        if bytes[index] as usize != index % 251 {
            return index;
        }
    }
    bytes.len()
}

/// Puts a few bytes in hex, or how many there are and how many of the first are as they were made.
fn put_bytes(out: &mut Answer, bytes: &[u8]) {
    if bytes.len() <= 16 {
        out.digits("", bytes);
    } else {
        out.number("", bytes.len() as u64);
        out.number(" bytes, ", count_as_made(bytes) as u64);
        out.word(" as made");
    }
}

/// Puts a line of bytes, which may be missing.
fn put_held(out: &mut Answer, name: &str, bytes: Option<&[u8]>) {
    out.word("file ");
    out.word(name);
    out.word(": ");
    match bytes {
        Some(bytes) => put_bytes(out, bytes),
        None => out.word("none"),
    }
    out.word("\n");
}

/// Reads a whole file, and puts a line of it.
fn put_whole<H: Shelf>(out: &mut Answer, shelf: &mut H, name: &str, limit: usize)
    requires { limit ≤ 1_000_000 }
{
    out.number("at most ", limit as u64);
    out.word(" bytes of ");
    out.word(name);
    out.word(": ");
    match read_whole(out.alloc, shelf, name, limit) {
        Ok(bytes) => put_bytes(out, &bytes),
        Err(ReadError::Failed) => out.word("Failed"),
        Err(ReadError::TooLong) => out.word("TooLong"),
        Err(ReadError::Memory) => out.word("Memory"),
    }
    out.word("\n");
}

/// Puts how a call ended.
pub(crate) fn put_end(out: &mut Answer, end: Result<(), Fault>) {
    match end {
        Ok(()) => out.word("done\n"),
        Err(Fault::Failed) => out.word("Failed\n"),
        Err(Fault::Memory) => out.word("Memory\n"),
    }
}

/// Writes a file, and puts how that ended.
fn put_write<H: Shelf>(out: &mut Answer, shelf: &mut H, name: &str, bytes: &[u8]) {
    out.word("write ");
    out.word(name);
    out.word(": ");
    put_end(out, shelf.write_file(name, bytes));
}

/// Two files, of which one has three pieces, where the reads numbered 4 and 9 fail.
fn failing_shelf(alloc: Global) -> Result<MemShelf, Memory> {
    let mut files = Vec::new(alloc);
    files.push(file_of(alloc, "a", 5)?)?;
    files.push(file_of(alloc, "b", 300_000)?)?;
    let fails = Vec::from_slice(alloc, &[4, 9])?;
    Ok(MemShelf::new(alloc, files, fails, Vec::new(alloc)))
}

/// The file of three pieces is read in four calls, the last of them at its end. The first of the second reading fails, and
/// the second of the fourth.
pub(crate) fn reads(out: &mut Answer) -> Result<(), Memory> {
    let mut shelf = failing_shelf(out.alloc)?;
    put_whole(out, &mut shelf, "b", 300_000);
    put_whole(out, &mut shelf, "b", 300_000);
    put_whole(out, &mut shelf, "b", 299_999);
    put_whole(out, &mut shelf, "b", 300_000);
    put_held(out, "b", shelf.file("b"));
    put_whole(out, &mut shelf, "a", 5);
    put_whole(out, &mut shelf, "a", 4);
    put_whole(out, &mut shelf, "c", 10);
    Ok(())
}

/// The second write fails, and the file is as before.
pub(crate) fn writes(out: &mut Answer) -> Result<(), Memory> {
    let alloc = out.alloc;
    let fails = Vec::from_slice(alloc, &[1])?;
    let mut shelf = MemShelf::new(alloc, Vec::new(alloc), Vec::new(alloc), fails);
    put_held(out, "log", shelf.file("log"));
    for bytes in [b"\x01".as_slice(), b"\x02\x02", b"\x03\x03\x03"] {
        put_write(out, &mut shelf, "log", bytes);
        put_held(out, "log", shelf.file("log"));
    }
    Ok(())
}

/// Reads a piece of a file, and puts its bytes behind the 9s that stood there.
fn put_piece(out: &mut Answer, shelf: &mut SureShelf) {
    let mut piece = [9; 4];
    if let Ok(count) = shelf.read_at("a", 1, &mut piece) {
        out.number("read ", count as u64);
        out.digits(" bytes: ", &piece);
    }
    out.word("\n");
}

/// A shelf that never fails, where a missing file is read as an empty one.
pub(crate) fn sure(out: &mut Answer) -> Result<(), Memory> {
    let mut files = Vec::new(out.alloc);
    files.push(file_of(out.alloc, "a", 3)?)?;
    let mut shelf = SureShelf::new(out.alloc, files);
    put_piece(out, &mut shelf);
    put_whole(out, &mut shelf, "b", 0);
    put_held(out, "b", shelf.file("b"));
    put_write(out, &mut shelf, "b", b"\x0b\xbb");
    put_held(out, "b", shelf.file("b"));
    Ok(())
}

/// A file of the system, which is removed in the end.
pub(crate) fn file(rt: &HostRuntime, out: &mut Answer) {
    let name = "rows_formats.tmp";
    let mut shelf = FileShelf::new(rt);
    put_write(out, &mut shelf, name, b"some bytes");
    put_whole(out, &mut shelf, name, 10);
    put_whole(out, &mut shelf, name, 9);
    let _ = fs::remove_file(rt, name);
    put_whole(out, &mut shelf, name, 10);
}

/// Reads a piece of a file, and puts how that ended.
fn put_count<H: Shelf>(out: &mut Answer, shelf: &mut H, name: &str, at: u64)
    requires { at ≤ 1_000_000 }
{
    let mut piece = [0; 16];
    out.number("read at ", at);
    out.word(" of ");
    out.word(name);
    match shelf.read_at(name, at, &mut piece) {
        Ok(count) => out.number(": bytes ", count as u64),
        Err(_) => out.word(": Failed"),
    }
    out.word("\n");
}

/// A folder in place of a file, read from its front and from after a piece, and files that can't be written.
pub(crate) fn refused(rt: &HostRuntime, out: &mut Answer) {
    let mut shelf = FileShelf::new(rt);
    put_whole(out, &mut shelf, ".", 10);
    put_count(out, &mut shelf, ".", 0);
    put_count(out, &mut shelf, ".", 200_000);
    put_write(out, &mut shelf, ".", b"some bytes");
    put_write(out, &mut shelf, "/dev/full", b"some bytes");
}

//! A request and a log that are held in memory, beside other files.

ghost use Rattle.std.specs.Prelude.{◌≡◌, ◌≤◌, [], ◌∷◌, ◌++◌, length, map, string_bytes, OnOk, OnErr};
ghost use Rattle.fund_shelf.specs.Causes.{IsRead};
ghost use Rattle.held_run.specs.Held.{held_view, log_name, request_name};

use fund_shelf::{Fault, Shelf};
use std::alloc::{AllocError, Global};

/// The name of the request. It begins with a NUL, as the name of no file of the system does.
pub fn request_name() -> &'static str
    ensures { result.now ≡ request_name }
{
    "\0request"
}

/// The name of the log, which is such a name too.
pub fn log_name() -> &'static str
    ensures { result.now ≡ log_name }
{
    "\0log"
}

/// The files of another shelf, but for two that are held in memory: a request, and a log, which is written there. Any other
/// name is read and written at the other shelf.
#[derive(Drop)]
pub struct RequestShelf<H: Shelf + Drop> {
    alloc: Global,
    shelf: H,
    request: Vec<u8>,
    log: Vec<u8>,
    // The name that each read asked for.
    asked: Vec<String>,
}

impl<H: Shelf + Drop> RequestShelf<H> {
    /// This request, and an empty log, beside the files of the other shelf.
    pub fn new(alloc: Global, shelf: H, request: Vec<u8>) -> RequestShelf<H>
        ensures { held_view (H.view result.shelf) result.request.items result.log.items (map string_bytes result.asked.items) ≡ held_view (H.view shelf) request.items [] [] }
    {
        RequestShelf {
            alloc,
            shelf,
            request,
            log: Vec::new(alloc),
            asked: Vec::new(alloc),
        }
    }

    /// The bytes of the log that is held.
    pub fn log(&self) -> &[u8]
        ensures { result.now ≡ self.now.log.items }
    {
        self.log.as_slice()
    }

    /// The other shelf, as it is by now. The request and the log are given up.
    pub fn into_files(self) -> H
        ensures { (H.view result) ≡ (H.view self.shelf) }
    {
        let RequestShelf { shelf, .. } = self;
        shelf
    }
}

/// Copies what the file has from place `at` on to `buf`, as far as there is room.
fn copy_from(file: &[u8], at: u64, buf: &mut [u8]) -> usize
    ensures bound { result ≤ length buf.new }
    ensures read { IsRead file.now at result buf.new }
{
    let at = at as usize;
    if file.len() <= at {
        return 0;
    }
    let rest = &file[at..];
    let count = rest.len().min(buf.len());
    buf[..count].copy_from_slice(&rest[..count]);
    count
}

/// Adds a name to those that were asked for. Where memory is short they are as before.
fn ask(alloc: Global, asked: &mut Vec<String>, name: &str) -> Result<(), AllocError>
    ensures ok { OnOk result (map string_bytes asked.new.items ≡ map string_bytes asked.old.items ++ name.now ∷ []) }
    ensures err { OnErr result (asked.new.items ≡ asked.old.items) }
{
    asked.push(String::from_str(alloc, name)?)?;
    Ok(())
}

/// Makes these bytes the whole of a file. Where memory is short it is as before.
fn replace(alloc: Global, file: &mut Vec<u8>, bytes: &[u8]) -> Result<(), AllocError>
    ensures ok { OnOk result (file.new.items ≡ bytes.now) }
    ensures err { OnErr result (file.new.items ≡ file.old.items) }
{
    *file = Vec::from_slice(alloc, bytes)?;
    Ok(())
}

impl<H: Shelf + Drop> Shelf for RequestShelf<H> {
    ghost tells = { H.tells };

    ghost view = { λ s. held_view (H.view s.shelf) s.request.items s.log.items (map string_bytes s.asked.items) };

    fn read_at(&mut self, name: &str, at: u64, buf: &mut [u8]) -> Result<usize, Fault> {
        ask(self.alloc, &mut self.asked, name)?;
        if name == request_name() {
            return Ok(copy_from(self.request.as_slice(), at, buf));
        }
        if name == log_name() {
            return Ok(copy_from(self.log.as_slice(), at, buf));
        }
        self.shelf.read_at(name, at, buf)
    }

    fn write_file(&mut self, name: &str, bytes: &[u8]) -> Result<(), Fault> {
        if name == request_name() {
            replace(self.alloc, &mut self.request, bytes)?;
            return Ok(());
        }
        if name == log_name() {
            replace(self.alloc, &mut self.log, bytes)?;
            return Ok(());
        }
        self.shelf.write_file(name, bytes)
    }
}

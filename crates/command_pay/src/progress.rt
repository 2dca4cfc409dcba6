//! Files of which it is told how far they are read.

ghost use Rattle.std.specs.Prelude.{◌≡◌, ◌↔◌, ◌<◌, ◌+◌, ◌*◌, ◌/◌, IsOkAnd, IsTrue, min};

use fund_shelf::{Fault, Shelf};
use std::io::Eprint;

/// How many bytes are read between two lines: 64 MiB.
const STEP: u64 = 67_108_864;

/// The files of another shelf. Each time that 64 MiB more of a file are read, a line on the standard error names the file and
/// says how many MiB were. Whether that line is written changes nothing.
#[derive(Drop)]
pub struct ProgressShelf<'a, R: Eprint, H: Shelf + Drop> {
    rt: &'a R,
    shelf: H,
    told: bool,
    // The place from which on a line is due.
    next: u64,
}

impl<'a, R: Eprint, H: Shelf + Drop> ProgressShelf<'a, R, H> {
    /// The files of this shelf; lines are told only where `told` says so.
    pub fn new(rt: &'a R, shelf: H, told: bool) -> ProgressShelf<'a, R, H>
        ensures view { (H.view result.shelf) ≡ (H.view shelf) }
        ensures told { result.told ≡ told }
        ensures next { result.next ≡ 67_108_864 }
    {
        ProgressShelf {
            rt,
            shelf,
            told,
            next: STEP,
        }
    }
}

/// Says how far the file of this name is read.
fn tell<R: Eprint>(rt: &R, name: &str, at: u64) {
    let mebibytes = at / 1_048_576;
    let _ = eprintln!(rt; "{}: {} MiB read", name, mebibytes);
}

/// The place from which on the next line is due, once this place was read.
fn next_after(at: u64) -> u64
    ensures { result ≡ min ((at / 67_108_864 + 1) * 67_108_864) 18_446_744_073_709_551_615 }
{
    (at / STEP).saturating_add(1).saturating_mul(STEP)
}

/// Whether bytes were read. A look behind the end of a file reads none, and nothing is told of it.
fn has_some(read: &Result<usize, Fault>) -> bool
    ensures { IsTrue result ↔ IsOkAnd read.now (λ count. 0 < count) }
{
    match read {
        Ok(count) => *count > 0,
        Err(_) => false,
    }
}

impl<'a, R: Eprint, H: Shelf + Drop> Shelf for ProgressShelf<'a, R, H> {
    ghost tells = { H.tells };

    ghost view = { λ s. H.view s.shelf };

    fn read_at(&mut self, name: &str, at: u64, buf: &mut [u8]) -> Result<usize, Fault> {
        let read = self.shelf.read_at(name, at, buf);
        if has_some(&read) {
            if self.told && at >= self.next {
                tell(self.rt, name, at);
            }
            self.next = next_after(at);
        }
        read
    }

    fn write_file(&mut self, name: &str, bytes: &[u8]) -> Result<(), Fault> {
        self.shelf.write_file(name, bytes)
    }
}

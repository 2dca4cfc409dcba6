//! A file that is given in pieces.

ghost use Rattle.std.specs.Prelude.{◌≤◌, length};

use fund_shelf::{Fault, MemShelf, Shelf};

/// A shelf that gives at most so many bytes at each read, in turn, and then again from the first number on. A file that is
/// shorter than so many zeros goes on with zero bytes up to there.
pub(crate) struct Pieces {
    pub(crate) shelf: MemShelf,
    pub(crate) sizes: Vec<usize>,
    pub(crate) turn: usize,
    pub(crate) zeros: u64,
}

/// One call, wherever it is dropped.
impl Drop for Pieces {
    fn drop(self) {
        let Pieces {
            shelf: _,
            sizes: _,
            turn: _,
            zeros: _,
        } = self;
    }
}

/// Makes each byte zero, up to the first so many, and tells how many they are.
fn clear(bytes: &mut [u8], count: u64) -> usize
    ensures { result ≤ length bytes.new }
{
    let count = count.min(bytes.len() as u64) as usize;
    for byte in bytes.iter_mut() {
        *byte = 0;
    }
    count
}

impl Shelf for Pieces {
    ghost use Rattle.fund_shelf.specs.MemShelf.{view_of};

    ghost tells = { ⊥ };

    ghost view = { λ s. view_of s.shelf };

    fn read_at(&mut self, name: &str, at: u64, buf: &mut [u8]) -> Result<usize, Fault> {
        let size = self.sizes.get(self.turn).copied().unwrap_or(1);
        let turn = self.turn.wrapping_add(1);
        self.turn = turn.checked_rem(self.sizes.len()).unwrap_or(0);
        let end = buf.len().min(size);
        let count = self.shelf.read_at(name, at, &mut buf[..end])?;
        if count > 0 {
            return Ok(count);
        }
        Ok(clear(buf, self.zeros.saturating_sub(at)))
    }

    fn write_file(&mut self, name: &str, bytes: &[u8]) -> Result<(), Fault> {
        self.shelf.write_file(name, bytes)
    }
}

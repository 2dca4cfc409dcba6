//! A file that changes between its readings.

ghost use Rattle.std.specs.Prelude.{◌≤◌, [], IfOk, length};

use fund_base::Memory;
use fund_shelf::{Fault, MemShelf, Shelf};
use std::alloc::Global;

/// Files in memory, of which the file of one name is another one at each of its readings; a reading begins at place 0. A missing
/// file is an empty one, and no read and no write fails.
#[derive(Drop)]
pub(crate) struct Turning {
    shelf: MemShelf,
    // The name of the file that changes, and those of what it is at its first reading, its second, and so on; it stays the last.
    name: String,
    turns: Vec<String>,
    readings: usize,
}

impl Turning {
    /// The files of a shelf, of which the file of a name is at its readings in turn what the files of these names are, which stand
    /// in a column with blanks between them.
    pub(crate) fn new(
        alloc: Global,
        shelf: MemShelf,
        name: &str,
        column: &str,
    ) -> Result<Turning, Memory> {
        let mut turns = Vec::new(alloc);
        for turn in column.split(' ') {
            turns.push(String::from_str(alloc, turn)?)?;
        }
        let name = String::from_str(alloc, name)?;
        Ok(Turning {
            shelf,
            name,
            turns,
            readings: 0,
        })
    }

    /// Reads from a file, which is what it is at this reading.
    fn read(&mut self, name: &str, at: u64, buf: &mut [u8]) -> Result<usize, Fault>
        requires { at ≤ 1073741824 }
        ensures { IfOk result (λ n. n ≤ length buf.new) }
    {
        if name != self.name.as_str() {
            return self.shelf.read_at(name, at, buf);
        }
        if at == 0 {
            self.readings = self.readings.saturating_add(1);
        }
        let last = self.turns.len().saturating_sub(1);
        let turn = self.readings.saturating_sub(1).min(last);
        match self.turns.get(turn) {
            Some(name) => self.shelf.read_at(name.as_str(), at, buf),
            None => Ok(0),
        }
    }

    /// The files of the shelf.
    pub(crate) fn into_shelf(self) -> MemShelf {
        let Turning {
            shelf,
            name: _,
            turns: _,
            readings: _,
        } = self;
        shelf
    }
}

impl Shelf for Turning {
    ghost tells = { ⊥ };

    ghost view = { λ _. record { files = λ _. []; reads = λ _. 0; writes = λ _. 0; asked = [] } };

    fn read_at(&mut self, name: &str, at: u64, buf: &mut [u8]) -> Result<usize, Fault> {
        match self.read(name, at, buf) {
            Ok(count) => Ok(count),
            Err(Fault::Failed) => Ok(0),
            Err(Fault::Memory) => Err(Fault::Memory),
        }
    }

    fn write_file(&mut self, name: &str, bytes: &[u8]) -> Result<(), Fault> {
        match self.shelf.write_file(name, bytes) {
            Ok(()) | Err(Fault::Failed) => Ok(()),
            Err(Fault::Memory) => Err(Fault::Memory),
        }
    }
}

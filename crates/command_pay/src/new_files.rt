//! The files of the system. A write asks for a new file.

ghost use Rattle.std.specs.Prelude.{◌≡◌, ◌≢◌, ◌≤◌, [], length, IfOk, OnErr, OnOk, IsErrOf, IsTrue, Err, Ok};
ghost use Rattle.std.specs.Fs.{asks_create_new, asks_write};
ghost use Rattle.fund_shelf.specs.Causes.{NeverFall, Rose, one_more};

use fund_shelf::{Fault, FileShelf, Shelf};
use std::fs::OpenOptions;
use std::io::{self, Write};
use std::rt::Files;

/// The files of the system, by path. They are read as those of [`FileShelf`]; and a file is written only where there is none
/// of its name. Otherwise that is a failure, and the file that is there stays as it was. It tells nothing of their content.
#[derive(Drop)]
pub struct NewFileShelf<'a, R: Files> {
    rt: &'a R,
    files: FileShelf<&'a R>,
    writes: u64,
}

impl<'a, R: Files> NewFileShelf<'a, R> {
    ghost use Rattle.fund_shelf.specs.FileShelf.{view_of};

    /// The files that `rt` reaches, without a failure so far.
    pub fn new(rt: &'a R) -> NewFileShelf<'a, R>
        ensures files { view_of result.files ≡ record { files = λ _. []; reads = λ _. 0; writes = λ _. 0; asked = [] } }
        ensures writes { result.writes ≡ 0 }
    {
        NewFileShelf {
            rt,
            files: FileShelf::new(rt),
            writes: 0,
        }
    }
}

/// How a file is opened to be written: the system makes it, and refuses where there is one of its name (`O_CREAT` with `O_EXCL`
/// of POSIX).
fn for_a_new_file() -> OpenOptions
    ensures write { IsTrue (asks_write result) }
    ensures new { IsTrue (asks_create_new result) }
{
    let mut options = OpenOptions::new();
    options.write(true);
    options.create_new(true);
    options
}

/// Writes a file that isn't there yet.
fn write_new<R: Files>(rt: &R, name: &str, bytes: &[u8]) -> io::Result<()> {
    let mut file = for_a_new_file().open(rt, name)?;
    file.write_all(bytes)
}

/// An answer of the system, told to whoever asked: whatever its error is, it is a failure, which is counted. It is never told
/// as out of memory.
fn told(answer: io::Result<()>, failures: &mut u64) -> Result<(), Fault>
    ensures given { IfOk answer (λ given. result ≡ Ok given) }
    ensures uncounted { OnOk answer (failures.new ≡ failures.old) }
    ensures failed { OnErr answer (result ≡ Err Fault.Failed) }
    ensures counted { OnErr answer (failures.new ≡ one_more failures.old) }
    ensures grows { failures.old ≤ failures.new }
    ensures cause { IsErrOf result Fault.Failed → Rose failures.old failures.new }
    ensures one_more { IsErrOf result Fault.Failed → failures.new ≡ one_more failures.old }
    ensures unfailed { OnOk result (failures.new ≡ failures.old) }
    ensures short { result ≢ Err Fault.Memory }
{
    match answer {
        Ok(()) => Ok(()),
        Err(_) => {
            *failures = failures.saturating_add(1);
            Err(Fault::Failed)
        }
    }
}

impl<'a, R: Files> Shelf for NewFileShelf<'a, R> {
    ghost use Rattle.fund_shelf.specs.FileShelf.{view_of};
    ghost use Rattle.command_pay.specs.Written.{new_file_view};

    ghost tells = { ⊥ };

    ghost view = { λ s. new_file_view (⟦<FileShelf<&'a R> as Shelf>⟧.view s.files) s.writes };

    fn read_at(&mut self, name: &str, at: u64, buf: &mut [u8]) -> Result<usize, Fault>
        requires { at ≤ 1073741824 }
        ensures bound { IfOk result (λ n. n ≤ length buf.new) }
        ensures reads { NeverFall (view_of self.old.files).reads (view_of self.new.files).reads }
        ensures writes { self.new.writes ≡ self.old.writes }
        ensures cause { IsErrOf result Fault.Failed → Rose ((view_of self.old.files).reads name.now) ((view_of self.new.files).reads name.now) }
        ensures unfailed { OnOk result ((view_of self.new.files).reads ≡ (view_of self.old.files).reads) }
        ensures short { IsErrOf result Fault.Memory → (view_of self.new.files).reads ≡ (view_of self.old.files).reads }

        // Whatever the system's error is, it is told as a failure.
        ensures failed { result ≢ Err Fault.Memory }
    {
        self.files.read_at(name, at, buf)
    }

    fn write_file(&mut self, name: &str, bytes: &[u8]) -> Result<(), Fault>
        ensures reads { self.new.files ≡ self.old.files }
        ensures writes { self.old.writes ≤ self.new.writes }
        ensures cause { IsErrOf result Fault.Failed → Rose self.old.writes self.new.writes }
        ensures unfailed { OnOk result (self.new.writes ≡ self.old.writes) }
        ensures short { IsErrOf result Fault.Memory → self.new.writes ≡ self.old.writes }

        // Whatever the system's error is, it is told as a failure.
        ensures counted { IsErrOf result Fault.Failed → self.new.writes ≡ one_more self.old.writes }
        ensures failed { result ≢ Err Fault.Memory }
    {
        told(write_new(self.rt, name, bytes), &mut self.writes)
    }
}

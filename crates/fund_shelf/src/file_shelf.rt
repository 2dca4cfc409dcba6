//! The files of the system.

ghost use Rattle.std.specs.Prelude.{◌≡◌, ◌≢◌, ◌≤◌, ℕ, List, [], length, IfOk, OnOk, IsErrOf, Err};
ghost use Rattle.fund_shelf.specs.Causes.{Rose, NeverFall, one_more};

use crate::shelf::{Fault, Shelf};
use crate::system::told;
use std::fs;
use std::io::{self, Read, Seek, SeekFrom};
use std::rt::Files;

/// The files of the system, by path. Each call opens the file anew. It tells nothing of their content nor of the names
/// that were asked for, and each of its two counts stands for every name.
#[derive(Drop)]
pub struct FileShelf<R: Files + Drop> {
    rt: R,
    reads: u64,
    writes: u64,
}

impl<R: Files + Drop> FileShelf<R> {
    ghost use Rattle.fund_shelf.specs.FileShelf.{view_of};

    /// The files that `rt` reaches, without a failure so far.
    pub fn new(rt: R) -> FileShelf<R>
        ensures { view_of result ≡ record { files = λ _. []; reads = λ _. 0; writes = λ _. 0; asked = [] } }
    {
        FileShelf {
            rt,
            reads: 0,
            writes: 0,
        }
    }
}

// One read of a file that is opened for it.
fn read_piece<R: Files>(rt: &R, name: &str, at: u64, buf: &mut [u8]) -> io::Result<usize>
    ensures { IfOk result (λ n. n ≤ length buf.new) }
{
    let mut file = fs::open(rt, name)?;
    file.seek(SeekFrom::Start(at))?;
    file.read(buf)
}

impl<R: Files + Drop> Shelf for FileShelf<R> {
    ghost use Rattle.fund_shelf.specs.FileShelf.{view_of};

    ghost tells = { ⊥ };

    ghost view = { view_of };

    fn read_at(&mut self, name: &str, at: u64, buf: &mut [u8]) -> Result<usize, Fault>
        requires { at ≤ 1073741824 }
        ensures bound { IfOk result (λ n. n ≤ length buf.new) }
        ensures reads { NeverFall (view_of self.old).reads (view_of self.new).reads }
        ensures writes { (view_of self.new).writes ≡ (view_of self.old).writes }
        ensures cause { IsErrOf result Fault.Failed → Rose ((view_of self.old).reads name.now) ((view_of self.new).reads name.now) }
        ensures unfailed { OnOk result ((view_of self.new).reads ≡ (view_of self.old).reads) }
        ensures short { IsErrOf result Fault.Memory → (view_of self.new).reads ≡ (view_of self.old).reads }

        // Whatever the system's error is, it is told as a failure.
        ensures counted { IsErrOf result Fault.Failed → (view_of self.new).reads name.now ≡ one_more ((view_of self.old).reads name.now) }
        ensures failed { result ≢ Err Fault.Memory }
    {
        told(read_piece(&self.rt, name, at, buf), &mut self.reads)
    }

    fn write_file(&mut self, name: &str, bytes: &[u8]) -> Result<(), Fault>
        ensures reads { (view_of self.new).reads ≡ (view_of self.old).reads }
        ensures writes { NeverFall (view_of self.old).writes (view_of self.new).writes }
        ensures cause { IsErrOf result Fault.Failed → Rose ((view_of self.old).writes name.now) ((view_of self.new).writes name.now) }
        ensures unfailed { OnOk result ((view_of self.new).writes ≡ (view_of self.old).writes) }
        ensures short { IsErrOf result Fault.Memory → (view_of self.new).writes ≡ (view_of self.old).writes }
        ensures asked { (view_of self.new).asked ≡ (view_of self.old).asked }

        // Whatever the system's error is, it is told as a failure.
        ensures counted { IsErrOf result Fault.Failed → (view_of self.new).writes name.now ≡ one_more ((view_of self.old).writes name.now) }
        ensures failed { result ≢ Err Fault.Memory }
    {
        told(fs::write(&self.rt, name, bytes), &mut self.writes)
    }
}

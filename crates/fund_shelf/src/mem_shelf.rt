//! Files in memory, of which some reads and writes fail.

ghost use Rattle.std.specs.Prelude.{◌≡◌, ◌≢◌, ◌≤◌, ◌+◌, List, ℕ, [], ◌∷◌, ◌++◌, length, option_copied, Some, Err, IfOk, OnOk, OnErr, IsErrOf, IsTrue, IsFalse};
ghost use Rattle.fund_shelf.specs.Causes.{Asks, Rose, NeverFall, IsRead, SameElsewhere};
ghost use Rattle.fund_shelf.specs.Failures.{is_due, after_call};
ghost use Rattle.fund_shelf.specs.Files.{file_of, bytes_of, times};

use crate::failures::Failures;
use crate::shelf::{Fault, Shelf};
use crate::store;
use std::alloc::Global;

/// Files in memory whose failures are told beforehand. A read of a missing file fails too. It keeps the name of each
/// read, for which memory may be short.
#[derive(Drop)]
pub struct MemShelf {
    alloc: Global,
    files: Vec<(String, Vec<u8>)>,
    reads: Failures,
    writes: Failures,
    // The name of each read and of each write that failed.
    failed_reads: Vec<String>,
    failed_writes: Vec<String>,
    // The name that each read asked for.
    asked: Vec<String>,
}

impl MemShelf {
    ghost use Rattle.fund_shelf.specs.MemShelf.{view_of, file_in, read_plan, write_plan};

    /// These files, the first where two have one name. `read_fails` has the numbers, from 0, of the
    /// calls of `read_at` that are to fail, and `write_fails` those of `write_file`.
    pub fn new(
        alloc: Global,
        files: Vec<(String, Vec<u8>)>,
        read_fails: Vec<u64>,
        write_fails: Vec<u64>,
    ) -> MemShelf
        ensures view { view_of result ≡ record { files = bytes_of files.items; reads = λ _. 0; writes = λ _. 0; asked = [] } }
        ensures files { file_in result ≡ file_of files.items }
        ensures reads { read_plan result ≡ record { numbers = read_fails.items; next = 0 } }
        ensures writes { write_plan result ≡ record { numbers = write_fails.items; next = 0 } }
    {
        MemShelf {
            alloc,
            files,
            reads: Failures::new(read_fails),
            writes: Failures::new(write_fails),
            failed_reads: Vec::new(alloc),
            failed_writes: Vec::new(alloc),
            asked: Vec::new(alloc),
        }
    }

    /// The bytes of the file of this name. None exactly where there is none.
    pub fn file(&self, name: &str) -> Option<&[u8]>
        ensures { option_copied result ≡ file_in self.now name.now }
    {
        store::find(self.files.as_slice(), name)
    }
}

// The failure of a call that was given this name, once it is counted. Without memory it isn't.
#[tactic(auto, using(crate::proofs::Counts::times_push, crate::proofs::Counts::times_other, crate::proofs::Counts::times_grow))]
fn failure(alloc: Global, names: &mut Vec<String>, name: &str) -> Fault
    ensures counted { result ≡ Fault.Failed → times name.now names.new.items ≡ times name.now names.old.items + 1 }
    ensures grow { (other : List ℕ) → times other names.old.items ≤ times other names.new.items }
    ensures others { (other : List ℕ) → other ≢ name.now → times other names.new.items ≡ times other names.old.items }
    ensures memory { result ≡ Fault.Memory → names.new.items ≡ names.old.items }
{
    let Ok(name) = String::from_str(alloc, name) else {
        return Fault::Memory;
    };
    match names.push(name) {
        Ok(()) => Fault::Failed,
        Err(_) => Fault::Memory,
    }
}

impl Shelf for MemShelf {
    ghost use Rattle.fund_shelf.specs.MemShelf.{view_of, file_in, read_plan, write_plan, read_fails};

    ghost tells = { Unit {0} };

    ghost view = { view_of };

    fn read_at(&mut self, name: &str, at: u64, buf: &mut [u8]) -> Result<usize, Fault>
        requires { at ≤ 1073741824 }
        ensures bound { IfOk result (λ n. n ≤ length buf.new) }
        ensures bytes { IfOk result (λ n. IsRead ((view_of self.old).files name.now) at n buf.new) }
        ensures same { (view_of self.new).files ≡ (view_of self.old).files }
        ensures files { file_in self.new ≡ file_in self.old }
        ensures reads { NeverFall (view_of self.old).reads (view_of self.new).reads }
        ensures writes { (view_of self.new).writes ≡ (view_of self.old).writes }
        ensures cause { IsErrOf result Fault.Failed → Rose ((view_of self.old).reads name.now) ((view_of self.new).reads name.now) }
        ensures unfailed { OnOk result ((view_of self.new).reads ≡ (view_of self.old).reads) }
        ensures short { IsErrOf result Fault.Memory → (view_of self.new).reads ≡ (view_of self.old).reads }
        ensures counted { IsErrOf result Fault.Failed → (view_of self.new).reads name.now ≡ (view_of self.old).reads name.now + 1 }
        ensures alone { (other : List ℕ) → other ≢ name.now → (view_of self.new).reads other ≡ (view_of self.old).reads other }
        ensures asked { Asks (name.now ∷ []) (view_of self.old).asked (view_of self.new).asked }
        ensures once { result ≢ Err Fault.Memory → (view_of self.new).asked ≡ (view_of self.old).asked ++ name.now ∷ [] }

        // Being out of memory may take the place of a failure that is due.
        ensures failed { IsErrOf result Fault.Failed → IsTrue (read_fails self.old name.now) }
        ensures answered { OnOk result (IsFalse (read_fails self.old name.now)) }
        ensures read_plan { read_plan self.new ≡ after_call (read_plan self.old) }
        ensures write_plan { write_plan self.new ≡ write_plan self.old }
    {
        let is_due = self.reads.strike();
        store::ask(self.alloc, &mut self.asked, name)?;
        if is_due {
            return Err(failure(self.alloc, &mut self.failed_reads, name));
        }
        match store::find(self.files.as_slice(), name) {
            Some(file) => Ok(store::copy_from(file, at, buf)),
            None => Err(failure(self.alloc, &mut self.failed_reads, name)),
        }
    }

    fn write_file(&mut self, name: &str, bytes: &[u8]) -> Result<(), Fault>
        ensures wrote { OnOk result ((view_of self.new).files name.now ≡ bytes.now) }
        ensures others { SameElsewhere name.now (view_of self.old).files (view_of self.new).files }
        ensures memory { IsErrOf result Fault.Memory → (view_of self.new).files ≡ (view_of self.old).files }
        ensures reads { (view_of self.new).reads ≡ (view_of self.old).reads }
        ensures writes { NeverFall (view_of self.old).writes (view_of self.new).writes }
        ensures cause { IsErrOf result Fault.Failed → Rose ((view_of self.old).writes name.now) ((view_of self.new).writes name.now) }
        ensures unfailed { OnOk result ((view_of self.new).writes ≡ (view_of self.old).writes) }
        ensures short { IsErrOf result Fault.Memory → (view_of self.new).writes ≡ (view_of self.old).writes }
        ensures counted { IsErrOf result Fault.Failed → (view_of self.new).writes name.now ≡ (view_of self.old).writes name.now + 1 }
        ensures alone { (other : List ℕ) → other ≢ name.now → (view_of self.new).writes other ≡ (view_of self.old).writes other }
        ensures asked { (view_of self.new).asked ≡ (view_of self.old).asked }

        // Being out of memory may take the place of a failure that is due.
        ensures failed { IsErrOf result Fault.Failed → IsTrue (is_due (write_plan self.old)) }
        ensures answered { OnOk result (IsFalse (is_due (write_plan self.old))) }
        ensures kept { OnErr result ((view_of self.new).files ≡ (view_of self.old).files) }

        // Which files there are: the one that was written, and those that there were.
        ensures made { OnOk result (file_in self.new name.now ≡ Some bytes.now) }
        ensures apart { (other : List ℕ) → other ≢ name.now → file_in self.new other ≡ file_in self.old other }
        ensures unmade { OnErr result (file_in self.new ≡ file_in self.old) }
        ensures read_plan { read_plan self.new ≡ read_plan self.old }
        ensures write_plan { write_plan self.new ≡ after_call (write_plan self.old) }
    {
        if self.writes.strike() {
            return Err(failure(self.alloc, &mut self.failed_writes, name));
        }
        store::replace(self.alloc, &mut self.files, name, bytes)?;
        Ok(())
    }
}

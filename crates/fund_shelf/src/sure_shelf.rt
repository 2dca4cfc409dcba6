//! Files in memory, read and written without a failure.

ghost use Rattle.std.specs.Prelude.{◌≡◌, ◌≢◌, ◌≤◌, List, ℕ, [], ◌∷◌, ◌++◌, length, option_copied, Some, Err, IfOk, OnOk, OnErr, IsErrOf};
ghost use Rattle.fund_shelf.specs.Causes.{Asks, Rose, NeverFall, IsRead, SameElsewhere};
ghost use Rattle.fund_shelf.specs.Files.{file_of, bytes_of};

use crate::shelf::{Fault, Shelf};
use crate::store;
use std::alloc::Global;

/// Files in memory. It never fails, and its counts of failures are always 0; a missing file is read as
/// an empty one. It keeps the name of each read, for which memory may be short, as for a file that is written.
#[derive(Drop)]
pub struct SureShelf {
    alloc: Global,
    files: Vec<(String, Vec<u8>)>,
    // The name that each read asked for.
    asked: Vec<String>,
}

impl SureShelf {
    ghost use Rattle.fund_shelf.specs.SureShelf.{view_of, file_in};

    /// These files, the first where two have one name.
    pub fn new(alloc: Global, files: Vec<(String, Vec<u8>)>) -> SureShelf
        ensures view { view_of result ≡ record { files = bytes_of files.items; reads = λ _. 0; writes = λ _. 0; asked = [] } }
        ensures files { file_in result ≡ file_of files.items }
    {
        SureShelf {
            alloc,
            files,
            asked: Vec::new(alloc),
        }
    }

    /// The bytes of the file of this name. None exactly where there is none.
    pub fn file(&self, name: &str) -> Option<&[u8]>
        ensures { option_copied result ≡ file_in self.now name.now }
    {
        store::find(self.files.as_slice(), name)
    }
}

impl Shelf for SureShelf {
    ghost use Rattle.fund_shelf.specs.SureShelf.{view_of, file_in};

    ghost tells = { Unit {0} };

    ghost view = { view_of };

    fn read_at(&mut self, name: &str, at: u64, buf: &mut [u8]) -> Result<usize, Fault>
        requires { at ≤ 1073741824 }
        ensures bound { IfOk result (λ n. n ≤ length buf.new) }
        ensures bytes { IfOk result (λ n. IsRead ((view_of self.old).files name.now) at n buf.new) }
        ensures same { (view_of self.new).files ≡ (view_of self.old).files }
        ensures files { file_in self.new ≡ file_in self.old }
        ensures reads { NeverFall (view_of self.old).reads (view_of self.new).reads }
        ensures writes { (view_of self.new).writes ≡ (view_of self.old).writes }
        ensures cause { IsErrOf result Fault.Failed → Rose ((view_of self.old).reads name.now) ((view_of self.new).reads name.now) }
        ensures unfailed { OnOk result ((view_of self.new).reads ≡ (view_of self.old).reads) }
        ensures short { IsErrOf result Fault.Memory → (view_of self.new).reads ≡ (view_of self.old).reads }
        ensures asked { Asks (name.now ∷ []) (view_of self.old).asked (view_of self.new).asked }
        ensures once { result ≢ Err Fault.Memory → (view_of self.new).asked ≡ (view_of self.old).asked ++ name.now ∷ [] }
    {
        store::ask(self.alloc, &mut self.asked, name)?;
        let file = store::find(self.files.as_slice(), name).unwrap_or(&[]);
        Ok(store::copy_from(file, at, buf))
    }

    fn write_file(&mut self, name: &str, bytes: &[u8]) -> Result<(), Fault>
        ensures wrote { OnOk result ((view_of self.new).files name.now ≡ bytes.now) }
        ensures others { SameElsewhere name.now (view_of self.old).files (view_of self.new).files }
        ensures memory { IsErrOf result Fault.Memory → (view_of self.new).files ≡ (view_of self.old).files }
        ensures reads { (view_of self.new).reads ≡ (view_of self.old).reads }
        ensures writes { NeverFall (view_of self.old).writes (view_of self.new).writes }
        ensures cause { IsErrOf result Fault.Failed → Rose ((view_of self.old).writes name.now) ((view_of self.new).writes name.now) }
        ensures unfailed { OnOk result ((view_of self.new).writes ≡ (view_of self.old).writes) }
        ensures short { IsErrOf result Fault.Memory → (view_of self.new).writes ≡ (view_of self.old).writes }
        ensures asked { (view_of self.new).asked ≡ (view_of self.old).asked }

        // Which files there are: the one that was written, and those that there were.
        ensures made { OnOk result (file_in self.new name.now ≡ Some bytes.now) }
        ensures apart { (other : List ℕ) → other ≢ name.now → file_in self.new other ≡ file_in self.old other }
        ensures unmade { OnErr result (file_in self.new ≡ file_in self.old) }
    {
        store::replace(self.alloc, &mut self.files, name, bytes)?;
        Ok(())
    }
}

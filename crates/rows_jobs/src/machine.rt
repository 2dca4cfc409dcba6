//! Two files that stand in one machine: from one change on neither is changed any more.

ghost use Rattle.std.specs.Prelude.{◌≡◌, length, false, true, is_ok, refl, ◌⊎◌, OnErr, OnOk};
ghost use Rattle.std.proofs.Common.{inl};
ghost use Rattle.sqlite_disk.specs.Disk.{CountsFault, Cut, Holds, Torn};
ghost use Rattle.sqlite_disk.specs.Refusal.{finds_no_room};

use sqlite_disk::{Disk, Tally, digest_of};
use std::alloc::{AllocError, Global};
use std::cell::Cell;
use std::io;

/// A machine that makes so many changes, and then stops: it refuses each later one.
#[derive(Drop)]
pub(crate) struct Machine {
    left: Cell<u64>,
    refused: Cell<Option<&'static str>>,
}

impl Machine {
    /// A machine that makes so many changes.
    pub(crate) fn new(changes: u64) -> Machine {
        Machine {
            left: Cell::new(changes),
            refused: Cell::new(None),
        }
    }

    /// The first change that was refused, or `nothing`.
    pub(crate) fn refused(&self) -> &'static str {
        match self.refused.get() {
            Some(change) => change,
            None => "nothing",
        }
    }
}

/// Takes one of the changes that the machine still makes, or refuses it.
fn take(machine: &Machine, change: &'static str, faults: &mut u64) -> io::Result<()>
    ensures faults { CountsFault result faults.old faults.new }
    ensures kind { finds_no_room result ≡ false }
{
    let left = machine.left.get();
    if left == 0 {
        if machine.refused.get().is_none() {
            machine.refused.set(Some(change));
        }
        *faults = faults.saturating_add(1);
        return Err(io::Error::other("the machine has stopped"));
    }
    machine.left.set(left - 1);
    Ok(())
}

/// A file of the machine, in memory.
pub(crate) struct MachineFile<'a> {
    bytes: Vec<u8>,
    lasting: Vec<u8>,
    torn: Option<Vec<u8>>,
    machine: &'a Machine,
    is_log: bool,
    is_usable: bool,
    faults: u64,
}

/// One call, wherever it is dropped.
impl<'a> Drop for MachineFile<'a> {
    fn drop(self) {
        let MachineFile {
            bytes: _,
            lasting: _,
            torn: _,
            machine: _,
            is_log: _,
            is_usable: _,
            faults: _,
        } = self;
    }
}

impl<'a> MachineFile<'a> {
    /// A file that holds these bytes and lasts.
    pub(crate) fn new(
        alloc: Global,
        machine: &'a Machine,
        is_log: bool,
        bytes: &[u8],
    ) -> Result<MachineFile<'a>, AllocError> {
        Ok(MachineFile {
            bytes: Vec::from_slice(alloc, bytes)?,
            lasting: Vec::from_slice(alloc, bytes)?,
            torn: None,
            machine,
            is_log,
            is_usable: true,
            faults: 0,
        })
    }

    /// All that was written.
    pub(crate) fn written(&self) -> &[u8] {
        self.bytes.as_slice()
    }

    /// That, and the first half of the write that was refused. The same where no write of this file was.
    pub(crate) fn torn(&self) -> &[u8] {
        match &self.torn {
            Some(torn) => torn.as_slice(),
            None => self.bytes.as_slice(),
        }
    }

    /// What was made to last.
    pub(crate) fn lasting(&self) -> &[u8] {
        self.lasting.as_slice()
    }
}

/// The bytes with the first half of a write in them.
fn half_written(bytes: &Vec<u8>, at: usize, more: &[u8]) -> Result<Vec<u8>, AllocError> {
    let mut torn = bytes.clone()?;
    overwrite(&mut torn, at, &more[..more.len() / 2])?;
    Ok(torn)
}

/// Counts a failure for being out of memory.
fn count(outcome: Result<(), AllocError>, faults: &mut u64) -> io::Result<()>
    ensures variant { is_ok result ≡ is_ok outcome }
    ensures kind { finds_no_room result ≡ false }
    ensures faults { CountsFault result faults.old faults.new }
{
    if outcome.is_err() {
        *faults = faults.saturating_add(1);
        return Err(io::Error::from(io::ErrorKind::OutOfMemory));
    }
    Ok(())
}

/// Makes the length so many bytes; new ones are 0.
fn resize(file: &mut Vec<u8>, len: usize) -> Result<(), AllocError>
    ensures len { OnOk result (length file.new.items ≡ len) }
    ensures others { Cut len file.old.items file.new.items }
{
    file.resize(len, 0)
}

/// Writes bytes at a place, and zeros between the end and the place.
fn overwrite(file: &mut Vec<u8>, at: usize, bytes: &[u8]) -> Result<(), AllocError>
    ensures written { OnOk result (Holds file.new.items at bytes.now) }
    ensures others { Torn at (length bytes.now) file.old.items file.new.items }
    ensures unwritten { OnErr result (file.new.items ≡ file.old.items) }
{
    let end = at.checked_add(bytes.len()).ok_or(AllocError)?;
    if end > file.len() {
        file.resize(end, 0)?;
    }
    file[at..end].copy_from_slice(bytes);
    Ok(())
}

/// A copy in place of what a file had.
fn replace(file: &mut Vec<u8>, bytes: &[u8]) -> Result<(), AllocError>
    ensures ok { OnOk result (file.new.items ≡ bytes.now) }
    ensures err { OnErr result (file.new.items ≡ file.old.items) }
{
    let mut copy = Vec::new(*file.allocator());
    copy.extend_from_slice(bytes)?;
    *file = copy;
    Ok(())
}

/// A stop leaves what was written or what was made to last. A stop within a write leaves each byte as it was or as it
/// was to be, as the job file supposes.
impl Disk for MachineFile<'_> {
    ghost seen = { λ f. f.bytes.items };

    ghost may_leave = { λ f c. (c ≡ f.bytes.items) ⊎ (c ≡ f.lasting.items) };

    ghost is_usable = { λ f. f.is_usable };

    ghost faults = { λ f. f.faults };

    ghost tally_of = { λ _. record { caught = 0; refused = 0 } };

    ghost key_of = { λ _. 0 };

    ghost is_clean = { λ _. true };

    ghost is_fair = { λ _ _. true };

    ghost fair_if_clean = { λ _ _ _. refl };

    ghost seen_may_stay = { λ _. inl refl };

    ghost is_mixing = { λ _. true };

    fn mixes(&self) -> bool {
        true
    }

    fn key(&self) -> u64 {
        0
    }

    fn tally(&self) -> Tally {
        Tally {
            caught: 0,
            refused: 0,
        }
    }

    fn may_be_used(&self) -> bool {
        self.is_usable
    }

    fn len(&mut self) -> io::Result<usize> {
        Ok(self.bytes.len())
    }

    fn read_at(&mut self, at: usize, buf: &mut [u8]) -> io::Result<()> {
        if at > self.bytes.len() || buf.len() > self.bytes.len() - at {
            return Err(io::ErrorKind::UnexpectedEof.into());
        }
        buf.copy_from_slice(&self.bytes[at..at + buf.len()]);
        Ok(())
    }

    fn read_checked(&mut self, key: u64, want: u64, at: usize, buf: &mut [u8]) -> io::Result<()> {
        self.read_at(at, buf)?;
        if digest_of(key, buf) != want {
            self.faults = self.faults.saturating_add(1);
            return Err(io::ErrorKind::InvalidData.into());
        }
        Ok(())
    }

    fn write_at(&mut self, at: usize, bytes: &[u8]) -> io::Result<()> {
        let runs = self.machine.refused.get().is_none();
        if let Err(error) = take(self.machine, write_of(self.is_log), &mut self.faults) {
            if runs {
                self.torn = half_written(&self.bytes, at, bytes).ok();
            }
            return Err(error);
        }
        count(overwrite(&mut self.bytes, at, bytes), &mut self.faults)
    }

    fn set_len(&mut self, len: usize) -> io::Result<()> {
        take(self.machine, length_of(self.is_log), &mut self.faults)?;
        count(resize(&mut self.bytes, len), &mut self.faults)
    }

    fn sync(&mut self) -> io::Result<()> {
        self.is_usable = false;
        take(self.machine, sync_of(self.is_log), &mut self.faults)?;
        count(replace(&mut self.lasting, &self.bytes), &mut self.faults)?;
        self.is_usable = true;
        Ok(())
    }
}

fn write_of(is_log: bool) -> &'static str {
    if is_log { "log write" } else { "file write" }
}

fn length_of(is_log: bool) -> &'static str {
    if is_log { "log length" } else { "file length" }
}

fn sync_of(is_log: bool) -> &'static str {
    if is_log { "log sync" } else { "file sync" }
}

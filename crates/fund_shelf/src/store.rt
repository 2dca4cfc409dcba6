//! Files in memory, the newest of a name first.

ghost use Rattle.std.specs.Prelude.{◌≡◌, ◌≢◌, ◌≤◌, List, ℕ, Some, [], ◌∷◌, ◌++◌, length, option_copied, OnOk, OnErr};
ghost use Rattle.fund_shelf.specs.Causes.{IsRead};
ghost use Rattle.fund_shelf.specs.Files.{file_of, names_in};

use std::alloc::{AllocError, Global};

/// The bytes of the first file of this name.
pub fn find<'a>(files: &'a [(String, Vec<u8>)], name: &str) -> Option<&'a [u8]>
    ensures { option_copied result ≡ file_of files.now name.now }
{
    let mut rest = files;
    'finding: while let [file, after @ ..] = rest {
        if file.0.as_str() == name {
            return Some(file.1.as_slice());
        }
        rest = after;
    }
    None
}

/// Copies what `file` has from place `at` on to `buf`, as far as there is room.
pub fn copy_from(file: &[u8], at: u64, buf: &mut [u8]) -> usize
    ensures bound { result ≤ length buf.new }
    ensures read { IsRead file.now at result buf.new }
{
    let at = at as usize;
    if file.len() <= at {
        return 0;
    }
    let rest = &file[at..];
    let count = rest.len().min(buf.len());
    buf[..count].copy_from_slice(&rest[..count]);
    count
}

/// Makes `bytes` the file of this name. Where memory is short the files are as before.
pub fn replace(
    alloc: Global,
    files: &mut Vec<(String, Vec<u8>)>,
    name: &str,
    bytes: &[u8],
) -> Result<(), AllocError>
    ensures ok { OnOk result (file_of files.new.items name.now ≡ Some bytes.now) }
    ensures others { (other : List ℕ) → other ≢ name.now → file_of files.new.items other ≡ file_of files.old.items other }
    ensures err { OnErr result (files.new.items ≡ files.old.items) }
{
    let name = String::from_str(alloc, name)?;
    let bytes = Vec::from_slice(alloc, bytes)?;
    files.insert(0, (name, bytes))?;
    Ok(())
}

/// Adds a name to those that were asked for. Where memory is short they are as before.
pub fn ask(alloc: Global, asked: &mut Vec<String>, name: &str) -> Result<(), AllocError>
    ensures ok { OnOk result (names_in asked.new.items ≡ names_in asked.old.items ++ name.now ∷ []) }
    ensures err { OnErr result (asked.new.items ≡ asked.old.items) }
{
    asked.push(String::from_str(alloc, name)?)?;
    Ok(())
}

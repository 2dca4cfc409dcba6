//! The command of a line, whose file is read.

ghost use Rattle.std.specs.Prelude.{◌≡◌, ◌≢◌, ◌≤◌, [], ◌∷◌, IfErr, IfOk, OnOk, length, string_bytes};
ghost use Rattle.fund_shelf.specs.Causes.{Asks, OnlyReads};
ghost use Rattle.command_desk.specs.Lent.{plain_line};
ghost use Rattle.command_desk.specs.Line.{Blocks, Open, wanted};
ghost use Rattle.command_desk.specs.Asked.{file_in};
ghost use Rattle.command_desk.specs.Halts.{HaltsAt, HaltsReading, HasCommand, IsSaid};

use crate::halt::{Halt, read_halt};
use crate::line::Line;
use desk_machine::Command;
use fund_base::Memory;
use fund_shelf::{Shelf, read_whole};
use std::alloc::Global;

/// The greatest length of a request file, in bytes.
const REQUEST_LIMIT: usize = 1_048_576;

/// The greatest length of a block file that a line names, in bytes.
const BLOCKS_LIMIT: usize = 67_108_864;

/// The bytes of the file of a line.
fn read_file<H: Shelf>(
    alloc: Global,
    shelf: &mut H,
    name: &str,
    limit: usize,
) -> Result<Vec<u8>, Halt>
    requires { limit ≤ 1073741824 }
    ensures bytes { H.tells → IfOk result (λ bytes. bytes.items ≡ (H.view shelf.old).files name.now) }
    ensures bound { IfOk result (λ bytes. length bytes.items ≤ limit) }
    ensures fits { H.tells → OnOk result (length ((H.view shelf.old).files name.now) ≤ limit) }
    ensures frame { OnlyReads H.tells (H.view shelf.old) (H.view shelf.new) }
    ensures halt { IfErr result (HaltsReading H.tells name.now limit (H.view shelf.old) (H.view shelf.new)) }
    ensures asked { H.tells → Asks (name.now ∷ []) (H.view shelf.old).asked (H.view shelf.new).asked }
    ensures all_read { result ≢ Err Halt.Unread → (H.view shelf.new).reads ≡ (H.view shelf.old).reads }
{
    match read_whole(alloc, shelf, name, limit) {
        Ok(bytes) => Ok(bytes),
        Err(error) => Err(read_halt(error)),
    }
}

/// A copy of a name.
fn owned(alloc: Global, name: &str) -> Result<String, Memory>
    ensures { IfOk result (λ text. string_bytes text ≡ name.now) }
{
    Ok(String::from_str(alloc, name)?)
}

/// A copy of digits.
fn copied(alloc: Global, digits: &[u8]) -> Result<Vec<u8>, Memory>
    ensures { IfOk result (λ copy. copy.items ≡ digits.now) }
{
    Ok(Vec::from_slice(alloc, digits)?)
}

/// The command of a line that opens a job, with the bytes of its file.
fn opening<H: Shelf>(
    alloc: Global,
    name: &str,
    file: &str,
    shelf: &mut H,
) -> Result<Option<Command>, Halt>
    requires { IsSaid (Open name.now file.now) }
    ensures command { IfOk result (HasCommand H.tells (H.view shelf.old).files (Open name.now file.now)) }
    ensures frame { OnlyReads H.tells (H.view shelf.old) (H.view shelf.new) }
    ensures halt { IfErr result (HaltsAt H.tells (Open name.now file.now) (H.view shelf.old) (H.view shelf.new)) }
    ensures asked { H.tells → Asks (file.now ∷ []) (H.view shelf.old).asked (H.view shelf.new).asked }
    ensures all_read { result ≢ Err Halt.Unread → (H.view shelf.new).reads ≡ (H.view shelf.old).reads }
{
    match read_file(alloc, shelf, file, REQUEST_LIMIT) {
        Ok(request) => match owned(alloc, name) {
            Ok(name) => Ok(Some(Command::Open { name, request })),
            Err(Memory) => Err(Halt::Memory),
        },
        Err(halt) => Err(halt),
    }
}

/// The command of a line that adds blocks, with the bytes of its file.
fn adding<H: Shelf>(alloc: Global, file: &str, shelf: &mut H) -> Result<Option<Command>, Halt>
    ensures command { IfOk result (HasCommand H.tells (H.view shelf.old).files (Blocks file.now)) }
    ensures frame { OnlyReads H.tells (H.view shelf.old) (H.view shelf.new) }
    ensures halt { IfErr result (HaltsAt H.tells (Blocks file.now) (H.view shelf.old) (H.view shelf.new)) }
    ensures asked { H.tells → Asks (file.now ∷ []) (H.view shelf.old).asked (H.view shelf.new).asked }
    ensures all_read { result ≢ Err Halt.Unread → (H.view shelf.new).reads ≡ (H.view shelf.old).reads }
{
    match read_file(alloc, shelf, file, BLOCKS_LIMIT) {
        Ok(bytes) => Ok(Some(Command::Blocks { bytes })),
        Err(halt) => Err(halt),
    }
}

/// The command of a line, with the bytes of its file; none of any other line.
pub fn command_of<H: Shelf>(
    alloc: Global,
    line: &Line,
    shelf: &mut H,
) -> Result<Option<Command>, Halt>
    requires { IsSaid (plain_line line.now) }
    ensures command { IfOk result (HasCommand H.tells (H.view shelf.old).files (plain_line line.now)) }
    ensures frame { OnlyReads H.tells (H.view shelf.old) (H.view shelf.new) }
    ensures halt { IfErr result (HaltsAt H.tells (plain_line line.now) (H.view shelf.old) (H.view shelf.new)) }
    ensures asked { H.tells → Asks (file_in (wanted (plain_line line.now))) (H.view shelf.old).asked (H.view shelf.new).asked }
    ensures all_read { result ≢ Err Halt.Unread → (H.view shelf.new).reads ≡ (H.view shelf.old).reads }
{
    match *line {
        Line::Open { name, file } => opening(alloc, name, file, shelf),
        Line::Turn { name, tries } => match owned(alloc, name) {
            Ok(name) => Ok(Some(Command::Turn { name, tries })),
            Err(Memory) => Err(Halt::Memory),
        },
        Line::Commit { name } => match owned(alloc, name) {
            Ok(name) => Ok(Some(Command::Commit { name })),
            Err(Memory) => Err(Halt::Memory),
        },
        Line::Close { name } => match owned(alloc, name) {
            Ok(name) => Ok(Some(Command::Close { name })),
            Err(Memory) => Err(Halt::Memory),
        },
        Line::Release { txid } => Ok(Some(Command::Release { txid })),
        Line::Blocks { file } => adding(alloc, file, shelf),
        Line::Pending { hex } => match copied(alloc, hex) {
            Ok(hex) => Ok(Some(Command::Pending { hex })),
            Err(Memory) => Err(Halt::Memory),
        },
        Line::Other => Ok(None),
    }
}

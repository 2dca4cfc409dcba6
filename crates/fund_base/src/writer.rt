//! Writing bytes: one trait for what keeps them, what counts them and what digests them, and the spelling of
//! numbers and byte strings. Behind an error a writer may have taken a part of what was to be written.

ghost use Rattle.std.specs.Prelude.{◌≡◌, ◌∷◌, OnOk};
ghost use Rattle.fund_base.specs.CompactSize.{compact, prefixed};
ghost use Rattle.fund_base.specs.Writer.{Feeds};

use std::alloc::AllocError;
use std::convert::Infallible;
use std::marker::Model;

/// What takes bytes, one string behind the other.
pub trait Writer {
    /// Why bytes could not be taken.
    type Error: Drop;

    ghost use Rattle.std.specs.Prelude.{List, ℕ};

    ghost holds: { Self → List ℕ → Type 0 };

    /// Takes these bytes, behind those that it has taken.
    fn write_bytes(&mut self, bytes: &[u8]) -> Result<(), Self::Error>
        ensures { OnOk result (Feeds holds self.old self.new bytes.now) };
}

/// Keeps the bytes. The error is out of memory.
impl Writer for Vec<u8> {
    type Error = AllocError;

    ghost holds = { λ v m. v.items ≡ m };

    fn write_bytes(&mut self, bytes: &[u8]) -> Result<(), AllocError> {
        self.extend_from_slice(bytes)
    }
}

/// Counts bytes. A greater number than 18,446,744,073,709,551,615 counts as that number.
#[derive(Clone, Copy, PartialEq, Eq)]
pub struct Length {
    count: u64,
}

impl Model for Length {
    ghost use Rattle.std.specs.Prelude.{ℕ};

    ghost Value = { ℕ };

    ghost view = { λ s. s.count };

    ghost inverse = { λ n. record { count = n } };
}

impl Length {
    /// No bytes yet.
    pub fn new() -> Length
        ensures { result ≡ 0 }
    {
        Length { count: 0 }
    }

    /// How many bytes it has taken.
    pub fn get(self) -> u64
        ensures { result ≡ self }
    {
        self.count
    }
}

impl Writer for Length {
    type Error = Infallible;

    ghost use Rattle.std.specs.Prelude.{min, length};

    ghost holds = { λ s m. s ≡ min (length m) 18_446_744_073_709_551_615 };

    fn write_bytes(&mut self, bytes: &[u8]) -> Result<(), Infallible> {
        self.count = self.count.saturating_add(bytes.len() as u64);
        Ok(())
    }
}

/// Writes a number as CompactSize in its shortest spelling (BIP 144 and the protocol's documentation): 0 to 252
/// in one byte, else FD and two bytes, FE and four, FF and eight, low byte first. The error is the writer's.
#[tactic(auto, unfolding(crate::specs::CompactSize::compact))]
pub fn write_compact<W: Writer>(out: &mut W, n: u64) -> Result<(), W::Error>
    ensures { OnOk result (Feeds W.holds out.old out.new (compact n)) }
{
    if n < 253 {
        out.write_bytes(&[n as u8])
    } else if n < 65536 {
        write_tagged(out, 253, &(n as u16).to_le_bytes())
    } else if n < 4294967296 {
        write_tagged(out, 254, &(n as u32).to_le_bytes())
    } else {
        write_tagged(out, 255, &n.to_le_bytes())
    }
}

/// Writes a byte, and the bytes behind it.
fn write_tagged<W: Writer>(out: &mut W, tag: u8, bytes: &[u8]) -> Result<(), W::Error>
    ensures { OnOk result (Feeds W.holds out.old out.new (tag ∷ bytes.now)) }
{
    out.write_bytes(&[tag])?;
    out.write_bytes(bytes)
}

/// Writes the length of a byte string as CompactSize, and its bytes. The error is the writer's.
pub fn write_prefixed<W: Writer>(out: &mut W, bytes: &[u8]) -> Result<(), W::Error>
    ensures { OnOk result (Feeds W.holds out.old out.new (prefixed bytes.now)) }
{
    write_compact(out, bytes.len() as u64)?;
    out.write_bytes(bytes)
}

//! Reading bytes from left to right. Each fault names the place where the field begins that can't be
//! read, and leaves the cursor there.

ghost use Rattle.std.specs.Prelude.{◌≡◌, ◌+◌, ◌≤◌, ◌<◌, ◌^◌, ◌++◌, ℕ, List, Ok, length, take, IfOk};
ghost use Rattle.std.specs.Int.{w16, w32, w64, from_le_bytes};
ghost use Rattle.fund_base.specs.CompactSize.{compact};
ghost use Rattle.fund_base.specs.Cursor.{IsBytes, Moves, after, take_at, number_at, wide_at, compact_at};

use std::marker::Model;

/// Why a field couldn't be read: the place is that of its first byte, from 0.
#[derive(Clone, Copy, PartialEq, Eq)]
pub enum CutFault {
    /// Fewer bytes are left than the field has.
    Truncated(u64),
    /// A CompactSize isn't in its shortest spelling.
    LongCompact(u64),
}

/// The bytes that are left to read, and the place of the first of them in the whole.
#[derive(Drop)]
pub struct Cursor<'a> {
    rest: &'a [u8],
    place: u64,
}

impl<'a> Model for Cursor<'a> {
    ghost use Rattle.std.specs.Prelude.{◌+◌, ◌<◌, ◌^◌, length};
    ghost use Rattle.fund_base.specs.Cursor.{At, IsBytes};

    ghost Value = { At };

    ghost view = { λ c. record { rest = c.rest.now; place = c.place } };

    ghost invariant = { λ c. (c.place + length c.rest.now < 2 ^ 64) × IsBytes c.rest.now };
}

/// That the items of a slice of bytes are bytes, and fewer than 2 ^ 64. A call does nothing.
pub fn are_bytes(bytes: &[u8])
    ensures bytes { IsBytes bytes.now }
    ensures len { length bytes.now < 2 ^ 64 }
{}

fn number16(bytes: &[u8]) -> u16
    requires { 2 ≤ length bytes.now }
    ensures { result ≡ from_le_bytes w16 (take 2 bytes.now) }
{
    let (front, _) = bytes.split_at(2);
    u16::from_le_bytes([front[0], front[1]])
}

fn number32(bytes: &[u8]) -> u32
    requires { 4 ≤ length bytes.now }
    ensures { result ≡ from_le_bytes w32 (take 4 bytes.now) }
{
    let (front, _) = bytes.split_at(4);
    u32::from_le_bytes([front[0], front[1], front[2], front[3]])
}

fn number64(bytes: &[u8]) -> u64
    requires { 8 ≤ length bytes.now }
    ensures { result ≡ from_le_bytes w64 (take 8 bytes.now) }
{
    let (front, _) = bytes.split_at(8);
    u64::from_le_bytes([
        front[0], front[1], front[2], front[3], front[4], front[5], front[6], front[7],
    ])
}

impl<'a> Cursor<'a> {
    /// A cursor at the first of the bytes, place 0.
    pub fn new(bytes: &'a [u8]) -> Cursor<'a>
        ensures { result ≡ record { rest = bytes.now; place = 0 } }
    {
        Cursor {
            rest: bytes,
            place: 0,
        }
    }

    /// How many bytes have been read.
    pub fn place(&self) -> u64
        ensures { result ≡ self.now.place }
    {
        self.place
    }

    /// The bytes that are left.
    pub fn rest(&self) -> &'a [u8]
        ensures value { result.now ≡ self.now.rest }
        ensures bytes { IsBytes self.now.rest }
        ensures bounded { self.now.place + length self.now.rest < 2 ^ 64 }
    {
        self.rest
    }

    /// A second cursor at the same place.
    pub fn fork(&self) -> Cursor<'a>
        ensures same { result ≡ self.now }
        ensures bytes { IsBytes self.now.rest }
        ensures bounded { self.now.place + length self.now.rest < 2 ^ 64 }
    {
        Cursor {
            rest: self.rest,
            place: self.place,
        }
    }

    fn pass(&mut self, n: u64)
        requires { n ≤ length self.old.rest }
        ensures { self.new ≡ after n self.old }
    {
        let (_, rest) = self.rest.split_at(n as usize);
        self.rest = rest;
        self.place += n;
    }

    /// The next `n` bytes. [`CutFault::Truncated`] exactly where fewer are left.
    pub fn take(&mut self, n: u64) -> Result<&'a [u8], CutFault>
        ensures moves { Moves (λ x. x.now) self.old self.new result (take_at n self.old) }
        ensures len { IfOk result (λ x. length x.now ≡ n) }
    {
        if (self.rest.len() as u64) < n {
            return Err(CutFault::Truncated(self.place));
        }
        let (front, _) = self.rest.split_at(n as usize);
        self.pass(n);
        Ok(front)
    }

    /// A number in four bytes, the low byte first. [`CutFault::Truncated`] exactly where fewer are left.
    pub fn u32_le(&mut self) -> Result<u32, CutFault>
        ensures { Moves (λ x. x) self.old self.new result (number_at w32 self.old) }
    {
        if self.rest.len() < 4 {
            return Err(CutFault::Truncated(self.place));
        }
        let number = number32(self.rest);
        self.pass(4);
        Ok(number)
    }

    /// A number in eight bytes, the low byte first. [`CutFault::Truncated`] exactly where fewer are left.
    pub fn u64_le(&mut self) -> Result<u64, CutFault>
        ensures { Moves (λ x. x) self.old self.new result (number_at w64 self.old) }
    {
        if self.rest.len() < 8 {
            return Err(CutFault::Truncated(self.place));
        }
        let number = number64(self.rest);
        self.pass(8);
        Ok(number)
    }

    /// The number behind a CompactSize's first byte, where it isn't below `least`.
    fn wide16(&mut self) -> Result<u64, CutFault>
        ensures { Moves (λ x. x) self.old self.new result (wide_at w16 253 self.old) }
    {
        if self.rest.len() < 3 {
            return Err(CutFault::Truncated(self.place));
        }
        let (_, tail) = self.rest.split_at(1);
        let number = number16(tail);
        if number < 253 {
            return Err(CutFault::LongCompact(self.place));
        }
        self.pass(3);
        Ok(number as u64)
    }

    fn wide32(&mut self) -> Result<u64, CutFault>
        ensures { Moves (λ x. x) self.old self.new result (wide_at w32 65536 self.old) }
    {
        if self.rest.len() < 5 {
            return Err(CutFault::Truncated(self.place));
        }
        let (_, tail) = self.rest.split_at(1);
        let number = number32(tail);
        if number < 65536 {
            return Err(CutFault::LongCompact(self.place));
        }
        self.pass(5);
        Ok(number as u64)
    }

    fn wide64(&mut self) -> Result<u64, CutFault>
        ensures { Moves (λ x. x) self.old self.new result (wide_at w64 4294967296 self.old) }
    {
        if self.rest.len() < 9 {
            return Err(CutFault::Truncated(self.place));
        }
        let (_, tail) = self.rest.split_at(1);
        let number = number64(tail);
        if number < 4294967296 {
            return Err(CutFault::LongCompact(self.place));
        }
        self.pass(9);
        Ok(number)
    }

    #[tactic(auto, unfolding(crate::specs::Cursor::compact_at))]
    fn count(&mut self) -> Result<u64, CutFault>
        ensures moves { Moves (λ x. x) self.old self.new result (compact_at self.old) }
        ensures bytes { IsBytes self.old.rest }
    {
        if self.rest.is_empty() {
            return Err(CutFault::Truncated(self.place));
        }
        match self.rest[0] {
            253 => self.wide16(),
            254 => self.wide32(),
            255 => self.wide64(),
            number => {
                self.pass(1);
                Ok(number as u64)
            }
        }
    }

    /// A number in CompactSize. [`CutFault::Truncated`] exactly where fewer bytes are left than the first
    /// one asks for, else [`CutFault::LongCompact`] exactly where the number has a shorter spelling.
    #[tactic(auto, using(crate::proofs::LawsOfNumbers::count_found, crate::proofs::LawsOfNumbers::count_only))]
    pub fn compact(&mut self) -> Result<u64, CutFault>
        // What is read is the number's spelling, and the spelling of each number is read.
        ensures found { IfOk result (λ n. self.old.rest ≡ compact n ++ self.new.rest) }
        ensures only { (n : ℕ) (rest : List ℕ) → n < 2 ^ 64 → self.old.rest ≡ compact n ++ rest → (result ≡ Ok n) × (self.new.rest ≡ rest) }

        ensures moves { Moves (λ x. x) self.old self.new result (compact_at self.old) }
    {
        self.count()
    }
}

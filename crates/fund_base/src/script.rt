//! Scripts, as the bytes that they are.

ghost use Rattle.std.specs.Prelude.{◌≡◌, List, ℕ, IfOk};

use crate::memory::Memory;
use std::alloc::Global;
use std::marker::Model;

/// The bytes of a script: of an output, what it pays to, and of an input, what it gives in answer.
#[derive(Drop)]
pub struct Script {
    bytes: Vec<u8>,
}

impl Model for Script {
    ghost Value = { List ℕ };

    ghost view = { λ s. s.bytes.items };
}

impl Script {
    /// The script of these bytes.
    pub fn new(bytes: Vec<u8>) -> Script
        ensures { result ≡ bytes.items }
    {
        Script { bytes }
    }

    /// The bytes of the script.
    pub fn bytes(&self) -> &[u8]
        ensures { result.now ≡ self.now }
    {
        self.bytes.as_slice()
    }

    /// A copy. It equals the script.
    pub fn copy(&self, alloc: Global) -> Result<Script, Memory>
        ensures { IfOk result (λ s. s ≡ self.now) }
    {
        let bytes = Vec::from_slice(alloc, self.bytes.as_slice())?;
        Ok(Script { bytes })
    }
}

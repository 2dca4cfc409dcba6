//! The least that is taken: the dust threshold of the recipient's script.

ghost use Rattle.std.specs.Prelude.{◌≡◌, ◌≤◌, IfOk};
ghost use Rattle.segwit_addr.specs.Reading.{decode_of};
ghost use Rattle.sweep_words.specs.Words.{by_script, least_to, least_to_script};

use base58_addr::Base58Fault;
use fee_rates::dust;
use fund_base::{Memory, Script};
use hex::FromHexError;
use segwit_addr::{AddrFault, decode};
use std::alloc::Global;

/// The dust threshold of the script of an address, in base58 or of a witness program, in satoshi; 0 where the text is no address,
/// which is told where the words or the request are read.
pub fn least_to(alloc: Global, text: &str) -> Result<u64, Memory>
    ensures { IfOk result (λ n. n ≡ least_to text.now) }
{
    match base58_addr::decode(alloc, text) {
        Ok(script) => Ok(dust(&script)),
        Err(Base58Fault::Memory) => Err(Memory),
        Err(_) => least_to_program(alloc, text),
    }
}

/// The same of an address of a witness program.
fn least_to_program(alloc: Global, text: &str) -> Result<u64, Memory>
    ensures { IfOk result (λ n. n ≡ by_script (decode_of text.now)) }
{
    match decode(alloc, text) {
        Ok(script) => Ok(dust(&script)),
        Err(AddrFault::Memory) => Err(Memory),
        Err(_) => Ok(0),
    }
}

/// The dust threshold of a script in hex, in satoshi; 0 where the text is no hex, which is told where the words are read.
pub fn least_to_script(alloc: Global, text: &str) -> Result<u64, Memory>
    ensures { IfOk result (λ n. n ≡ least_to_script text.now) }
{
    match hex::decode(alloc, text.as_bytes()) {
        Ok(bytes) => Ok(dust(&Script::new(bytes))),
        Err(FromHexError::OutOfMemory) => Err(Memory),
        Err(_) => Ok(0),
    }
}

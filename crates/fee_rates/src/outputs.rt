//! Outputs: their size, the witness programs that they may pay to, and dust.

ghost use Rattle.std.specs.Prelude.{◌≡◌, ◌+◌, ◌≤◌, ◌↔◌, IsTrue, length};
ghost use Rattle.fund_base.specs.CompactSize.{compact};
ghost use Rattle.fee_rates.specs.Output.{IsProgram, dust_of, is_program_of, is_unspendable_of, output_size_of};

use crate::fees::fee;
use fund_base::Script;

/// The rate at which dust is measured, in satoshi per 1,000 virtual bytes.
const DUST_RATE: u64 = 3_000;

/// The operation that ends a script without success.
const OP_RETURN: u8 = 0x6a;

/// How many bytes a number takes as a CompactSize.
#[tactic(auto, using(crate::proofs::CompactLaws::compact_len_is))]
pub(crate) fn compact_len(n: u64) -> u64
    ensures len { result ≡ length (compact n) }
    ensures most { result ≤ 9 }
{
    if n < 253 {
        1
    } else if n < 65_536 {
        3
    } else if n < 4_294_967_296 {
        5
    } else {
        9
    }
}

/// The number of bytes of an output that pays to `script`: 8 of its value, the script's length in CompactSize, and
/// the script.
pub fn output_size(script: &Script) -> u64
    ensures value { result ≡ output_size_of script.now }
    ensures most { result ≤ length script.now + 17 }
{
    let len = script.bytes().len() as u64;
    8 + compact_len(len) + len
}

/// Whether the bytes are a witness program: 4 to 42 of them, of which the first is 00 or 51 to 60 hex, and the
/// second is their number less 2 (BIP 141, 'Witness program').
pub fn is_program(bytes: &[u8]) -> bool
    ensures value { result ≡ is_program_of bytes.now }
    ensures program { IsTrue result ↔ IsProgram bytes.now }
{
    if bytes.len() < 4 || bytes.len() > 42 {
        return false;
    }
    let version = bytes[0] == 0 || (bytes[0] >= 0x51 && bytes[0] <= 0x60);
    version && bytes[1] as usize + 2 == bytes.len()
}

/// Whether nothing can spend an output to these bytes: they begin with 6A hex, or are more than 10,000.
fn is_unspendable(bytes: &[u8]) -> bool
    ensures value { result ≡ is_unspendable_of bytes.now }
{
    (!bytes.is_empty() && bytes[0] == OP_RETURN) || bytes.len() > 10_000
}

/// The least amount that an output to `script` may have, in satoshi: the fee at 3,000 of the output and of an input
/// that spends it, taken as 67 virtual bytes for a witness program and as 148 otherwise; 0 for a script that begins
/// with 6A hex or is longer than 10,000 bytes (Bitcoin Core, `GetDustThreshold`).
#[tactic(auto, using(crate::proofs::FeeLaws::fee_at_dust_rate), unfolding(crate::specs::Output::dust_of))]
pub fn dust(script: &Script) -> u64
    ensures value { result ≡ dust_of script.now }
    ensures most { result ≤ 31_000 }
{
    let bytes = script.bytes();
    if is_unspendable(bytes) {
        0
    } else if is_program(bytes) {
        fee(DUST_RATE, output_size(script) + 67)
    } else {
        fee(DUST_RATE, output_size(script) + 148)
    }
}

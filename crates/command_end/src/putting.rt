//! How a fault line is put: its bytes are gathered in a small buffer on the stack, and put when that is full and at the end. It
//! takes no memory, and nearly each line is one put.

ghost use Rattle.std.specs.Prelude.{◌≡◌, [], ◌∷◌, ◌++◌, OnErr, OnOk};
ghost use Rattle.std.specs.Fmt.{decimal};
ghost use Rattle.hex.specs.Hex.{encode_lower};
ghost use Rattle.command_end.specs.Coin.{coin_text, shown_hash};
ghost use Rattle.command_end.specs.Lines.{fault_line};
ghost use Rattle.command_end.specs.Name.{shown_byte, shown_name};
ghost use Rattle.command_end.specs.Parts.{part_text, parts_text};
ghost use Rattle.command_end.specs.Puts.{IsCut, IsGathered, IsWhole};

use crate::name_words::stands_plain;
use crate::parts::Part;
use arrayvec::ArrayVec;
use fund_base::OutPoint;
use fund_shelf::{Fault, Sink, put_all};
use itoa::Buffer;

/// The bytes that are gathered and not put yet.
type Held = ArrayVec<u8, 256>;

/// Puts what is held, and holds nothing then.
fn put_held<O: Sink>(held: &mut Held, out: &mut O) -> Result<(), Fault>
    ensures whole { OnOk result (IsWhole O.tells held.old.items (O.view out.old) (O.view out.new)) }
    ensures none { OnOk result (held.new.items ≡ []) }
    ensures cut { OnErr result (IsCut O.tells held.old.items (O.view out.old) (O.view out.new)) }
{
    let put = put_all(out, held.as_slice());
    held.clear();
    put
}

/// Gathers a byte where there is no room: it puts what is held before.
fn gather_anew<O: Sink>(byte: u8, held: &mut Held, out: &mut O) -> Result<(), Fault>
    ensures whole { OnOk result (IsGathered O.tells (byte ∷ []) held.old.items held.new.items (O.view out.old) (O.view out.new)) }
    ensures cut { OnErr result (IsCut O.tells (held.old.items ++ (byte ∷ [])) (O.view out.old) (O.view out.new)) }
{
    put_held(held, out)?;
    held.push(byte);
    Ok(())
}

/// Gathers a byte.
fn gather_byte<O: Sink>(byte: u8, held: &mut Held, out: &mut O) -> Result<(), Fault>
    ensures whole { OnOk result (IsGathered O.tells (byte ∷ []) held.old.items held.new.items (O.view out.old) (O.view out.new)) }
    ensures cut { OnErr result (IsCut O.tells (held.old.items ++ (byte ∷ [])) (O.view out.old) (O.view out.new)) }
{
    match held.try_push(byte) {
        Ok(()) => Ok(()),
        Err(_) => gather_anew(byte, held, out),
    }
}

/// Gathers bytes.
fn gather<O: Sink>(bytes: &[u8], held: &mut Held, out: &mut O) -> Result<(), Fault>
    ensures whole { OnOk result (IsGathered O.tells bytes.now held.old.items held.new.items (O.view out.old) (O.view out.new)) }
    ensures cut { OnErr result (IsCut O.tells (held.old.items ++ bytes.now) (O.view out.old) (O.view out.new)) }
{
    for byte in bytes {
        gather_byte(*byte, held, out)?;
    }
    Ok(())
}

/// Gathers bytes, and others behind them.
fn gather_both<O: Sink>(
    first: &[u8],
    second: &[u8],
    held: &mut Held,
    out: &mut O,
) -> Result<(), Fault>
    ensures whole { OnOk result (IsGathered O.tells (first.now ++ second.now) held.old.items held.new.items (O.view out.old) (O.view out.new)) }
    ensures cut { OnErr result (IsCut O.tells (held.old.items ++ (first.now ++ second.now)) (O.view out.old) (O.view out.new)) }
{
    gather(first, held, out)?;
    gather(second, held, out)?;
    Ok(())
}

/// Gathers the lower-case hex digits of 32 bytes behind a word.
fn gather_digest<O: Sink>(
    word: &str,
    digest: &[u8; 32],
    held: &mut Held,
    out: &mut O,
) -> Result<(), Fault>
    ensures whole { OnOk result (IsGathered O.tells (word.now ++ encode_lower digest.now) held.old.items held.new.items (O.view out.old) (O.view out.new)) }
    ensures cut { OnErr result (IsCut O.tells (held.old.items ++ (word.now ++ encode_lower digest.now)) (O.view out.old) (O.view out.new)) }
{
    let mut digits = [0; 64];
    match hex::encode_to_slice(*digest, &mut digits) {
        Ok(()) => gather_both(word.as_bytes(), &digits, held, out),
        Err(_) => unreachable!(),
    }
}

/// Gathers a hash behind a word, as it is shown.
fn gather_hash<O: Sink>(
    word: &str,
    hash: &[u8; 32],
    held: &mut Held,
    out: &mut O,
) -> Result<(), Fault>
    ensures whole { OnOk result (IsGathered O.tells (word.now ++ shown_hash hash.now) held.old.items held.new.items (O.view out.old) (O.view out.new)) }
    ensures cut { OnErr result (IsCut O.tells (held.old.items ++ (word.now ++ shown_hash hash.now)) (O.view out.old) (O.view out.new)) }
{
    let mut bytes = *hash;
    bytes.reverse();
    gather_digest(word, &bytes, held, out)
}

/// Gathers a number behind a word.
fn gather_number<O: Sink>(
    word: &str,
    number: u64,
    held: &mut Held,
    out: &mut O,
) -> Result<(), Fault>
    ensures whole { OnOk result (IsGathered O.tells (word.now ++ decimal number) held.old.items held.new.items (O.view out.old) (O.view out.new)) }
    ensures cut { OnErr result (IsCut O.tells (held.old.items ++ (word.now ++ decimal number)) (O.view out.old) (O.view out.new)) }
{
    let mut buffer = Buffer::new();
    gather_both(word.as_bytes(), buffer.format(number).as_bytes(), held, out)
}

/// Gathers a sum behind a word.
fn gather_sum<O: Sink>(word: &str, sum: u128, held: &mut Held, out: &mut O) -> Result<(), Fault>
    ensures whole { OnOk result (IsGathered O.tells (word.now ++ decimal sum) held.old.items held.new.items (O.view out.old) (O.view out.new)) }
    ensures cut { OnErr result (IsCut O.tells (held.old.items ++ (word.now ++ decimal sum)) (O.view out.old) (O.view out.new)) }
{
    let mut buffer = Buffer::new();
    gather_both(word.as_bytes(), buffer.format(sum).as_bytes(), held, out)
}

/// Gathers a coin behind a word, as it is shown.
fn gather_coin<O: Sink>(
    word: &str,
    coin: &OutPoint,
    held: &mut Held,
    out: &mut O,
) -> Result<(), Fault>
    ensures whole { OnOk result (IsGathered O.tells (word.now ++ coin_text coin.now) held.old.items held.new.items (O.view out.old) (O.view out.new)) }
    ensures cut { OnErr result (IsCut O.tells (held.old.items ++ (word.now ++ coin_text coin.now)) (O.view out.old) (O.view out.new)) }
{
    gather_hash(word, coin.txid.bytes(), held, out)?;
    gather_number(":", u64::from(coin.index), held, out)?;
    Ok(())
}

/// Gathers one byte of a name, as it is shown.
fn gather_shown<O: Sink>(byte: u8, held: &mut Held, out: &mut O) -> Result<(), Fault>
    ensures whole { OnOk result (IsGathered O.tells (shown_byte byte) held.old.items held.new.items (O.view out.old) (O.view out.new)) }
    ensures cut { OnErr result (IsCut O.tells (held.old.items ++ shown_byte byte) (O.view out.old) (O.view out.new)) }
{
    if stands_plain(byte) {
        return gather_byte(byte, held, out);
    }
    let mut digits = [0; 2];
    match hex::encode_to_slice([byte], &mut digits) {
        Ok(()) => gather_both(b"\\x", &digits, held, out),
        Err(_) => unreachable!(),
    }
}

/// Gathers a name, as it is shown.
#[tactic(auto, unfolding(crate::specs::Name::shown_name))]
fn gather_bytewise<O: Sink>(name: &[u8], held: &mut Held, out: &mut O) -> Result<(), Fault>
    ensures whole { OnOk result (IsGathered O.tells (shown_name name.now) held.old.items held.new.items (O.view out.old) (O.view out.new)) }
    ensures cut { OnErr result (IsCut O.tells (held.old.items ++ shown_name name.now) (O.view out.old) (O.view out.new)) }
{
    for byte in name {
        gather_shown(*byte, held, out)?;
    }
    Ok(())
}

/// Gathers a name that a file gives behind a word, as it is shown.
fn gather_name<O: Sink>(word: &str, name: &str, held: &mut Held, out: &mut O) -> Result<(), Fault>
    ensures whole { OnOk result (IsGathered O.tells (word.now ++ shown_name name.now) held.old.items held.new.items (O.view out.old) (O.view out.new)) }
    ensures cut { OnErr result (IsCut O.tells (held.old.items ++ (word.now ++ shown_name name.now)) (O.view out.old) (O.view out.new)) }
{
    gather(word.as_bytes(), held, out)?;
    gather_bytewise(name.as_bytes(), held, out)?;
    Ok(())
}

/// Gathers a part.
fn gather_part<O: Sink>(part: &Part, held: &mut Held, out: &mut O) -> Result<(), Fault>
    ensures whole { OnOk result (IsGathered O.tells (part_text part.now) held.old.items held.new.items (O.view out.old) (O.view out.new)) }
    ensures cut { OnErr result (IsCut O.tells (held.old.items ++ part_text part.now) (O.view out.old) (O.view out.new)) }
{
    match *part {
        Part::Nothing => gather(b"", held, out),
        Part::Text(word) => gather(word.as_bytes(), held, out),
        Part::Number(word, number) => gather_number(word, number, held, out),
        Part::Sum(word, sum) => gather_sum(word, sum, held, out),
        Part::Hash(word, hash) => gather_hash(word, hash, held, out),
        Part::Digest(word, digest) => gather_digest(word, digest, held, out),
        Part::Coin(word, coin) => gather_coin(word, coin, held, out),
        Part::Name(word, name) => gather_name(word, name, held, out),
    }
}

/// Gathers parts, one behind the other.
fn gather_parts<O: Sink>(parts: &[Part], held: &mut Held, out: &mut O) -> Result<(), Fault>
    ensures whole { OnOk result (IsGathered O.tells (parts_text parts.now) held.old.items held.new.items (O.view out.old) (O.view out.new)) }
    ensures cut { OnErr result (IsCut O.tells (held.old.items ++ parts_text parts.now) (O.view out.old) (O.view out.new)) }
{
    for part in parts {
        gather_part(part, held, out)?;
    }
    Ok(())
}

/// Gathers the fault line of these words.
fn gather_line<O: Sink>(words: &[Part], held: &mut Held, out: &mut O) -> Result<(), Fault>
    ensures whole { OnOk result (IsGathered O.tells (fault_line (parts_text words.now)) held.old.items held.new.items (O.view out.old) (O.view out.new)) }
    ensures cut { OnErr result (IsCut O.tells (held.old.items ++ fault_line (parts_text words.now)) (O.view out.old) (O.view out.new)) }
{
    gather(b"fault ", held, out)?;
    gather_parts(words, held, out)?;
    gather(b"\n", held, out)?;
    Ok(())
}

/// Puts the fault line of these words.
pub(crate) fn put_words<O: Sink>(words: &[Part], out: &mut O) -> Result<(), Fault>
    ensures whole { OnOk result (IsWhole O.tells (fault_line (parts_text words.now)) (O.view out.old) (O.view out.new)) }
    ensures cut { OnErr result (IsCut O.tells (fault_line (parts_text words.now)) (O.view out.old) (O.view out.new)) }
{
    let mut held = ArrayVec::new();
    gather_line(words, &mut held, out)?;
    put_held(&mut held, out)?;
    Ok(())
}

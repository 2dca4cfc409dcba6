//! The witness that a value holds.

ghost use Rattle.std.specs.Prelude.{◌≡◌, ◌≢◌, Err, List, ℕ, IfOk, MatchOption, MatchResult};
ghost use Rattle.std.specs.Result.{result_ok};
ghost use Rattle.fund_base.specs.CompactSize.{counted, prefixed};
ghost use Rattle.fund_base.specs.Parsing.{Yields, many_at};
ghost use Rattle.tx_codec.specs.Reading.{item_at, stack_at};
ghost use Rattle.tx_codec.specs.Stack.{lists};
ghost use Rattle.tx_codec.specs.declared.fault.TxFault.TheVariants.{Memory as TxOutOfMemory};
ghost use Rattle.signed_psbt.specs.Signed.{StackFits};

use crate::strings::bytes_of;
use fund_base::{Cursor, Memory, are_bytes};
use std::alloc::Global;
use tx_codec::{TxFault, Witness};

fn item_of(alloc: Global, cursor: &mut Cursor) -> Result<Vec<u8>, TxFault>
    ensures { Yields TxOutOfMemory (λ v. v.items) cursor.new result (item_at cursor.old) }
{
    let bytes = bytes_of(cursor)?;
    Ok(Vec::from_slice(alloc, bytes)?)
}

fn items_of(alloc: Global, count: u64, cursor: &mut Cursor) -> Result<Vec<Vec<u8>>, TxFault>
    ensures { Yields TxOutOfMemory (λ v. lists v.items) cursor.new result (many_at item_at count cursor.old) }
{
    let mut items = Vec::new(alloc);
    for _ in 0..count {
        let item = item_of(alloc, cursor)?;
        items.push(item)?;
    }
    Ok(items)
}

#[tactic(auto, unfolding(fund_base::specs::Parsing::counted_at))]
fn stack_of(alloc: Global, cursor: &mut Cursor) -> Result<Witness, TxFault>
    ensures { Yields TxOutOfMemory (λ x. x) cursor.new result (stack_at cursor.old) }
{
    let count = cursor.compact()?;
    let items = items_of(alloc, count, cursor)?;
    Ok(Witness::new(items))
}

/// What was read, or none where it couldn't be read. Only out of memory is told as that.
fn unless_short(read: Result<Witness, TxFault>) -> Result<Option<Witness>, Memory>
    ensures { MatchResult result (λ o. (o ≡ result_ok read) × (read ≢ Err TxOutOfMemory)) (λ _. read ≡ Err TxOutOfMemory) }
{
    match read {
        Ok(stack) => Ok(Some(stack)),
        Err(TxFault::Memory) => Err(Memory),
        Err(_) => Ok(None),
    }
}

/// The witness that the bytes are, all of them, if they are one. The error is out of memory.
pub(crate) fn stack_in(alloc: Global, bytes: &[u8]) -> Result<Option<Witness>, Memory>
    ensures { IfOk result (λ o. MatchOption o ((stack : List (List ℕ)) → StackFits stack → bytes.now ≢ counted prefixed stack) (λ w. StackFits w × (bytes.now ≡ counted prefixed w))) }
{
    are_bytes(bytes);
    let mut cursor = Cursor::new(bytes);
    let read = stack_of(alloc, &mut cursor);
    let Some(stack) = unless_short(read)? else {
        return Ok(None);
    };
    if !cursor.rest().is_empty() {
        return Ok(None);
    }
    Ok(Some(stack))
}

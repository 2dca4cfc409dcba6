//! Byte strings behind their length.

ghost use Rattle.std.specs.Prelude.{◌≢◌, ◌<◌, Err, IfOk, length};
ghost use Rattle.fund_base.specs.Parsing.{Yields};
ghost use Rattle.tx_codec.specs.Reading.{item_at};
ghost use Rattle.tx_codec.specs.declared.fault.TxFault.TheVariants.{Memory as OutOfMemory};

use fund_base::Cursor;
use tx_codec::TxFault;

/// The bytes behind their number. They aren't copied, so it never runs out of memory.
#[tactic(auto, unfolding(fund_base::specs::Parsing::string_at))]
pub(crate) fn bytes_of<'a>(cursor: &mut Cursor<'a>) -> Result<&'a [u8], TxFault>
    ensures gives { Yields OutOfMemory (λ b. b.now) cursor.new result (item_at cursor.old) }
    ensures never_short { result ≢ Err OutOfMemory }
    ensures shorter { IfOk result (λ _. length cursor.new.rest < length cursor.old.rest) }
{
    let len = cursor.compact()?;
    Ok(cursor.take(len)?)
}

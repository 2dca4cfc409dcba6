//! The lines of recipients that bear the fee.

ghost use Rattle.std.specs.Prelude.{◌≡◌, ◌++◌, OnOk, string_bytes};
ghost use Rattle.command_pay.specs.Table.{shares_text};

use crate::parties::gets_line;
use fund_base::Memory;
use request_making::Payment;
use std::alloc::Global;

/// Puts the lines of the recipients after the text, each with the amount of its place, as long as there are both.
pub fn put_shares(
    alloc: Global,
    text: &mut String,
    payments: &[Payment],
    amounts: &[u64],
) -> Result<(), Memory>
    ensures { OnOk result (string_bytes text.new ≡ string_bytes text.old ++ shares_text payments.now amounts.now) }
{
    for place in 0..payments.len().min(amounts.len()) {
        let line = gets_line(alloc, &payments[place].to, amounts[place])?;
        text.push_str(line.as_str())?;
    }
    Ok(())
}

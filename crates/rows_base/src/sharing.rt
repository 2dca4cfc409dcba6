//! What recipients bear of a fee.
//!
//! - `left BORNE AMOUNTS DUSTS`: the amounts that are left, or the first that is too small. The amounts and the dust thresholds are
//!   in satoshi, with blanks between them, as many of the one as of the other, and none of these above 1,000,000

ghost use Rattle.std.specs.Prelude.{◌≤◌, All, IfOk};

use fee_sharing::{ShareFault, ShareList, shares};
use fund_base::Memory;
use row_columns::{Answer, column, number_in, number_within, numbers_in};
use std::alloc::Global;

/// The dust thresholds of a column.
fn dusts_in(alloc: Global, column: &str) -> Result<Vec<u64>, Memory>
    ensures { IfOk result (λ v. All (λ n. n ≤ 1_000_000) v.items) }
{
    let mut dusts = Vec::new(alloc);
    for word in column.split(' ') {
        dusts.push(number_within(word, 1_000_000))?;
    }
    Ok(dusts)
}

/// Puts amounts, with blanks between them.
fn put_amounts(out: &mut Answer, list: &ShareList) {
    for amount in list.as_slice() {
        out.number(" ", *amount);
    }
}

/// Puts what a row comes to. The error is out of memory.
pub(crate) fn row(out: &mut Answer, columns: &[&str]) -> Result<(), Memory> {
    let amounts = numbers_in(out.alloc, column(columns, 1))?;
    let dusts = dusts_in(out.alloc, column(columns, 2))?;
    if amounts.is_empty() || amounts.len() != dusts.len() {
        out.word("no amounts");
        return Ok(());
    }
    match shares(
        out.alloc,
        number_in(column(columns, 0), 0),
        &amounts,
        &dusts,
    ) {
        Ok(list) => {
            out.word("ok");
            put_amounts(out, &list);
        }
        Err(ShareFault::ShareDust(index)) => { out.number("fault ShareDust ", u64::from(index)) }
        Err(ShareFault::Memory) => out.lack(),
    }
    Ok(())
}

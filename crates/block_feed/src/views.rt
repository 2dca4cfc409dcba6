//! The transactions of a block, as its bytes lend them.

ghost use Rattle.std.specs.Prelude.{◌≡◌, ◌<◌, ◌≤◌, length, IfOk};
ghost use Rattle.std.specs.Iterator.{YieldsFirst, item_count};
ghost use Rattle.block_feed.specs.Names.{held_txs};

use fund_base::{Cursor, Memory};
use std::alloc::Global;
use std::marker::Model;
use tx_codec::{Tx, TxView, pass_tx};

/// The transactions of a block, one by one, in order, as its bytes lend them.
#[derive(Drop)]
pub struct TxViews<'a> {
    cursor: Cursor<'a>,
    left: u64,
}

impl<'a> Model for TxViews<'a> {
    ghost use Rattle.std.specs.Prelude.{List};
    ghost use Rattle.tx_codec.specs.Reading.{tx_at};
    ghost use Rattle.tx_codec.specs.Transaction.{Transaction};
    ghost use Rattle.tx_codec.specs.Views.{items_left};

    ghost Value = { List Transaction };

    ghost view = { λ s. items_left tx_at s.left s.cursor };
}

impl<'a> Iterator for TxViews<'a> {
    type Item = TxView<'a>;

    ghost next_gives = { YieldsFirst (λ s. s) };

    ghost remaining = { item_count (λ s. s) };

    fn next(&mut self) -> Option<TxView<'a>> {
        if self.left == 0 {
            return None;
        }
        match pass_tx(&mut self.cursor) {
            Ok(tx) => {
                self.left -= 1;
                Some(tx)
            }
            Err(_) => {
                self.left = 0;
                None
            }
        }
    }
}

/// The transactions that the bytes of a block at this height hold after their header.
pub fn views_in<'a>(height: u32, body: &'a [u8]) -> TxViews<'a>
    requires long { 80 ≤ length body.now }
    requires some { 0 < length (held_txs height body.now) }
    ensures { result ≡ held_txs height body.now }
{
    let mut cursor = Cursor::new(body);
    let _ = cursor.take(80);
    match cursor.compact() {
        Ok(left) => TxViews { cursor, left },
        Err(_) => TxViews { cursor, left: 0 },
    }
}

/// The transactions as lists.
pub fn lists_of(alloc: Global, views: TxViews) -> Result<Vec<Tx>, Memory>
    ensures { IfOk result (λ v. v.items ≡ views.entry) }
{
    let mut txs = Vec::new(alloc);
    for view in views {
        txs.push(view.to_tx(alloc)?)?;
    }
    Ok(txs)
}

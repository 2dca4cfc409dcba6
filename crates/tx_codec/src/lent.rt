//! What a transaction that lends its text spends and pays, one by one. None of it is copied.

ghost use Rattle.std.specs.Prelude.{◌≡◌};
ghost use Rattle.std.specs.Iterator.{YieldsFirst, YieldsFirstRef, item_count};
ghost use Rattle.tx_codec.specs.Transaction.{Transaction};
ghost use Rattle.tx_codec.specs.Views.{CountsTo, HasBody, points_of, scripts_of};

use crate::passing::{pass_some_inputs, point_of, script_of};
use fund_base::{Cursor, OutPoint};
use std::marker::Model;

/// The outpoints that the inputs of a transaction spend, one by one, in order.
#[derive(Drop)]
pub struct OutPoints<'a> {
    cursor: Cursor<'a>,
    left: u64,
}

impl<'a> Model for OutPoints<'a> {
    ghost use Rattle.std.specs.Prelude.{List};
    ghost use Rattle.fund_base.specs.declared.outpoint.OutPoint.{OutPoint};
    ghost use Rattle.tx_codec.specs.Views.{items_left, point_at};

    ghost Value = { List OutPoint };

    ghost view = { λ s. items_left point_at s.left s.cursor };
}

/// The scripts that the outputs of a transaction pay to, one by one, in order.
#[derive(Drop)]
pub struct Scripts<'a> {
    cursor: Cursor<'a>,
    left: u64,
}

impl<'a> Model for Scripts<'a> {
    ghost use Rattle.std.specs.Prelude.{List, ℕ};
    ghost use Rattle.tx_codec.specs.Views.{items_left, script_at};

    ghost Value = { List (List ℕ) };

    ghost view = { λ s. items_left script_at s.left s.cursor };
}

impl<'a> Iterator for OutPoints<'a> {
    type Item = OutPoint;

    ghost next_gives = { YieldsFirst (λ s. s) };

    ghost remaining = { item_count (λ s. s) };

    fn next(&mut self) -> Option<OutPoint> {
        if self.left == 0 {
            return None;
        }
        match point_of(&mut self.cursor) {
            Ok(point) => {
                self.left -= 1;
                Some(point)
            }
            Err(_) => {
                self.left = 0;
                None
            }
        }
    }
}

impl<'a> Iterator for Scripts<'a> {
    type Item = &'a [u8];

    ghost next_gives = { YieldsFirstRef (λ s. s) };

    ghost remaining = { item_count (λ s. s) };

    fn next(&mut self) -> Option<&'a [u8]> {
        if self.left == 0 {
            return None;
        }
        match script_of(&mut self.cursor) {
            Ok(script) => {
                self.left -= 1;
                Some(script)
            }
            Err(_) => {
                self.left = 0;
                None
            }
        }
    }
}

/// How many items follow the number at the cursor; none where no number stands there.
fn count_of(cursor: &mut Cursor) -> u64
    ensures { CountsTo cursor.old result cursor.new }
{
    match cursor.compact() {
        Ok(count) => count,
        Err(_) => 0,
    }
}

/// The outpoints that are spent by the inputs at the cursor.
pub fn points_from<'a>(cursor: Cursor<'a>) -> OutPoints<'a>
    ensures { (t : Transaction) → HasBody t cursor.entry → result ≡ points_of t }
{
    let mut cursor = cursor;
    let left = count_of(&mut cursor);
    OutPoints { cursor, left }
}

/// The scripts that are paid to by the outputs behind the inputs at the cursor.
pub fn scripts_from<'a>(cursor: Cursor<'a>) -> Scripts<'a>
    ensures { (t : Transaction) → HasBody t cursor.entry → result ≡ scripts_of t }
{
    let mut cursor = cursor;
    let _ = pass_some_inputs(&mut cursor);
    let left = count_of(&mut cursor);
    Scripts { cursor, left }
}

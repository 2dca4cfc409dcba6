//! A transaction as its text lends it.

ghost use Rattle.std.specs.Prelude.{◌≡◌, ◌≢◌, ◌+◌, ◌++◌, ℕ, List, IfOk, OnErr, Err, length};
ghost use Rattle.fund_base.specs.Cursor.{IsBytes};
ghost use Rattle.fund_base.specs.Parsing.{Yields};
ghost use Rattle.tx_codec.specs.declared.fault.TxFault.TheVariants.{Memory as NoMemory, Trailing};
ghost use Rattle.tx_codec.specs.Passing.{start_of, viewed};
ghost use Rattle.tx_codec.specs.Reading.{tx_at};
ghost use Rattle.tx_codec.specs.Transaction.{Transaction};
ghost use Rattle.tx_codec.specs.TransactionText.{IsTransaction, text_of};
ghost use Rattle.tx_codec.specs.Txid.{txid_of};
ghost use Rattle.tx_codec.specs.Views.{HasBody, points_of, scripts_of};

use crate::fault::TxFault;
use crate::hasher::txid_of_parts;
use crate::lent::{OutPoints, Scripts, points_from, scripts_from};
use crate::passing::pass_text;
use crate::reading::read_whole_tx;
use crate::tx::Tx;
use fund_base::{Cursor, Memory, Txid};
use std::alloc::Global;
use std::marker::Model;

/// A transaction as its text lends it: none of it is copied.
#[derive(Drop)]
pub struct TxView<'a> {
    text: &'a [u8],
    segwit: bool,
    len: usize,
}

impl<'a> Model for TxView<'a> {
    ghost use Rattle.tx_codec.specs.Transaction.{Transaction};
    ghost use Rattle.tx_codec.specs.Passing.{IsViewed, viewed};

    ghost Value = { Transaction };

    ghost view = { λ v. viewed v.text.now };

    ghost invariant = { λ v. IsViewed v.text.now v.segwit v.len };
}

/// Where the inputs begin, behind the version and, in the segregated form, marker and flag.
fn start_of(segwit: bool) -> usize
    ensures { result ≡ start_of segwit }
{
    if segwit { 6 } else { 4 }
}

impl<'a> TxView<'a> {
    /// Its text.
    pub fn text(&self) -> &'a [u8]
        ensures text { result.now ≡ text_of self.now }
        ensures whole { IsTransaction self.now }
    {
        self.text
    }

    /// Its txid, which is that of the transaction.
    pub fn txid(&self) -> Txid
        ensures { result ≡ txid_of self.now }
    {
        let (version, _) = self.text.split_at(4);
        let (_, behind) = self.text.split_at(start_of(self.segwit));
        let (body, _) = behind.split_at(self.len);
        let (_, locktime) = self.text.split_at(self.text.len() - 4);
        txid_of_parts(version, body, locktime)
    }

    /// Where its inputs begin, with their number.
    fn body(&self) -> Cursor<'a>
        ensures { HasBody self.now result }
    {
        let (_, body) = self.text.split_at(start_of(self.segwit));
        Cursor::new(body)
    }

    /// The outpoints that its inputs spend, one by one, in order. No list of them is made.
    pub fn outpoints(&self) -> OutPoints<'a>
        ensures { result ≡ points_of self.now }
    {
        points_from(self.body())
    }

    /// The scripts that its outputs pay to, one by one, in order. None of them is copied.
    pub fn scripts(&self) -> Scripts<'a>
        ensures { result ≡ scripts_of self.now }
    {
        scripts_from(self.body())
    }

    /// The transaction, which lends nothing.
    pub fn to_tx(&self, alloc: Global) -> Result<Tx, Memory>
        ensures { IfOk result (λ tx. tx ≡ self.now) }
    {
        match read_whole_tx(alloc, self.text) {
            Ok(tx) => Ok(tx),
            Err(_) => Err(Memory),
        }
    }
}

/// The transaction that stands at the cursor (BIP 144), which ends after it. It has the faults of [`read_tx`](crate::read_tx),
/// asks for no memory, and leaves the cursor where it is after any fault.
pub fn pass_tx<'a>(cursor: &mut Cursor<'a>) -> Result<TxView<'a>, TxFault>
    // What is lent is the text of a transaction, and each such text is lent.
    ensures found { IfOk result (λ tx. IsTransaction tx × (cursor.old.rest ≡ text_of tx ++ cursor.new.rest)) }
    ensures only { (tx : Transaction) (rest : List ℕ) → IsTransaction tx → cursor.old.rest ≡ text_of tx ++ rest → (result ≡ Ok tx) × (cursor.new.rest ≡ rest) }
    ensures place { IfOk result (λ tx. cursor.new.place ≡ cursor.old.place + length (text_of tx)) }

    // Which fault it is.
    ensures exact { Yields NoMemory (λ t. t) cursor.new result (tx_at cursor.old) }
    ensures never_short { result ≢ Err NoMemory }
    ensures never_trailing { (place : ℕ) → result ≢ Err (Trailing place) }
    ensures stays { OnErr result (cursor.new ≡ cursor.old) }
{
    front_of(cursor)
}

fn front_of<'a>(cursor: &mut Cursor<'a>) -> Result<TxView<'a>, TxFault>
    ensures exact { Yields NoMemory (λ t. t) cursor.new result (tx_at cursor.old) }
    ensures never_short { result ≢ Err NoMemory }
    ensures stays { OnErr result (cursor.new ≡ cursor.old) }
    ensures bytes { IsBytes cursor.old.rest }
{
    let text = cursor.rest();
    let mut ahead = cursor.fork();
    let (segwit, len) = pass_text(&mut ahead)?;
    let (text, _) = text.split_at(text.len() - ahead.rest().len());
    *cursor = ahead;
    Ok(TxView { text, segwit, len })
}

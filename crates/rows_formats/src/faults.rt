//! Every fault of transactions, block files and addresses, a line each.

use crate::shown::put_fault;
use block_feed::FeedFault;
use command_end::{address_fault_word, feed_fault_parts, tx_fault_part};
use row_columns::Answer;
use segwit_addr::AddrFault;
use tx_codec::TxFault;

pub(crate) fn transactions(out: &mut Answer) {
    for fault in [
        TxFault::Truncated(u64::MAX),
        TxFault::LongCompact(0),
        TxFault::ValueRange(4_294_967_295),
        TxFault::NoInputs,
        TxFault::NoOutputs,
        TxFault::BadFlag,
        TxFault::EmptyWitness,
        TxFault::Trailing(60),
        TxFault::Memory,
    ] {
        put_fault(out, "", &[tx_fault_part(fault)]);
        out.word("\n");
    }
}

pub(crate) fn blocks(out: &mut Answer) {
    for fault in [
        FeedFault::Magic(7),
        FeedFault::Length(90),
        FeedFault::Tx(840_000, TxFault::Truncated(81)),
        FeedFault::Merkle(1),
        FeedFault::Mutated(2),
        FeedFault::NotLinked([0; 32], *b"0123456789abcdefghijklmnopqrstuv"),
        FeedFault::Trailing(3),
        FeedFault::Empty(4),
        FeedFault::Read,
        FeedFault::Limit,
        FeedFault::Memory,
    ] {
        put_fault(out, "", &feed_fault_parts(&fault));
        out.word("\n");
    }
}

pub(crate) fn addresses(out: &mut Answer) {
    for fault in [
        AddrFault::Length,
        AddrFault::Case,
        AddrFault::Separator,
        AddrFault::Letter,
        AddrFault::Checksum,
        AddrFault::Network,
        AddrFault::Version,
        AddrFault::Padding,
        AddrFault::Memory,
    ] {
        out.word(address_fault_word(fault));
        out.word("\n");
    }
}

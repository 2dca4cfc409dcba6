//! The faults of wallets and of requests, told in words. One that has a name of a file has that of the row.

use crate::shown::put_fault;
use command_end::{request_fault_parts, wallet_fault_parts};
use json_fields::Name;
use request_text::RequestFault;
use row_columns::Answer;
use segwit_addr::AddrFault;
use tx_codec::TxFault;
use wallet_text::WalletFault;

/// The fault of a wallet of this kind.
fn wallet_fault(kind: &str, name: String) -> WalletFault {
    match kind {
        "kind" => WalletFault::Kind(Name::new("root")),
        "member" => WalletFault::Member(name),
        "missing" => WalletFault::Missing(Name::new("change")),
        "tx" => WalletFault::Tx(Name::new("earlier"), 0, TxFault::Truncated(5)),
        "repeat" => WalletFault::Repeat(Name::new("pending"), 3),
        _ => plain_wallet_fault(kind),
    }
}

/// The fault of a wallet of this kind, without a name.
fn plain_wallet_fault(kind: &str) -> WalletFault {
    match kind {
        "json" => WalletFault::NotJson,
        "script" => WalletFault::Script(2),
        "weight" => WalletFault::Weight(12),
        "parent" => WalletFault::ParentLater(1),
        _ => WalletFault::Memory,
    }
}

pub(crate) fn wallet(out: &mut Answer, kind: &str, name: &str) {
    match String::from_str(out.alloc, name) {
        Ok(name) => put_fault(out, "", &wallet_fault_parts(&wallet_fault(kind, name))),
        Err(_) => out.lack(),
    }
}

/// The fault of a request of this kind.
fn request_fault(kind: &str, name: String) -> RequestFault {
    match kind {
        "kind" => RequestFault::Kind(Name::new("recipients")),
        "member" => RequestFault::Member(name),
        "missing" => RequestFault::Missing(Name::new("seed")),
        "rate" => RequestFault::RateRange(Name::new("long_term")),
        "address" => RequestFault::Address(0, AddrFault::Checksum),
        "json" => RequestFault::NotJson,
        "script" => RequestFault::Script(1),
        _ => plain_request_fault(kind),
    }
}

/// The fault of a request of this kind, without a name.
fn plain_request_fault(kind: &str) -> RequestFault {
    match kind {
        "amount" => RequestFault::AmountRange(2),
        "dust" => RequestFault::Dust(0),
        "sum" => RequestFault::SumRange,
        "none" => RequestFault::NoRecipients,
        "tries" => RequestFault::TriesRange,
        "repeat" => RequestFault::Repeat(9),
        _ => RequestFault::Memory,
    }
}

pub(crate) fn request(out: &mut Answer, kind: &str, name: &str) {
    match String::from_str(out.alloc, name) {
        Ok(name) => put_fault(out, "", &request_fault_parts(&request_fault(kind, name))),
        Err(_) => out.lack(),
    }
}

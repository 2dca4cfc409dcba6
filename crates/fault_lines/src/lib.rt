//! A sentence for each fault of a command, and for a report without a payment: what may be its cause, and what to do. Each is a
//! fixed text; what the fault counts or names stands in its fault line. docs/TROUBLES.md has the same sentences. And a fault
//! line read back: the sentence that belongs to it.
#![tactic(auto)]

mod address_sentences;
mod blocks;
mod blocks_sentences;
mod bump;
mod bump_sentences;
mod coin;
mod job;
mod kept_sentences;
mod keys;
mod keys_sentences;
mod laws;
mod line;
mod plan_sentences;
mod psbt;
mod psbt_sentences;
mod report;
mod report_sentences;
mod request;
mod request_sentences;
mod settle;
mod settle_sentences;
mod signed;
mod stop;
mod transaction;
mod transaction_sentences;
mod unpaid_sentences;
mod unsuited;
mod wallet;
mod wallet_sentences;
mod word;

pub use address_sentences::address_sentence;
pub use blocks_sentences::blocks_sentence;
pub use bump_sentences::bump_sentence;
pub use kept_sentences::kept_sentence;
pub use keys_sentences::{
    keys_form_sentence, keys_kind_sentence, keys_member_sentence, keys_missing_sentence,
    keys_sentence,
};
pub use laws::{
    inputs_have_their_sentence, jobs_have_their_sentence, keys_have_their_sentence,
    lines_have_their_sentence, reports_have_their_sentence, settlings_have_their_sentence,
    signed_have_their_sentence, stops_have_their_sentence, unpaid_have_their_sentence,
    unsuited_have_their_sentence,
};
pub use line::line_sentence;
pub use plan_sentences::plan_sentence;
pub use psbt_sentences::{
    key_global_sentence, key_input_sentence, key_output_sentence, missing_sentence,
    other_output_sentence, other_pairs_sentence, psbt_sentence,
};
pub use report_sentences::check_sentence;
pub use request_sentences::{
    rate_range_sentence, request_kind_sentence, request_member_sentence, request_missing_sentence,
    request_sentence,
};
pub use settle_sentences::{differing_sentence, settle_sentence};
pub use signed::signed_sentence;
pub use stop::{Stop, stop_sentence};
pub use transaction_sentences::tx_sentence;
pub use unpaid_sentences::{none_sentence, unfinished_sentence};
pub use unsuited::{Unsuited, unsuited_sentence};
pub use wallet_sentences::{
    wallet_kind_sentence, wallet_member_sentence, wallet_missing_sentence, wallet_repeat_sentence,
    wallet_sentence,
};

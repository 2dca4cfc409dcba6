//! Laws of the lines by which commands stop: each that one prints has its sentence. It has laws alone.
#![tactic(auto)]

mod laws;

pub use laws::{
    judgements_have_their_sentence, limits_have_their_sentence, refusals_have_their_sentence,
    unpaid_reports_have_their_sentence, unsuited_requests_have_their_sentence,
};

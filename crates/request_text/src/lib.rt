//! The request file: what is to be paid and how coins are to be chosen for it, read exactly or refused with the first
//! fault.
#![tactic(auto)]

mod bounds;
mod coins;
mod fault;
mod laws;
mod member;
mod outputs;
mod reading;
mod recipients;
mod request;
mod settings;

pub use fault::RequestFault;
pub use laws::{
    finds_repeats, judges_recipient_lists, judges_recipients, reads_members, reads_methods,
    reads_ranges, reads_seeds, reads_versions,
};
pub use outputs::{MOST_COUNTED, outputs_count, outputs_size};
pub use reading::read_request;
pub use request::{Method, Recipient, Request};

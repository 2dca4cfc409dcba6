//! The report of a payment by the wide search, read back as the payment. It is written as that of any payment is, and differs in
//! its stage alone.
#![tactic(auto)]

mod fault;
mod front;
mod laws;
mod reading;

pub use fault::WideReportFault;
pub use laws::wide_texts_have_one_payment;
pub use reading::read_wide_report;

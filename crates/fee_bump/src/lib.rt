//! Replacement by fee (BIP 125): what goes with the pending payment that a request replaces, and what its replacement is
//! made from. It reads the states of payments and the coins of a book, and knows no file and no plan.
#![tactic(auto)]

mod bump;
mod burden;
mod fault;
mod laws;
mod rate;
mod replaced;
mod terms;
mod together;

pub use bump::{bump_terms, known_terms};
pub use fault::BumpFault;
pub use laws::{
    burdens_pay_for_replacing, conflicts_are_replaced, faults_have_one_cause, replaced_by_ways,
    replacements_pay_more, terms_by_rules, terms_fit_a_plan,
};
pub use terms::BumpTerms;

//! The most that listed coins pay, where no other coin is added: what they are worth less their fees and prices and the fee of the base.
//! And the law that a payment of exactly that has no change and leaves nothing over. It knows no file and no words.
#![tactic(auto)]

mod laws;
mod most;

pub use laws::{amounts_leave_the_maximum, listed_coins_pay_no_more};
pub use most::maximum;

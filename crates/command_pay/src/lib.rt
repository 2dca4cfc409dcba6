//! The command that pays: from the words of a payment to the payment, by the command `fund`, `wide` or `share` over a request that is
//! made of them; the greatest fee that is taken; and the new files that are asked for. A payment shown to people: whom it pays, from which
//! coins, its fee and its change, what its mark promises, and what is said where it is not taken or not written. And files of which
//! new ones are opened as such alone, and of which it is told how far they are read.
#![tactic(auto)]

mod change;
mod fees;
mod laws;
mod lines;
mod new_files;
mod outcome;
mod parties;
mod paying;
mod progress;
mod rates;
mod report;
mod run;
mod said;
mod saving;
mod shares;
mod table;

pub use change::is_change_listed;
pub use fees::{fee_ceiling, is_fee_taken};
pub use laws::{
    failed_reads_are_counted, money_goes_as_asked, payments_are_as_asked, savings_are_later_fees,
};
pub use lines::{fee_line, mark_sentence};
pub use new_files::NewFileShelf;
pub use outcome::Ending;
pub use parties::gets_line;
pub use paying::{pay, pay_asked};
pub use progress::ProgressShelf;
pub use rates::rate_of;
pub use report::PaidReport;
pub use said::{change_warning, high_fee_text, unread_warning, unwritten_text};
pub use table::{put_coins, table_text};

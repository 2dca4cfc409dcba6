//! The words of `ninelace pay`: flags with what is said behind them, read as what a payment asks for, or refused for
//! their first fault; and the request file of what was asked.
#![tactic(auto)]

mod address;
mod asked;
mod fault;
mod flag;
mod given;
mod laws;
mod line_fault;
mod lines;
mod payments;
mod refused;
mod sentence;
mod settings;
mod spread;
mod values;
mod way;

pub use address::Network;
pub use asked::{Asked, Names, read_pay};
pub use fault::WordFault;
pub use flag::{Flag, flag_word};
pub use laws::{
    addresses_pay_to_scripts, bearing_chooses_all, bumping_lists_no_coin,
    consolidating_chooses_all, flags_have_one_word, flags_take_values_behind_signs,
    lines_are_paid_behind_words, low_rates_are_allowed, names_are_apart,
};
pub use line_fault::LineFault;
pub use lines::{PAY_FILE_LIMIT, line_of, line_words};
pub use refused::refused_payment;
pub use sentence::{flag_about, letter_about, pay_file_sentence, word_place, word_sentence};
pub use spread::spread_words;
pub use values::value_in;
pub use way::Way;

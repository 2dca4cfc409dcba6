//! What the coins of a wallet come to, class by class: those that may be spent, and those that may not, each for its cause. Each coin is in
//! one class. It knows no file.
#![tactic(auto)]

mod class;
mod classes;
mod laws;
mod lines;
mod totals;

pub use class::CoinClass;
pub use classes::{ClassedCoin, coin_classes};
pub use laws::{classes_tell_candidates, coins_count_once};
pub use lines::totals_text;
pub use totals::{Total, total_of};

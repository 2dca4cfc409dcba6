//! What stored runs are made of: what the columns of their rows stand for, how they are read, and the answers that
//! are printed of them.
#![tactic(auto)]

mod answer;
mod bytes;
mod columns;
mod problems;
mod rows;

pub use answer::Answer;
pub use bytes::unescaped;
pub use columns::{
    best_in, bytes_in, column, digest_in, hash_in, number_in, number_within, numbers_in, point_in,
    script_in, short_in, words_behind,
};
pub use problems::{places_in, places_of, problem_in};
pub use rows::{Rows, answer_rows};

//! What is said to people beside what commands print: of a status by its number, of a word of the other program, of a text in
//! place of a file, of a new file that is there already, and of scripts that may be slips.
#![tactic(auto)]

mod files;
mod laws;
mod nothing;
mod scripts;
mod statuses;
mod words;

pub use files::there_text;
pub use laws::statuses_are_numbered;
pub use nothing::{none_advice, none_swept};
pub use scripts::{payee_warning, warnings_text};
pub use statuses::{status_numbered, status_sentence};
pub use words::{is_other_command, is_psbt_text, other_command_sentence, psbt_text_sentence};

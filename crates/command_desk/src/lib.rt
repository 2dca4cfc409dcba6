//! The command of a desk: it reads a wallet, its blocks and a script, and prints the desk's reply to each line of the script
//! before it reads the file that the next line names. The lines of a script, what each of them says, and the line that shows a
//! reply; what the files come to, how the command ends, and the laws of that.
#![tactic(auto)]

mod answer;
mod command;
mod doing;
mod ending;
mod halt;
mod laws;
mod line;
mod reading;
mod reply_text;
mod running;
mod script;
mod script_laws;
mod starting;
mod stop;

pub use command::desk;
pub use laws::{scripts_have_one_course, scripts_run_the_machine};
pub use line::{Line, parse};
pub use reply_text::{other_line, reply_line};
pub use script::next_line;
pub use script_laws::{lines_are_cut, lines_are_read};

//! A signed transaction beside the payment that was to be signed, shown to people: what each input truly weighs and was declared
//! to weigh, the fee, and what is left over. The transaction is hex, or a PSBT whose inputs are all final. No signature is checked.
#![tactic(auto)]

mod forms;
mod inputs;
mod laws;
mod said;
mod settling;
mod signed;
mod stop;
mod table;

pub use forms::Form;
pub use inputs::WeighedInput;
pub use laws::hex_is_held_as_hex;
pub use said::{unfinished_text, unsigned_text};
pub use settling::{Settlement, settlement_of};
pub use stop::Stop;
pub use table::table_text;

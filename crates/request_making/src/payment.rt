//! What is to be paid, and to whom.

use fund_base::Script;

/// To whom is paid.
#[derive(Drop)]
pub enum Payee {
    /// An address, as it was given; it is judged where the request is read.
    Address(String),
    /// The script of an output.
    Script(Script),
}

/// One payment: an output that is asked for.
#[derive(Drop)]
pub struct Payment {
    /// To whom.
    pub to: Payee,
    /// How much, in satoshi.
    pub amount: u64,
}

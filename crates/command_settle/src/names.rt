//! The names of the files by which a signed transaction is judged.

/// The names of the files by which a signed transaction is judged.
#[derive(Clone, Copy)]
pub struct SettleNames<'a> {
    /// The wallet file.
    pub wallet: &'a str,
    /// The request file.
    pub request: &'a str,
    /// The report of the payment.
    pub report: &'a str,
    /// The signed transaction in hex.
    pub tx: &'a str,
}

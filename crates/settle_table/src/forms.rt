//! In what form a file has a signed transaction.

ghost use Rattle.std.specs.Prelude.{◌≡◌};
ghost use Rattle.settle_table.specs.Forms.{form_of};

/// In what form a file has a signed transaction, told by how it begins.
#[derive(Clone, Copy)]
pub enum Form {
    /// The transaction in hex (BIP 144).
    Hex,
    /// A PSBT in base64 (RFC 4648, section 4).
    Base64,
    /// A PSBT as bytes, in version 0 (BIP 174) or 2 (BIP 370).
    Binary,
}

/// The form of a file: a PSBT where it begins as each of them does, and otherwise hex.
pub(crate) fn form_of(file: &[u8]) -> Form
    ensures { result ≡ form_of file.now }
{
    if file.starts_with(b"psbt\xff") {
        Form::Binary
    } else if file.starts_with(b"cHNidP") {
        Form::Base64
    } else {
        Form::Hex
    }
}

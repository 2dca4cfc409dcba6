//! The law of forms. A call of it does nothing.

ghost use Rattle.std.specs.Prelude.{◌≡◌, ℕ, List, Ok};
ghost use Rattle.tx_codec.specs.Transaction.{Transaction};
ghost use Rattle.command_settle.specs.Files.{signed_of};
ghost use Rattle.settle_table.specs.Forms.{Holds, form_of};
ghost use Rattle.settle_table.specs.declared.forms.Form.TheVariants.{Hex};

/// The law of forms: what the command `settle` reads as a transaction in hex begins as no PSBT does, so it is held as that.
pub fn hex_is_held_as_hex()
    ensures form { (file : List ℕ) (t : Transaction) → signed_of file ≡ Ok t → form_of file ≡ Hex }
    ensures holds { (file : List ℕ) (t : Transaction) → signed_of file ≡ Ok t → Holds file t }
{}

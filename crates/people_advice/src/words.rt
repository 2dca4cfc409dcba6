//! Words that aren't meant for this program, and a text in place of a file's name.

ghost use Rattle.std.specs.Prelude.{◌≡◌, ◌||◌, bytes_eq, codes, option_copied, is_some};
ghost use Rattle.people_advice.specs.Words.{behind, is_other_command, is_psbt_text, other_command_sentence, psbt_text_sentence};

/// Whether the word is that of a command which `fund_cli` has and `ninelace` hasn't.
pub fn is_other_command(word: &str) -> bool
    ensures { result ≡ is_other_command word.now }
{
    word == "fund"
        || word == "resume"
        || word == "wide"
        || word == "share"
        || word == "work"
        || word == "desk"
}

/// What is said of such a word.
#[tactic(auto, unfolding(crate::specs::Words::other_command_sentence))]
pub fn other_command_sentence() -> &'static str
    ensures { result.now ≡ other_command_sentence }
{
    "This is a command of fund_cli, the program that reads a request file: ninelace pay makes the request of its words."
}

/// What stands behind this front, if the bytes begin with it.
fn behind<'a>(bytes: &'a [u8], front: &[u8]) -> Option<&'a [u8]>
    ensures { option_copied result ≡ behind front.now bytes.now }
{
    match bytes.strip_prefix(front) {
        Some(rest) => Some(rest),
        None => None,
    }
}

/// Whether the word begins as a PSBT in base64 does (BIP 174).
pub fn is_psbt_text(word: &str) -> bool
    ensures { result ≡ is_psbt_text word.now }
{
    behind(word.as_bytes(), b"cHNidP").is_some()
}

/// What is said of such a word where the name of a file is wanted.
#[tactic(auto, unfolding(crate::specs::Words::psbt_text_sentence))]
pub fn psbt_text_sentence() -> &'static str
    ensures { result.now ≡ psbt_text_sentence }
{
    "This is the text of a PSBT, and no file: put it into a file, and give the name of that."
}

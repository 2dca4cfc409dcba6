//! The tokens of a wide log.

ghost use Rattle.std.specs.Prelude.{◌≡◌, IfSome};
ghost use Rattle.wide_check.specs.WideTokens.{letter_of, token_of};

/// Why a branch of a wide tree is closed.
#[derive(Clone, Copy, PartialEq, Eq)]
pub enum WideReason {
    /// S: with all that is left it doesn't reach `lo`.
    Short,
    /// O: it is above `hi`.
    Over,
    /// H: it is above the limit of weight.
    Heavy,
    /// V: with all that later places save it wastes more than the answer, or as much where the answer was met already.
    Wasteful,
    /// N: no place is left.
    Ended,
}

/// One letter of a wide log.
#[derive(Clone, Copy, PartialEq, Eq)]
pub enum WideToken {
    /// I splits the node: first the lists that hold the next place, and once these are closed those that don't.
    Enter,
    /// T passes the items that are equal to one just left out, in value, weight and cost.
    Pass,
    /// B: the chosen places are a selection: the answer, or one that doesn't beat it. It closes nothing.
    Mark,
    /// The branch is closed.
    Close(WideReason),
}

impl WideToken {
    /// The token's letter, in ASCII.
    pub fn letter(self) -> u8
        ensures letter { result ≡ letter_of self }
        ensures found { token_of result ≡ Some self }
    {
        match self {
            WideToken::Enter => b'I',
            WideToken::Pass => b'T',
            WideToken::Mark => b'B',
            WideToken::Close(WideReason::Short) => b'S',
            WideToken::Close(WideReason::Over) => b'O',
            WideToken::Close(WideReason::Heavy) => b'H',
            WideToken::Close(WideReason::Wasteful) => b'V',
            WideToken::Close(WideReason::Ended) => b'N',
        }
    }

    /// The token of a letter in ASCII; `None` for bytes that are the letter of none.
    pub fn of(letter: u8) -> Option<WideToken>
        ensures token { result ≡ token_of letter }
        ensures letter { IfSome result (λ token. letter_of token ≡ letter) }
    {
        match letter {
            b'I' => Some(WideToken::Enter),
            b'T' => Some(WideToken::Pass),
            b'B' => Some(WideToken::Mark),
            b'S' => Some(WideToken::Close(WideReason::Short)),
            b'O' => Some(WideToken::Close(WideReason::Over)),
            b'H' => Some(WideToken::Close(WideReason::Heavy)),
            b'V' => Some(WideToken::Close(WideReason::Wasteful)),
            b'N' => Some(WideToken::Close(WideReason::Ended)),
            _ => None,
        }
    }
}

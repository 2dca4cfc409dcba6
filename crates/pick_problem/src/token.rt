//! The tokens of a closing log.

ghost use Rattle.std.specs.Prelude.{◌≡◌, IfSome};
ghost use Rattle.pick_problem.specs.Tokens.{letter_of, token_of};

/// Why a branch of a closing tree is closed.
#[derive(Clone, Copy, PartialEq, Eq)]
pub enum Reason {
    /// S: with all that is left it doesn't reach `lo`.
    Short,
    /// O: without change it is above `hi`.
    Over,
    /// H: it is above the limit of weight.
    Heavy,
    /// M: it needs one more item, and with the lightest it is above the limit of weight.
    NoRoom,
    /// W: without change it wastes no less than the answer.
    Worse,
    /// L: it is heavier than the answer.
    Heavier,
    /// F: it is heavier than the answer with as many of the lightest items as it needs at least.
    Far,
    /// A: it reaches `lo`.
    Hit,
}

/// One letter of a closing log.
#[derive(Clone, Copy, PartialEq, Eq)]
pub enum Token {
    /// I: the selections with the next place, and after them those without it.
    Enter,
    /// T: the run of twins of a place that isn't chosen is passed.
    Pass,
    /// The branch is closed.
    Close(Reason),
}

impl Token {
    /// The token's letter, in ASCII.
    pub fn letter(self) -> u8
        ensures letter { result ≡ letter_of self }
        ensures found { token_of result ≡ Some self }
    {
        match self {
            Token::Enter => b'I',
            Token::Pass => b'T',
            Token::Close(Reason::Short) => b'S',
            Token::Close(Reason::Over) => b'O',
            Token::Close(Reason::Heavy) => b'H',
            Token::Close(Reason::NoRoom) => b'M',
            Token::Close(Reason::Worse) => b'W',
            Token::Close(Reason::Heavier) => b'L',
            Token::Close(Reason::Far) => b'F',
            Token::Close(Reason::Hit) => b'A',
        }
    }

    /// The token of a letter in ASCII; `None` for bytes that are the letter of none.
    pub fn of(letter: u8) -> Option<Token>
        ensures token { result ≡ token_of letter }
        ensures letter { IfSome result (λ token. letter_of token ≡ letter) }
    {
        match letter {
            b'I' => Some(Token::Enter),
            b'T' => Some(Token::Pass),
            b'S' => Some(Token::Close(Reason::Short)),
            b'O' => Some(Token::Close(Reason::Over)),
            b'H' => Some(Token::Close(Reason::Heavy)),
            b'M' => Some(Token::Close(Reason::NoRoom)),
            b'W' => Some(Token::Close(Reason::Worse)),
            b'L' => Some(Token::Close(Reason::Heavier)),
            b'F' => Some(Token::Close(Reason::Far)),
            b'A' => Some(Token::Close(Reason::Hit)),
            _ => None,
        }
    }
}

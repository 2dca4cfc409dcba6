//! Scores of selections.

ghost use Rattle.std.specs.Prelude.{◌↔◌, IsTrue};
ghost use Rattle.pick_problem.specs.Score.{IsBelow, IsSame};

/// How good an admissible selection is: the lower the better. Scores are compared by the first number, then by the
/// second. Without change it is the waste in satoshi, and 0; else the weight in weight units, then the value in
/// satoshi.
#[derive(Clone, Copy, PartialEq, Eq, PartialOrd, Ord)]
pub struct Score {
    /// The waste or the weight.
    pub first: i128,
    /// 0 or the value.
    pub second: u128,
}

impl Score {
    /// Whether this score is lower than the other: its first number is, or the first numbers are equal and the second
    /// is.
    pub fn is_below(&self, other: &Score) -> bool
        ensures below { IsTrue result ↔ IsBelow self.now other.now }
    {
        self < other
    }

    /// Whether both numbers are equal.
    pub fn is_same(&self, other: &Score) -> bool
        ensures same { IsTrue result ↔ IsSame self.now other.now }
    {
        self == other
    }
}

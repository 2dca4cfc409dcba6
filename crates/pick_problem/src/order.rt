//! Which of two lists of places comes before the other.

ghost use Rattle.std.specs.Prelude.{◌≡◌, ◌↔◌, IsTrue, ℕ};
ghost use Rattle.pick_problem.specs.Best.{ComesBefore, comes_before};
ghost use Rattle.pick_problem.specs.Problem.{Rising};

/// The test that [`before`] is, for any lists.
fn compare(a: &[u32], b: &[u32]) -> bool
    ensures { result ≡ comes_before a.now b.now }
{
    let mut left = a;
    let mut right = b;
    'comparing: while let [x, after @ ..] = left {
        let [y, beyond @ ..] = right else {
            return true;
        };
        if x != y {
            return x < y;
        }
        left = after;
        right = beyond;
    }
    false
}

/// Whether the first place at which two rising lists differ is in the first of them: so 0 1 2 comes before 0 1, and
/// 0 1 before 0 2.
pub fn before(a: &[u32], b: &[u32]) -> bool
    ensures value { result ≡ comes_before a.now b.now }
    ensures first { (n : ℕ) → Rising n 0 a.now → Rising n 0 b.now → (IsTrue result ↔ ComesBefore a.now b.now) }
{
    compare(a, b)
}

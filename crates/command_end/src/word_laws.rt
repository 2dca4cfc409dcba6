//! What the texts of this crate keep.

ghost use Rattle.std.specs.Prelude.{◌≡◌, ◌<◌, All, IsTrue, List, ℕ};
ghost use Rattle.std.specs.Int.{IsInRange};
ghost use Rattle.fund_base.specs.Cursor.{IsBytes};
ghost use Rattle.fund_base.specs.declared.outpoint.OutPoint.{OutPoint};
ghost use Rattle.command_end.specs.Coin.{IsShown, coin_text, shown_hash};
ghost use Rattle.command_end.specs.Name.{shown_name, stands_plain};

/// The law of shown names: each byte of one is printable ASCII without the blank, so that a name doesn't end its
/// line and is never two words, whatever a file writes there; two names that differ are shown differently; and a
/// name without any byte that would have to be written by its digits is shown as it is.
pub fn names_are_told_apart()
    ensures printable { (name : List ℕ) → All (λ byte. byte < 256) name → All (IsInRange 33 126) (shown_name name) }
    ensures apart { (a b : List ℕ) → All (λ byte. byte < 256) a → All (λ byte. byte < 256) b → shown_name a ≡ shown_name b → a ≡ b }
    ensures plain { (name : List ℕ) → All (λ byte. IsTrue (stands_plain byte)) name → shown_name name ≡ name }
{}

/// The law of shown hashes and coins: two that differ are shown differently.
pub fn coins_are_told_apart()
    ensures hash { (a b : List ℕ) → IsBytes a → IsBytes b → shown_hash a ≡ shown_hash b → a ≡ b }
    ensures coin { (a b : OutPoint) → IsShown a → IsShown b → coin_text a ≡ coin_text b → a ≡ b }
{}

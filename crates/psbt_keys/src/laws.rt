//! What the definitions of adding come to.

ghost use Rattle.std.specs.Prelude.{◌≡◌, List, All, Contains};
ghost use Rattle.psbt_codec.specs.Psbt.{Pair};
ghost use Rattle.psbt_keys.specs.Extended.{IsExtended};

/// The law of adding twice: a map that was extended has every pair that is due, and where a map has them all nothing is added. A
/// call does nothing.
pub fn adds_once()
    ensures stand { (due : List Pair) (old : List Pair) (new : List Pair) → IsExtended due old new → All (Contains new) due }
    ensures nothing { (due : List Pair) (old : List Pair) (new : List Pair) → All (Contains old) due → IsExtended due old new → new ≡ old }
{}

//! What the definitions of reading come to, in words that don't follow the reading.

ghost use Rattle.std.specs.Prelude.{◌≡◌, ℕ, List, Some};
ghost use Rattle.keys_text.specs.Paths.{IsPathText, path_in};

/// The law of paths: a text is read as one exactly where it is an m and its steps, each behind a slash, and at most 255 of
/// them. A step is a number below 2^31 in decimal, and an h or a ' behind it adds 2^31 to its index.
pub fn reads_paths()
    ensures found { (text path : List ℕ) → path_in text ≡ Some path → IsPathText text path }
    ensures only { (text path : List ℕ) → IsPathText text path → path_in text ≡ Some path }
{}

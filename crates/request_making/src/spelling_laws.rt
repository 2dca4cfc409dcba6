//! What the definitions of spelling and of printing come to.

ghost use Rattle.std.specs.Prelude.{◌≡◌, ◌<◌, ◌≤◌, ◌^◌, ◌↔◌, ℕ, List, Option, Ok};
ghost use Rattle.request_making.specs.Printed.{btc_text, rate_text, sat_text};
ghost use Rattle.request_making.specs.Spelled.{IsCut, judged, spelled};
ghost use Rattle.request_making.specs.Spelling.{IsSpelled};
ghost use Rattle.request_making.specs.declared.unit.Kind.{Kind};
ghost use Rattle.request_making.specs.declared.unit.Kind.TheVariants.{Amount, Rate};

/// The law of spellings: a text is read as a number exactly where it spells that and the number isn't too great. Each
/// text has a cut into its parts, and it comes to what the parts of any cut come to: their number, or their first fault.
pub fn judges_spellings()
    ensures taken { (kind : Kind) (most n : ℕ) (text : List ℕ) → (spelled kind most text ≡ Ok n) ↔ (IsSpelled kind text n × (n ≤ most)) }
    ensures first { (kind : Kind) (most : ℕ) (text whole : List ℕ) (fraction : Option (List ℕ)) (unit : List ℕ) → IsCut text whole fraction unit → spelled kind most text ≡ judged kind most whole fraction unit }
    ensures cut { (text : List ℕ) → (whole : List ℕ) × ((fraction : Option (List ℕ)) × ((unit : List ℕ) × IsCut text whole fraction unit)) }
{}

/// The law of printing: what is printed of an amount or of a rate is read back as that. The greatest number is any of 64
/// bits.
pub fn reads_printed()
    ensures sat { (most n : ℕ) → most < 2 ^ 64 → n ≤ most → spelled Amount most (sat_text n) ≡ Ok n }
    ensures btc { (most n : ℕ) → most < 2 ^ 64 → n ≤ most → spelled Amount most (btc_text n) ≡ Ok n }
    ensures rate { (most n : ℕ) → most < 2 ^ 64 → n ≤ most → spelled Rate most (rate_text n) ≡ Ok n }
{}

//! Shares that were worked out by hand.

ghost use Rattle.std.specs.Prelude.{◌≡◌, [], ◌∷◌};
ghost use Rattle.fee_sharing.specs.Shares.{IsFirstShort, left_of};

/// Three recipients of 30,000 satoshi bear 2,030, and the first of them the 2 that are left over. Two bear 910, half of it
/// each. An amount of 294, which is its dust threshold, can't bear even 1 satoshi. A call does nothing.
pub fn worked_shares()
    ensures three { left_of 2_030 (30_000 ∷ 30_000 ∷ 30_000 ∷ []) ≡ 29_322 ∷ 29_324 ∷ 29_324 ∷ [] }
    ensures two { left_of 910 (40_000 ∷ 30_000 ∷ []) ≡ 39_545 ∷ 29_545 ∷ [] }
    ensures dust { IsFirstShort 2_030 (70_000 ∷ 294 ∷ []) (294 ∷ 294 ∷ []) 1 }
{}

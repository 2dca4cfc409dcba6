//! The wide walks of small problems, worked out by hand from the table of rules. A call does nothing.

ghost use Rattle.std.specs.Prelude.{◌≡◌, [], ◌∷◌, Some, None, codes};
ghost use Rattle.pick_problem.specs.Examples.{ended, paused};
ghost use Rattle.wide_search.specs.Examples.{above_hi, as_much, both_save, late_saving, told, too_heavy, too_little};
ghost use Rattle.wide_search.specs.Examples.{two_alike, two_coins};
ghost use Rattle.wide_search.specs.WideWalk.{walk};

/// The walks of some small problems: where they stand, and their letters. With 20 tries granted each is done before. The
/// second item of `both_save` isn't needed, and the list with it wastes least. In `as_much` the second item lowers the waste
/// by as much as its value raises it: both lists waste the same, and the first stays. Every letter and every rule occurs.
pub fn wide_worked_walks()
    ensures both { told (walk both_save 20) ≡ ended 2 (Some (0 ∷ 1 ∷ [])) 3 (codes "IBIBNNISS") }
    ensures one_try { told (walk both_save 1) ≡ paused (0 ∷ []) 1 (Some (0 ∷ [])) 1 (codes "IB") }
    ensures coins { told (walk two_coins 20) ≡ ended 2 (Some (0 ∷ 1 ∷ [])) 3 (codes "IBIBNNISS") }
    ensures first { told (walk as_much 20) ≡ ended 2 (Some (0 ∷ [])) 3 (codes "IBIVNISS") }
    ensures little { told (walk too_little 20) ≡ ended 1 None 0 (codes "S") }
    ensures over { told (walk above_hi 20) ≡ ended 1 None 1 (codes "ION") }
    ensures heavy { told (walk too_heavy 20) ≡ ended 1 None 1 (codes "IHN") }
    ensures twins { told (walk two_alike 20) ≡ ended 3 (Some (1 ∷ 2 ∷ [])) 5 (codes "IBIBIVNTNIIBNNTN") }
    ensures late { told (walk late_saving 20) ≡ ended 3 (Some (0 ∷ 2 ∷ [])) 6 (codes "IBIBIBNNIBNNIVISS") }
{}

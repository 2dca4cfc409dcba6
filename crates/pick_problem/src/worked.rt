//! The walks of small problems, worked out by hand from the table of rules. A call of any of them does nothing.

ghost use Rattle.std.specs.Prelude.{◌≡◌, [], ◌∷◌, Some, None, codes};
ghost use Rattle.pick_problem.specs.Examples.{above_hi, ended, falling_values, far_off, far_with_one, light_pair, lighter_left, lightest_first, one_heavy, other_cost, paused, same_value, three_alike, told, too_heavy, too_little};
ghost use Rattle.pick_problem.specs.Walk.{walk};

/// The walks of some small problems: where they stand, and their letters. With 20 tries granted each is done before.
pub fn worked_walks()
    ensures changeless { told (walk falling_values 20) ≡ ended 4 (Some (0 ∷ 1 ∷ [])) 8 (codes "IIAIWISSIIWISSISS") }
    ensures three_tries { told (walk falling_values 3) ≡ paused (0 ∷ []) 3 (Some (0 ∷ 1 ∷ [])) 3 (codes "IIAIW") }
    ensures lean { told (walk light_pair 20) ≡ ended 3 (Some (1 ∷ 2 ∷ [])) 6 (codes "IIAIASIIASISS") }
    ensures halfway { told (walk light_pair 3) ≡ paused [] 1 (Some (0 ∷ 2 ∷ [])) 3 (codes "IIAIAS") }
    ensures little { told (walk too_little 20) ≡ ended 1 None 0 (codes "S") }
{}

/// Walks that reach each rule of a search without change, and its twins: an item above `hi`; one that is too heavy,
/// with a lighter one after it; twins that are passed; and items that aren't twins, since their costs differ.
pub fn worked_changeless_walks()
    ensures over { told (walk above_hi 20) ≡ ended 1 None 1 (codes "IOS") }
    ensures heavy { told (walk one_heavy 20) ≡ ended 2 None 2 (codes "IHISS") }
    ensures twins { told (walk three_alike 20) ≡ ended 3 (Some (0 ∷ [])) 1 (codes "IATS") }
    ensures costs { told (walk other_cost 20) ≡ ended 2 (Some (0 ∷ [])) 2 (codes "IAIWS") }
{}

/// Walks that reach each rule of a search by weight, with a cut where the item is the lightest one left and a shift
/// where it isn't; and twins, which are equal in value alone.
pub fn worked_lean_walks()
    ensures heavy { told (walk too_heavy 20) ≡ ended 3 None 3 (codes "IIHMISS") }
    ensures heavier { told (walk lightest_first 20) ≡ ended 4 (Some (0 ∷ [])) 2 (codes "IAILF") }
    ensures heavier_goes_on { told (walk lighter_left 20) ≡ ended 3 (Some (0 ∷ [])) 3 (codes "IAILISS") }
    ensures far { told (walk far_off 20) ≡ ended 4 (Some (0 ∷ [])) 2 (codes "IAIFS") }
    ensures far_goes_on { told (walk far_with_one 20) ≡ ended 4 (Some (0 ∷ [])) 3 (codes "IAIFISS") }
    ensures twins { told (walk same_value 20) ≡ ended 3 (Some (0 ∷ [])) 2 (codes "IATISS") }
{}

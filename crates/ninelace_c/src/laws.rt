//! That a call with the room that another one told gives that answer.

ghost use Rattle.std.specs.Prelude.{◌≤◌, ◌⊎◌, ℕ, List, Option, length};
ghost use Rattle.fund_top.specs.Words.{Command};
ghost use Rattle.fund_calls.specs.Given.{PlainGiven};
ghost use Rattle.fund_calls.specs.Once.{GivesTheSame};
ghost use Rattle.ninelace_c.specs.Told.{HasAnswer, IsGiven, IsNone, IsShort, Tells, memory_code, total};
ghost use Rattle.ninelace_c.specs.declared.sizes.NinelaceSizes.{NinelaceSizes as Sizes};

/// The law of second calls: where a call told that its buffer is too short, another one of the same bytes whose buffer has the room
/// that was told gives that answer, with the same sizes, or is out of memory. So it is of each command that gives the same each time,
/// which are all nine ([`fund_calls::calls_give_the_same`]). A call does nothing.
pub fn second_calls_fit()
    ensures { (words : Option Command) (g : PlainGiven) (job : Option (List ℕ)) → GivesTheSame words g job → (it : HasAnswer words g job) (code code' : ℕ) (old new old' new' : List ℕ) (sizes sizes' : Sizes) → IsShort it.parts code old new sizes → Tells words g job code' old' new' sizes' → total sizes ≤ length old' → IsGiven it.status it.parts code' old' new' sizes' ⊎ IsNone memory_code code' old' new' sizes' }
{}

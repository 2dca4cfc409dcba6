//! Laws of scripts that are run at a desk. A call of any of them does nothing.

ghost use Rattle.std.specs.Prelude.{◌≡◌, ℕ, List};
ghost use Rattle.desk_machine.specs.State.{PlainDesk};
ghost use Rattle.desk_machine.specs.Runs.{Runs, Said};
ghost use Rattle.command_desk.specs.Course.{Course};
ghost use Rattle.command_desk.specs.Calls.{Shows};

/// The law of one course: to the lines of a script one text is printed, and one desk stands behind them.
pub fn scripts_have_one_course()
    ensures printed { (files : List ℕ → List ℕ) (lines : List (List ℕ)) (old new other : PlainDesk) (a b : List ℕ) → Course files lines old a new → Course files lines old b other → a ≡ b }
    ensures desk { (files : List ℕ → List ℕ) (lines : List (List ℕ)) (old new other : PlainDesk) (a b : List ℕ) → Course files lines old a new → Course files lines old b other → new ≡ other }
{}

/// The law of calls: the lines of a script are commands to the machine, which lead from the first desk to the last, and what is
/// printed shows its replies to them. So whatever holds of all lists of commands holds of scripts.
pub fn scripts_run_the_machine()
    ensures { (files : List ℕ → List ℕ) (lines : List (List ℕ)) (old new : PlainDesk) (printed : List ℕ) → Course files lines old printed new → (said : List Said) × Shows files lines said printed × Runs old said new }
{}

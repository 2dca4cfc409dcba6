//! What the numbers of statuses come to.

ghost use Rattle.std.specs.Prelude.{◌≡◌, Some};
ghost use Rattle.std.specs.Fmt.{decimal};
ghost use Rattle.command_end.specs.StatusCode.{code_of};
ghost use Rattle.command_end.specs.declared.status.Status.{Status};
ghost use Rattle.people_advice.specs.Statuses.{status_numbered};

/// The law of statuses: each is known by the number with which the program ends. A call does nothing.
pub fn statuses_are_numbered()
    ensures { (s : Status) → status_numbered (decimal (code_of s)) ≡ Some s }
{}

//! What the definitions of a script come to. A call of any of these laws does nothing.

ghost use Rattle.std.specs.Prelude.{◌≡◌, ◌⊎◌, List, ℕ};
ghost use Rattle.command_desk.specs.Line.{Line, Other, Says, line_of};
ghost use Rattle.command_desk.specs.Script.{AreLines, lines_of};

/// The law of lines: those of a script are the ones that make it, and no others do.
pub fn lines_are_cut()
    ensures are { (text : List ℕ) → AreLines text (lines_of text) }
    ensures only { (text : List ℕ) (lines : List (List ℕ)) → AreLines text lines → lines ≡ lines_of text }
{}

/// The law of commands: a line is one exactly where it says so, and it says one at most.
pub fn lines_are_read()
    ensures says { (line : List ℕ) → Says line (line_of line) }
    ensures only { (line : List ℕ) (said : Line) → Says line said → (said ≡ line_of line) ⊎ (said ≡ Other) }
{}

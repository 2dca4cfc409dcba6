//! Laws of payments that are judged. A call of any of them does nothing.

ghost use Rattle.std.specs.Prelude.{◌≡◌, ◌↔◌, ◌⊎◌, ℕ, List, Err, Ok};
ghost use Rattle.settle_check.specs.declared.fault.SettleFault.{SettleFault};
ghost use Rattle.command_settle.specs.Files.{Judged, judged_of};
ghost use Rattle.command_settle.specs.Names.{Names};
ghost use Rattle.command_settle.specs.Outcome.{ComesTo, IsUnsettled, Outcome};

/// The law of outcomes: the files come to one outcome at most, so that a refusal with its cause, the first rule that is broken,
/// and a settled payment with its figures shut each other out.
pub fn settlings_have_one_outcome()
    ensures one { (files : List ℕ → List ℕ) (n : Names) (a b : Outcome) → ComesTo files n a → ComesTo files n b → a ≡ b }
    ensures rule { (report : List ℕ) (j : Judged) (a b : SettleFault) → IsUnsettled report j a → IsUnsettled report j b → a ≡ b }
{}

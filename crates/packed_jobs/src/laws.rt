//! Which bytes are a packed job.

ghost use Rattle.std.specs.Prelude.{◌≡◌};
ghost use Rattle.fund_outside.specs.Kept.{KeptJob};
ghost use Rattle.packed_jobs.specs.Packed.{IsPackable, packed};

/// The law of the packed form: two jobs that have one are the same where it is the same. A call does nothing.
pub fn packed_jobs_are_told()
    ensures { (a b : KeptJob) → IsPackable a → IsPackable b → packed a ≡ packed b → a ≡ b }
{}

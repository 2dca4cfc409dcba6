//! The sentences of faults of a kept job.

ghost use Rattle.std.specs.Prelude.{◌≡◌};
ghost use Rattle.fault_lines.specs.Sentences.{kept_sentence};

use crate::stop::{Stop, stop_sentence};
use kept_job::KeptFault;

/// What to do about a kept job that is not gone on with: the sentence of each fault.
#[tactic(auto, unfolding(crate::specs::Sentences::kept_sentence))]
pub fn kept_sentence(fault: &KeptFault) -> &'static str
    ensures { result.now ≡ kept_sentence fault.now }
{
    match fault {
        KeptFault::NoJob =>
            "There is no job of this name: fund with this JOB, and with when_unfinished stop.",
        KeptFault::Form(_) => "The kept job was changed: begin anew under another name.",
        KeptFault::JobElse(_, _) =>
            "The job was begun with other files: give the files of the job, byte for byte.",
        KeptFault::Spent =>
            "The job has made 10,000,000 tries: fund anew with when_unfinished take, or ask for another payment.",
        KeptFault::Part(_) =>
            "A part of the kept log is missing: the file of jobs was changed, so begin anew under another name.",
        KeptFault::LongLog => stop_sentence(Stop::LogLimit),
        KeptFault::Parts(_, _) =>
            "The kept parts of the log are not those that were kept: the file of jobs was changed, so begin anew under another name.",
        KeptFault::Section(_) =>
            "The kept log is not that of this payment: begin anew under another name.",
        KeptFault::IllFormed =>
            "No search stands where the kept job says: begin anew under another name.",
        KeptFault::Log(_, _) =>
            "The kept log proves less than it claims: begin anew under another name.",
        KeptFault::Failed => stop_sentence(Stop::Keep),
        KeptFault::Memory => stop_sentence(Stop::Memory),
    }
}

//! What may be the name of a job.

ghost use Rattle.std.specs.Prelude.{◌≡◌, ℕ, List, true};
ghost use Rattle.std.specs.List.{list_all};
ghost use Rattle.fund_outside.specs.JobName.{IsJobName, is_job_byte, is_job_name};

/// Whether the byte may stand in the name of a job: it is a letter, a digit or a hyphen of ASCII.
fn is_job_byte(byte: u8) -> bool
    ensures { result ≡ is_job_byte byte }
{
    byte.is_ascii_uppercase()
        || (byte.is_ascii_lowercase() || (byte.is_ascii_digit() || byte == b'-'))
}

/// Whether each byte may stand in the name of a job.
fn are_job_bytes(word: &[u8]) -> bool
    ensures { result ≡ list_all is_job_byte word.now }
{
    word.iter().all(|byte| is_job_byte(*byte))
}

/// Whether this is the name of a job: 1 to 32 letters, digits and hyphens of ASCII.
pub fn is_job_name(word: &[u8]) -> bool
    ensures { result ≡ is_job_name word.now }
{
    !word.is_empty() && (word.len() <= 32 && are_job_bytes(word))
}

/// The law of the names of jobs: the test finds what one is, and nothing else. A call does nothing.
pub fn job_names_are_told()
    ensures found { (name : List ℕ) → IsJobName name → is_job_name name ≡ true }
    ensures only { (name : List ℕ) → is_job_name name ≡ true → IsJobName name }
{}

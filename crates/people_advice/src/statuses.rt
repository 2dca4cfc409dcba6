//! What a status of the program means.

ghost use Rattle.std.specs.Prelude.{◌≡◌, ◌==◌, find};
ghost use Rattle.command_end.specs.StatusCode.{code_of};
ghost use Rattle.people_advice.specs.Statuses.{status_numbered, status_sentence};

use command_end::Status;
use fund_base::read_decimal;

/// All statuses, by their numbers.
const STATUSES: [Status; 13] = [
    Status::Done,
    Status::Usage,
    Status::Input,
    Status::ReadFault,
    Status::WriteFault,
    Status::KeepFault,
    Status::Memory,
    Status::Saved,
    Status::Limit,
    Status::Unfinished,
    Status::NoSelection,
    Status::CheckRefused,
    Status::Settle,
];

/// The first of these statuses that has this number.
fn status_among(statuses: &[Status], code: u64) -> Option<Status>
    ensures { result ≡ find (λ s. code_of s == code) statuses.now }
{
    for status in statuses {
        if status.code() as u64 == code {
            return Some(*status);
        }
    }
    None
}

/// The status whose number the word is, in decimal digits.
#[tactic(auto, unfolding(crate::specs::Statuses::status_numbered))]
pub fn status_numbered(word: &str) -> Option<Status>
    ensures { result ≡ status_numbered word.now }
{
    match read_decimal(word.as_bytes(), 255) {
        None => None,
        Some(code) => status_among(&STATUSES, code),
    }
}

/// What a status means, and what to do.
#[tactic(auto, unfolding(crate::specs::Statuses::status_sentence))]
pub fn status_sentence(status: Status) -> &'static str
    ensures { result.now ≡ status_sentence status }
{
    match status {
        Status::Done => "It is done: what was asked for is shown whole.",
        Status::Usage =>
            "The words are no command: --help behind a command shows how it is spelled.",
        Status::Input =>
            "A file, or what is asked for, is refused: the line that was printed says which, and explain says more of it.",
        Status::ReadFault =>
            "A file could not be read: look whether its name is right, and whether you may read it.",
        Status::WriteFault =>
            "A new file was not written, or what was to be shown was not: look at its folder and the disk, and whether it is there already.",
        Status::KeepFault =>
            "The file of kept jobs could not be read or written: look whether it is yours, and not used by another program.",
        Status::Memory => "The machine has too little memory: try again with less beside it.",
        Status::Saved =>
            "A kept job is refused: it is not there, or it is not one of these files and this request.",
        Status::Limit =>
            "A file is too long, or there are too many coins or tries: the line that was printed says which.",
        Status::Unfinished =>
            "The tries were used up before the search was done, and nothing is paid: give more tries, or take the best so far.",
        Status::NoSelection =>
            "No coins pay for what is asked: ask for less, pay a lower rate, or let more coins be spent.",
        Status::CheckRefused =>
            "The report and its log are not accepted: the line that was printed says why.",
        Status::Settle =>
            "The signed transaction is not the payment of the report, or does not pay what was asked: the line that was printed says why.",
    }
}

//! The fault lines of files that are refused or weren't read.

ghost use Rattle.std.specs.Prelude.{◌≡◌, ◌++◌, codes};
ghost use Rattle.fund_shelf.specs.Causes.{CountsNeverFall};
ghost use Rattle.fund_files.specs.Cause.{cause_of};
ghost use Rattle.command_end.specs.AnswerLines.{IsAnswered};
ghost use Rattle.command_end.specs.Lines.{GotLine, fault_line, file_refusal_words, file_word, status_of_file};
ghost use Rattle.command_end.specs.Parts.{parts_text};

use crate::block_words::feed_fault_parts;
use crate::output::put_fault;
use crate::parts::{Part, alone, behind, named};
use crate::request_words::request_fault_parts;
use crate::status::Status;
use crate::wallet_words::wallet_fault_parts;
use fund_files::{File, FileRefusal};
use fund_shelf::Sink;

/// How a fault line names a file.
fn file_word<'a>(file: File) -> &'a str
    ensures { result.now ≡ file_word file }
{
    match file {
        File::Wallet => "wallet",
        File::Blocks => "blocks",
        File::Request => "request",
    }
}

/// What the refusal of a file says behind the word `fault`.
#[tactic(auto, unfolding(crate::specs::Lines::file_refusal_words))]
fn file_refusal_parts(refusal: &FileRefusal) -> [Part; 5]
    ensures { parts_text result ≡ file_refusal_words refusal.now }
{
    match refusal {
        FileRefusal::TooLong(file) => behind("limit ", alone(Part::Text(file_word(*file)))),
        FileRefusal::BadWallet(fault) => behind("input wallet ", wallet_fault_parts(fault)),
        FileRefusal::BadBlocks(fault) => behind("input blocks ", feed_fault_parts(fault)),
        FileRefusal::RepeatCoin(coin) => [
            Part::Coin("input book RepeatCoin ", coin),
            Part::Nothing,
            Part::Nothing,
            Part::Nothing,
            Part::Nothing,
        ],
        FileRefusal::ManyCoins => behind("limit ", alone(Part::Text("coins"))),
        FileRefusal::BadRequest(fault) => behind("input request ", request_fault_parts(fault)),
    }
}

/// The status of a file's refusal.
fn file_status(refusal: &FileRefusal) -> Status
    ensures { result ≡ status_of_file (cause_of refusal.now) }
{
    match refusal {
        FileRefusal::TooLong(_) | FileRefusal::ManyCoins => Status::Limit,
        _ => Status::Input,
    }
}

/// Puts the line of a file that is refused. It takes no memory.
pub fn refuse_file<O: Sink>(refusal: &FileRefusal, out: &mut O) -> Status
    ensures is { result ≡ status_of_file (cause_of refusal.now) }
    ensures line { O.tells → GotLine (fault_line (file_refusal_words refusal.now)) (O.view out.old) (O.view out.new) }
    ensures answered { IsAnswered O.tells (file_refusal_words refusal.now) (status_of_file (cause_of refusal.now)) (O.view out.old) (O.view out.new) result }
    ensures counts { CountsNeverFall (O.view out.old) (O.view out.new) }
{
    put_fault(&file_refusal_parts(refusal), file_status(refusal), out)
}

/// Puts the line of a file that wasn't read. It takes no memory.
pub fn refuse_read<O: Sink>(name: &str, out: &mut O) -> Status
    ensures is { result ≡ Status.ReadFault }
    ensures line { O.tells → GotLine (fault_line (codes "read " ++ name.now)) (O.view out.old) (O.view out.new) }
    ensures answered { IsAnswered O.tells (codes "read " ++ name.now) Status.ReadFault (O.view out.old) (O.view out.new) result }
    ensures counts { CountsNeverFall (O.view out.old) (O.view out.new) }
{
    put_fault(&named("read ", name), Status::ReadFault, out)
}

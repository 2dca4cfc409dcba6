//! The line that shows a reply.

ghost use Rattle.std.specs.Prelude.{◌≡◌, IfOk, string_bytes};
ghost use Rattle.command_desk.specs.Lent.{plain_line};
ghost use Rattle.command_desk.specs.ReplyText.{book_words, other_line, plan_words, refusal_words, reply_line, reply_words, subject_of};

use crate::line::Line;
use base64::engine::general_purpose::STANDARD;
use closing_log::Worded;
use coin_book::BookFault;
use command_end::{
    coin_text, feed_fault_parts, request_fault_parts, shown_hash, tx_fault_part, words_of,
};
use desk_machine::{Refusal, Reply};
use fund_base::Memory;
use fund_steps::PlanFault;
use std::alloc::Global;

/// Why no plan is made.
fn plan_words(alloc: Global, fault: &PlanFault) -> Result<String, Memory>
    ensures { IfOk result (λ text. string_bytes text ≡ plan_words fault.now) }
{
    match fault {
        PlanFault::Total(sum) => Ok(format!(in alloc; "Total {}", *sum)?),
        PlanFault::NotEligible(coin) => {
            let coin = coin_text(alloc, coin)?;
            Ok(format!(in alloc; "NotEligible {}", coin)?)
        }
        PlanFault::TooMany(number, n) => Ok(format!(in alloc; "TooMany {} {}", *number, *n)?),
        PlanFault::Memory => Ok(format!(in alloc; "Memory")?),
    }
}

/// Why no book holds the coins.
fn book_words(alloc: Global, fault: &BookFault) -> Result<String, Memory>
    ensures { IfOk result (λ text. string_bytes text ≡ book_words fault.now) }
{
    match fault {
        BookFault::RepeatCoin(coin) => {
            let coin = coin_text(alloc, coin)?;
            Ok(format!(in alloc; "RepeatCoin {}", coin)?)
        }
        BookFault::Full => Ok(format!(in alloc; "Full")?),
        BookFault::Memory => Ok(format!(in alloc; "Memory")?),
    }
}

/// Why something is refused.
#[tactic(auto, unfolding(crate::specs::ReplyText::refusal_words))]
fn refusal_words(alloc: Global, refusal: &Refusal) -> Result<String, Memory>
    ensures { IfOk result (λ text. string_bytes text ≡ refusal_words refusal.now) }
{
    match refusal {
        Refusal::Request(fault) => words_of(alloc, &request_fault_parts(fault)),
        Refusal::Bump => Ok(format!(in alloc; "bump")?),
        Refusal::Plan(fault) => plan_words(alloc, fault),
        Refusal::Feed(fault) => words_of(alloc, &feed_fault_parts(fault)),
        Refusal::Book(fault) => book_words(alloc, fault),
        Refusal::Kind => Ok(format!(in alloc; "Kind")?),
        Refusal::Tx(fault) => words_of(alloc, &[tx_fault_part(*fault)]),
        Refusal::Repeat => Ok(format!(in alloc; "Repeat")?),
        Refusal::ParentLater => Ok(format!(in alloc; "ParentLater")?),
    }
}

/// What a line is about.
fn subject(alloc: Global, line: &Line) -> Result<String, Memory>
    ensures { IfOk result (λ text. string_bytes text ≡ subject_of (plain_line line.now)) }
{
    match *line {
        Line::Open { name, .. }
        | Line::Turn { name, .. }
        | Line::Commit { name }
        | Line::Close { name } => Ok(String::from_str(alloc, name)?),
        Line::Release { txid } => shown_hash(alloc, txid.bytes()),
        Line::Blocks { .. } => Ok(String::from_str(alloc, "blocks")?),
        Line::Pending { .. } => Ok(String::from_str(alloc, "pending")?),
        Line::Other => Ok(String::from_str(alloc, "command")?),
    }
}

/// The words of a reply about this.
#[tactic(auto, unfolding(crate::specs::ReplyText::reply_words))]
fn reply_words(alloc: Global, about: &str, reply: &Reply) -> Result<String, Memory>
    ensures { IfOk result (λ text. string_bytes text ≡ reply_words about.now reply.now) }
{
    match reply {
        Reply::TakenName => Ok(format!(in alloc; "taken-name {}", about)?),
        Reply::Full => Ok(format!(in alloc; "full")?),
        Reply::Refused(refusal) => {
            let words = refusal_words(alloc, refusal)?;
            Ok(format!(in alloc; "refused {} {}", about, words)?)
        }
        Reply::Opened => Ok(format!(in alloc; "opened {}", about)?),
        Reply::NoJob => Ok(format!(in alloc; "no-job {}", about)?),
        Reply::Spent => Ok(format!(in alloc; "spent {}", about)?),
        Reply::Unfinished(tries) => Ok(format!(in alloc; "unfinished {} {}", about, *tries)?),
        Reply::NoSelection(tries) => Ok(format!(in alloc; "none {} {}", about, *tries)?),
        Reply::Funded(mark, tries) => {
            Ok(format!(in alloc; "funded {} {} {}", about, mark.word(), *tries)?)
        }
        Reply::NotFunded => Ok(format!(in alloc; "not-funded {}", about)?),
        Reply::Taken(coin) => {
            let coin = coin_text(alloc, coin)?;
            Ok(format!(in alloc; "taken {} {}", about, coin)?)
        }
        Reply::Committed(txid, psbt) => {
            let txid = shown_hash(alloc, txid.bytes())?;
            let psbt = STANDARD.encode(alloc, psbt)?;
            Ok(format!(in alloc; "committed {} {} {}", about, txid, psbt)?)
        }
        Reply::Closed => Ok(format!(in alloc; "closed {}", about)?),
        Reply::NotCommitted => Ok(format!(in alloc; "not-committed {}", about)?),
        Reply::Released => Ok(format!(in alloc; "released {}", about)?),
        Reply::Tip(height, hash) => {
            let hash = shown_hash(alloc, hash)?;
            Ok(format!(in alloc; "tip {} {}", *height, hash)?)
        }
        Reply::Seen(txid) => {
            let txid = shown_hash(alloc, txid.bytes())?;
            Ok(format!(in alloc; "seen {}", txid)?)
        }
        Reply::Memory => Ok(format!(in alloc; "memory")?),
    }
}

/// The line that shows the reply to a line, with its line feed: the name of the job, or the txid, is the line's own. A hash and
/// a txid stand from the last byte to the first, and a PSBT in base64 (RFC 4648). The error is out of memory.
pub fn reply_line(alloc: Global, line: &Line, reply: &Reply) -> Result<String, Memory>
    ensures { IfOk result (λ text. string_bytes text ≡ reply_line (plain_line line.now) reply.now) }
{
    let about = subject(alloc, line)?;
    let words = reply_words(alloc, about.as_str(), reply)?;
    Ok(format!(in alloc; "{}\n", words)?)
}

/// The line that replies to what is no command.
pub fn other_line() -> &'static str
    ensures { result.now ≡ other_line }
{
    "refused command\n"
}

//! The run of a command for what is asked.

ghost use Rattle.std.specs.Prelude.{◌≡◌, IfOk};
ghost use Rattle.request_making.specs.Asked.{asked_of};
ghost use Rattle.request_making.specs.Written.{request_bytes};
ghost use Rattle.request_text.specs.RequestText.{request_of};
ghost use Rattle.fund_top.specs.Words.{command_of, names_stand, where_stands};
ghost use Rattle.held_run.specs.Held.{KeepsFiles};
ghost use Rattle.command_pay.specs.Run.{IsRun, command_for, held_names, sources_of, verb_of};

use fund_base::Memory;
use fund_shelf::Shelf;
use held_run::{Run, log_name, request_name, run_held};
use pay_words::{Asked, Way};
use std::alloc::Global;

/// The word of the command by which a payment is made.
fn verb_of(way: Way) -> &'static str
    ensures { result.now ≡ verb_of way }
{
    match way {
        Way::Fund => "fund",
        Way::Wide => "wide",
        Way::Share => "share",
    }
}

/// The words of the command: its own, the names of the two files, and those of the request and the log that are held.
#[tactic(auto, using(crate::proofs::RunLaws::words_are))]
fn command_words(alloc: Global, asked: &Asked) -> Result<Vec<String>, Memory>
    ensures { IfOk result (λ words. command_of words.items ≡ where_stands (names_stand (sources_of asked.now) held_names) (command_for asked.now)) }
{
    let verb = String::from_str(alloc, verb_of(asked.way))?;
    let wallet = String::from_str(alloc, asked.names.wallet.as_str())?;
    let blocks = String::from_str(alloc, asked.names.blocks.as_str())?;
    let request = String::from_str(alloc, request_name())?;
    let log = String::from_str(alloc, log_name())?;
    let words = vec![in alloc; verb, wallet, blocks, request, log]?;
    Ok(words)
}

/// The request of what is asked, and the words of the command that reads it.
#[derive(Drop)]
struct Due {
    request: Vec<u8>,
    words: Vec<String>,
}

/// What is due for what is asked.
fn due_for(alloc: Global, asked: &Asked) -> Result<Due, Memory>
    ensures asks { IfOk result (λ d. request_of d.request.items ≡ asked_of asked.now.payments.items asked.now.coins.items asked.now.settings) }
    ensures bytes { IfOk result (λ d. d.request.items ≡ request_bytes asked.now.payments.items asked.now.coins.items asked.now.settings) }
    ensures words { IfOk result (λ d. command_of d.words.items ≡ where_stands (names_stand (sources_of asked.now) held_names) (command_for asked.now)) }
{
    let text = asked.request(alloc)?;
    let request = Vec::from_slice(alloc, text.as_bytes())?;
    let words = command_words(alloc, asked)?;
    Ok(Due { request, words })
}

/// The run of the command for what is asked, over the files with the request beside them; and these files, which are as before.
pub fn run_asked<H: Shelf + Drop>(
    alloc: Global,
    asked: &Asked,
    files: H,
) -> (Result<Run, Memory>, H)
    ensures run { IfOk result.0 (λ r. IsRun H.tells asked.now (H.view files) (H.view result.1) r.status r.said.items r.log.items) }
    ensures files { KeepsFiles H.tells (H.view files) (H.view result.1) }
{
    let Due { request, words } = match due_for(alloc, asked) {
        Ok(due) => due,
        Err(Memory) => return (Err(Memory), files),
    };
    run_held(alloc, &words, request, files)
}

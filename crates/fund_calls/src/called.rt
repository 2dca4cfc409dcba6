//! A command called.

ghost use Rattle.std.specs.Prelude.{◌≡◌, ◌≢◌, Option, Err, IfOk, OnErr};
ghost use Rattle.command_inputs.specs.Names.{plain_job};
ghost use Rattle.fund_shelf.specs.SureShelf.{view_of};
ghost use Rattle.packed_jobs.specs.declared.fault.PackFault.TheVariants as faults;
ghost use Rattle.fund_top.specs.Words.{Command, command_of};
ghost use Rattle.fund_calls.specs.Call.{Answers};
ghost use Rattle.fund_calls.specs.Given.{IsNoJob, plain_given};
ghost use Rattle.fund_calls.specs.Names.{log_name};

use crate::answer::{Answer, answer_of, keeper_of};
use crate::given::{Given, shelf_of};
use crate::output::Output;
use fund_shelf::SureShelf;
use fund_top::run;
use packed_jobs::PackFault;
use std::alloc::Global;

/// The bytes of the log that was written; none where none was.
fn log_in(shelf: &SureShelf) -> &[u8]
    ensures { result.now ≡ (view_of shelf.now).files log_name }
{
    match shelf.file("log") {
        Some(log) => log,
        None => &[],
    }
}

/// The words done on these bytes and with this packed job, where one is given. It refuses bytes that are no packed job, and
/// otherwise only when out of memory.
pub(crate) fn called(
    alloc: Global,
    words: &Vec<String>,
    given: &Given,
    job: Option<&[u8]>,
) -> Result<Answer, PackFault>
    ensures answers { (o : Option Command) → command_of words.now.items ≡ o → IfOk result (λ a. Answers o (plain_given given.now) (plain_job job.entry) a) }
    ensures refused { OnErr result (result ≢ Err faults.Memory → IsNoJob (plain_job job.entry)) }
{
    let mut shelf = shelf_of(alloc, given)?;
    let mut keeper = keeper_of(alloc, job)?;
    let mut out = Output::new(alloc);
    let status = run(alloc, words, &mut shelf, &mut out, &mut keeper);
    if !out.took_all() {
        return Err(PackFault::Memory);
    }
    let log = log_in(&shelf);
    let answer = answer_of(alloc, status, out.written(), log, &mut keeper)?;
    Ok(answer)
}

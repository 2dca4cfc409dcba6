//! The calls, one for each command. Each refuses only when out of memory, but for a job that is no packed one.

ghost use Rattle.std.specs.Prelude.{◌≡◌, ◌≢◌, Some, None, Err, IfOk, OnErr};
ghost use Rattle.packed_jobs.specs.Packed.{IsPackedJob};
ghost use Rattle.packed_jobs.specs.declared.fault.PackFault.TheVariants as faults;
ghost use Rattle.fund_calls.specs.Call.{Answers};
ghost use Rattle.fund_calls.specs.Commands.{check_command, coins_command, fund_command, resume_command, settle_command, share_command, sweep_command, wide_command, work_command};
ghost use Rattle.fund_calls.specs.Given.{no_files, plain_given};

use crate::answer::Answer;
use crate::called::called;
use crate::given::Given;
use crate::words::{coins_words, five_names, four_names, three_names, work_words};
use packed_jobs::PackFault;
use std::alloc::Global;

/// `coins`: lists the payments and the coins of a wallet on its blocks.
pub fn coins_bytes(alloc: Global, given: &Given) -> Result<Answer, PackFault>
    ensures answers { IfOk result (λ a. Answers (Some coins_command) (plain_given given.now) None a) }
    ensures refused { OnErr result (result ≡ Err faults.Memory) }
{
    let words = coins_words(alloc)?;
    called(alloc, &words, given, None)
}

/// `fund`: funds the payment of a request. Where the run is unfinished the answer has the job to go on with.
pub fn fund_bytes(alloc: Global, given: &Given) -> Result<Answer, PackFault>
    ensures answers { IfOk result (λ a. Answers (Some fund_command) (plain_given given.now) None a) }
    ensures refused { OnErr result (result ≡ Err faults.Memory) }
{
    let words = five_names(alloc, "fund", "log", "job")?;
    called(alloc, &words, given, None)
}

/// `resume`: goes on with a packed job. Where the run is unfinished again the answer has the job to go on with.
pub fn resume_bytes(alloc: Global, given: &Given, job: &[u8]) -> Result<Answer, PackFault>
    ensures answers { IfOk result (λ a. Answers (Some resume_command) (plain_given given.now) (Some job.now) a) }
    ensures refused { OnErr result (result ≢ Err faults.Memory → IsPackedJob job.now → ⊥) }
{
    let words = five_names(alloc, "resume", "log", "job")?;
    called(alloc, &words, given, Some(job))
}

/// `check`: checks a report with its log against the wallet, the blocks and the request.
pub fn check_bytes(alloc: Global, given: &Given) -> Result<Answer, PackFault>
    ensures answers { IfOk result (λ a. Answers (Some check_command) (plain_given given.now) None a) }
    ensures refused { OnErr result (result ≡ Err faults.Memory) }
{
    let words = five_names(alloc, "check", "report", "checked")?;
    called(alloc, &words, given, None)
}

/// `wide`: funds the payment of a request without change at the least waste of all choices of a row.
pub fn wide_bytes(alloc: Global, given: &Given) -> Result<Answer, PackFault>
    ensures answers { IfOk result (λ a. Answers (Some wide_command) (plain_given given.now) None a) }
    ensures refused { OnErr result (result ≡ Err faults.Memory) }
{
    let words = four_names(alloc, "wide", "wallet", "blocks", "request", "log")?;
    called(alloc, &words, given, None)
}

/// `share`: funds the payment of a request so that its recipients bear the fee.
pub fn share_bytes(alloc: Global, given: &Given) -> Result<Answer, PackFault>
    ensures answers { IfOk result (λ a. Answers (Some share_command) (plain_given given.now) None a) }
    ensures refused { OnErr result (result ≡ Err faults.Memory) }
{
    let words = four_names(alloc, "share", "wallet", "blocks", "request", "log")?;
    called(alloc, &words, given, None)
}

/// `sweep`: pays all coins to the one recipient of a request.
pub fn sweep_bytes(alloc: Global, given: &Given) -> Result<Answer, PackFault>
    ensures answers { IfOk result (λ a. Answers (Some sweep_command) (plain_given given.now) None a) }
    ensures refused { OnErr result (result ≡ Err faults.Memory) }
{
    let words = three_names(alloc, "sweep", "wallet", "blocks", "request")?;
    called(alloc, &words, given, None)
}

/// `settle`: tells whether a signed transaction is the payment of a report and pays the request's rate.
pub fn settle_bytes(alloc: Global, given: &Given) -> Result<Answer, PackFault>
    ensures answers { IfOk result (λ a. Answers (Some settle_command) (plain_given given.now) None a) }
    ensures refused { OnErr result (result ≡ Err faults.Memory) }
{
    let words = four_names(alloc, "settle", "wallet", "request", "report", "tx")?;
    called(alloc, &words, given, None)
}

/// `work`: funds a payment from the workload of a number and a count of coins, and sums it up. A number above
/// 9,223,372,036,854,775,807, and a count of no coins or of more than 10,000, end with the status of wrong words.
pub fn work_bytes(alloc: Global, number: u64, count: u32) -> Result<Answer, PackFault>
    ensures answers { IfOk result (λ a. Answers (work_command number count) no_files None a) }
    ensures refused { OnErr result (result ≡ Err faults.Memory) }
{
    let words = work_words(alloc, number, count)?;
    let given = Given {
        wallet: &[],
        blocks: &[],
        request: &[],
        report: &[],
        log: &[],
        tx: &[],
    };
    called(alloc, &words, &given, None)
}

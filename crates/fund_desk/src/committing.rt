//! The payment of a job, as it is committed.

ghost use Rattle.std.specs.Prelude.{◌≡◌, IfOk, MatchResult, None, OnErr, Some, option_map};
ghost use Rattle.fund_files.specs.Chain.{IsChain};
ghost use Rattle.fund_plan.specs.Answer.{IsSelection};
ghost use Rattle.fund_plan.specs.Selection.{PlainFunded};
ghost use Rattle.fund_desk.specs.Given.{IsGiven, IsNotGiven, IsWrittenOut};
ghost use Rattle.desk_machine.specs.Machine.{funded_of};
ghost use Rattle.desk_machine.specs.Replies.{plain_reply};
ghost use Rattle.desk_machine.specs.Rules.{IsJob};
ghost use Rattle.desk_machine.specs.declared.reply.Reply.TheVariants.{Taken};

use crate::job::OpenJob;
use crate::payments::Committed;
use crate::taken::first_taken;
use desk_machine::Reply;
use fund_base::{Memory, OutPoint, Txid};
use fund_files::WholeChain;
use fund_payment::{coins_have_makers, psbt};
use fund_plan::Funded;
use psbt_codec::write_psbt;
use request_text::Request;
use std::alloc::Global;
use tx_codec::txid;

/// A payment that is given out to be signed: its txid, the bytes of its PSBT, and the payment as it is remembered.
#[derive(Drop)]
pub struct Given {
    /// The txid of its transaction.
    pub txid: Txid,
    /// The bytes of its PSBT, in the version that its request asks for.
    pub psbt: Vec<u8>,
    /// The payment as the desk remembers it.
    pub payment: Committed,
}

/// A payment as it is given out. The error is out of memory.
fn written_out(
    alloc: Global,
    held: &WholeChain,
    request: &Request,
    funded: &Funded,
) -> Result<Given, Memory>
    requires held { IsChain held.now }
    requires funded { IsSelection request.now funded.now }
    ensures { IfOk result (IsWrittenOut held.now request.now funded.now) }
{
    let book = held.book.known();
    let made = psbt(alloc, &book, &held.wallet.change, request, funded)?;
    let id = txid(&made.tx);
    let bytes = write_psbt(alloc, &made, request.psbt)?;
    let payment = Committed::new(alloc, id, &funded.coins)?;
    Ok(Given {
        txid: id,
        psbt: bytes,
        payment,
    })
}

/// A payment as it is given out, or the reply where this coin of it can't be spent any more. The error is out of memory,
/// which comes only where there is none.
fn give_unless(
    alloc: Global,
    held: &WholeChain,
    request: &Request,
    funded: &Funded,
    taken: Option<OutPoint>,
) -> Result<Result<Given, Reply>, Memory>
    requires held { IsChain held.now }
    requires funded { IsSelection request.now funded.now }
    ensures given { IfOk result (λ r. MatchResult r (λ g. (taken ≡ None) × IsWrittenOut held.now request.now funded.now g) (λ reply. option_map Taken taken ≡ Some reply)) }
    ensures memory { OnErr result (taken ≡ None) }
{
    match taken {
        Some(coin) => Ok(Err(Reply::Taken(coin))),
        None => {
            let given = written_out(alloc, held, request, funded)?;
            Ok(Ok(given))
        }
    }
}

/// The payment of a job as it is given out, or the reply where a coin of it can't be spent any more. The error is out of
/// memory.
fn give_funded(
    alloc: Global,
    held: &WholeChain,
    committed: &[Committed],
    job: &OpenJob,
    funded: &Funded,
) -> Result<Result<Given, Reply>, Memory>
    requires held { IsChain held.now }
    requires job { IsJob held.now.wallet.change job.now }
    requires funded { Some funded.now ≡ funded_of job.now.answer }
    ensures { IfOk result (λ r. MatchResult r (IsGiven held.now committed.now job.now) (λ reply. IsNotGiven held.now committed.now job.now (plain_reply reply))) }
{
    let asked = job.request();
    let taken = first_taken(alloc, held, committed, asked, funded)?;
    coins_have_makers(held);
    match give_unless(alloc, held, asked, funded, taken)? {
        Ok(given) => Ok(Ok(given)),
        Err(reply) => Ok(Err(reply)),
    }
}

/// The payment of a job as it is given out, or the reply where there is none or a coin of it can't be spent any more. The
/// error is out of memory.
pub fn give_out(
    alloc: Global,
    held: &WholeChain,
    committed: &[Committed],
    job: &OpenJob,
) -> Result<Result<Given, Reply>, Memory>
    requires held { IsChain held.now }
    requires job { IsJob held.now.wallet.change job.now }
    ensures given { IfOk result (λ r. MatchResult r (IsGiven held.now committed.now job.now) (λ reply. IsNotGiven held.now committed.now job.now (plain_reply reply))) }
    ensures funded { OnErr result ((f : PlainFunded) × (funded_of job.now.answer ≡ Some f)) }
{
    match job.funded() {
        Some(funded) => give_funded(alloc, held, committed, job, funded),
        None => Ok(Err(Reply::NotFunded)),
    }
}

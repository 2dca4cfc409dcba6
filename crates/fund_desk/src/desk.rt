//! The desk.

ghost use Rattle.std.specs.Prelude.{ℕ, ◌≡◌, ◌≤◌, List, IfOk, MatchResult, OnErr, OnOk, length};
ghost use Rattle.fund_files.specs.Chain.{IsChain};
ghost use Rattle.desk_machine.specs.Commands.{IsCommand, Open, Turn, Commit, Blocks, Pending, plain_command};
ghost use Rattle.desk_machine.specs.Commits.{IsCommit};
ghost use Rattle.desk_machine.specs.Does.{Does, Leaves, TakesMemory};
ghost use Rattle.desk_machine.specs.Machine.{blocks_step, close_step, commit_step, open_step, pending_step, release_step, turn_step};
ghost use Rattle.desk_machine.specs.Replies as replies;
ghost use Rattle.desk_machine.specs.Replies.{IsOfBytes, plain_reply};
ghost use Rattle.desk_machine.specs.Rules.{IsDesk};
ghost use Rattle.desk_machine.specs.State.{new_desk};
ghost use Rattle.fund_desk.specs.JobPayment.{IsPaymentOfJob, HasNoPayment};

use crate::committing::{Given, give_out};
use crate::job::{OpenJob, close, has_job, is_full, job_in, turn};
use crate::opening::{Made, make};
use crate::payments::{Committed, is_committed, release};
use coin_book::Book;
use desk_chain::{PendingTxids, add_blocks, add_hex};
use desk_machine::{Command, Reply};
use fund_base::{Memory, Txid};
use fund_files::{Tip, WholeChain};
use std::alloc::Global;
use std::marker::Model;
use wallet_text::Wallet;

/// The desk of a payment server: a wallet, the book of its chain and the tip; the committed payments, whose coins no other
/// job gets; and the open jobs. A job has the coins that might be spent when it was opened, but for those of committed
/// payments, and nothing that comes later changes what its turns reply.
///
/// It keeps the rules that [`Desk::keeps_rules`] states.
pub struct Desk {
    alloc: Global,
    held: WholeChain,
    // those of the transactions that wait
    txids: PendingTxids,
    committed: Vec<Committed>,
    jobs: Vec<OpenJob>,
}

/// One call, wherever it is dropped.
impl Drop for Desk {
    fn drop(self) {
        let Desk {
            alloc: _,
            held: _,
            txids: _,
            committed: _,
            jobs: _,
        } = self;
    }
}

impl Model for Desk {
    ghost use Rattle.desk_machine.specs.Rules.{IsDesk};
    ghost use Rattle.desk_machine.specs.State.{PlainDesk};
    ghost use Rattle.desk_chain.specs.PendingTxids.{AreTxidsOf};

    ghost Value = { PlainDesk };

    ghost view = { λ d. record { held = d.held; committed = d.committed.items; jobs = d.jobs.items } };

    ghost invariant = { λ d. IsDesk (record { held = d.held; committed = d.committed.items; jobs = d.jobs.items }) × AreTxidsOf d.held.wallet.pending d.txids };
}

/// The reply to a command that was done, or that memory ran out.
fn told(done: Result<Reply, Memory>) -> Reply
    ensures { MatchResult done (λ reply. result ≡ reply) (λ _. result ≡ Reply.Memory) }
{
    match done {
        Ok(reply) => reply,
        Err(Memory) => Reply::Memory,
    }
}

impl Desk {
    /// A desk of this wallet and the book of its chain, at which nothing was done yet. The height and the hash are those of
    /// the last block that the book was given, or the wallet's. The error is out of memory.
    pub fn new(
        alloc: Global,
        wallet: Wallet,
        book: Book,
        tip: u32,
        hash: [u8; 32],
    ) -> Result<Desk, Memory>
        requires { IsChain (record { wallet = wallet; book = book; tip = record { height = tip; hash = hash } }) }
        ensures { IfOk result (λ d. d ≡ new_desk (record { wallet = wallet; book = book; tip = record { height = tip; hash = hash } })) }
    {
        let txids = PendingTxids::of(alloc, &wallet.pending)?;
        let held = WholeChain {
            wallet,
            book,
            tip: Tip { height: tip, hash },
        };
        Ok(Desk {
            alloc,
            held,
            txids,
            committed: Vec::new(alloc),
            jobs: Vec::new(alloc),
        })
    }

    /// That no two committed payments spend one coin; that no two open jobs have one name, and that there are at most 64;
    /// that what the last turn of each came to, if that was a payment, is one of its plan; and that the book and the tip are
    /// those of the wallet and of blocks behind it. A call does nothing.
    pub fn keeps_rules(&self)
        ensures { IsDesk self.now }
    {
        let _ = &self.alloc;
    }

    /// Opens a job.
    #[tactic(auto, unfolding(desk_machine::specs::Machine::open_step))]
    fn open(&mut self, name: &str, request: &[u8]) -> Result<Reply, Memory>
        ensures reply { IfOk result (λ r. plain_reply r ≡ (open_step self.old name.now request.now).reply) }
        ensures next { OnOk result (self.new ≡ (open_step self.old name.now request.now).next) }
        ensures memory { OnErr result (self.new ≡ self.old) }
        ensures takes { OnErr result (TakesMemory self.old (Open name.now request.now)) }
    {
        if has_job(&self.jobs, name) {
            return Ok(Reply::TakenName);
        }
        if is_full(&self.jobs) {
            return Ok(Reply::Full);
        }
        let made = match make(self.alloc, &self.held, &self.committed, request)? {
            Ok(made) => made,
            Err(refusal) => return Ok(Reply::Refused(refusal)),
        };
        let Made { request, plan } = made;
        let job = OpenJob::new(self.alloc, name, request, plan)?;
        self.jobs.push(job)?;
        Ok(Reply::Opened)
    }

    /// A turn of a job.
    #[tactic(auto, unfolding(desk_machine::specs::Machine::turn_step))]
    fn turn(&mut self, name: &str, tries: u64) -> Result<Reply, Memory>
        ensures reply { IfOk result (λ r. plain_reply r ≡ (turn_step self.old name.now tries).reply) }
        ensures next { OnOk result (self.new ≡ (turn_step self.old name.now tries).next) }
        ensures memory { OnErr result (Leaves self.old (Turn name.now tries) self.new) }
        ensures takes { OnErr result (TakesMemory self.old (Turn name.now tries)) }
    {
        turn(&mut self.jobs, name, tries)
    }

    /// The payment of the job of this name as it is given out, or the reply where none is. The error is out of memory.
    fn given_for(&self, name: &str) -> Result<Result<Given, Reply>, Memory>
        ensures given { IfOk result (λ r. MatchResult r (IsPaymentOfJob self.now name.now) (λ reply. HasNoPayment self.now name.now (plain_reply reply))) }
        ensures takes { OnErr result (TakesMemory self.now (Commit name.now)) }
    {
        match job_in(&self.jobs, name) {
            Some(job) => give_out(self.alloc, &self.held, &self.committed, job),
            None => Ok(Err(Reply::NoJob)),
        }
    }

    /// Remembers the payment of the job of this name, and closes the job.
    fn remember(&mut self, name: &str, given: Given) -> Result<Reply, Memory>
        requires { IsPaymentOfJob self.old name.now given }
        ensures reply { IfOk result (λ r. plain_reply r ≡ (commit_step self.old name.now).reply) }
        ensures next { OnOk result (self.new ≡ (commit_step self.old name.now).next) }
        ensures commits { (txid psbt : List ℕ) → IfOk result (λ r. plain_reply r ≡ replies.Committed txid psbt → IsCommit self.old name.now txid psbt self.new) }
        ensures memory { OnErr result (self.new ≡ self.old) }
        ensures takes { OnErr result (TakesMemory self.old (Commit name.now)) }
    {
        self.committed.push(given.payment)?;
        close(&mut self.jobs, name);
        Ok(Reply::Committed(given.txid, given.psbt))
    }

    /// Commits the payment of a job.
    fn commit(&mut self, name: &str) -> Result<Reply, Memory>
        ensures reply { IfOk result (λ r. plain_reply r ≡ (commit_step self.old name.now).reply) }
        ensures next { OnOk result (self.new ≡ (commit_step self.old name.now).next) }
        ensures commits { (txid psbt : List ℕ) → IfOk result (λ r. plain_reply r ≡ replies.Committed txid psbt → IsCommit self.old name.now txid psbt self.new) }
        ensures memory { OnErr result (self.new ≡ self.old) }
        ensures takes { OnErr result (TakesMemory self.old (Commit name.now)) }
    {
        match self.given_for(name)? {
            Ok(given) => self.remember(name, given),
            Err(reply) => Ok(reply),
        }
    }

    /// Closes a job.
    #[tactic(auto, unfolding(desk_machine::specs::Machine::close_step))]
    fn close(&mut self, name: &str) -> Reply
        ensures reply { plain_reply result ≡ (close_step self.old name.now).reply }
        ensures next { self.new ≡ (close_step self.old name.now).next }
    {
        if !has_job(&self.jobs, name) {
            return Reply::NoJob;
        }
        close(&mut self.jobs, name);
        Reply::Closed
    }

    /// Releases the committed payments of a txid.
    #[tactic(auto, unfolding(desk_machine::specs::Machine::release_step))]
    fn release(&mut self, txid: &Txid) -> Reply
        ensures reply { plain_reply result ≡ (release_step self.old txid.now).reply }
        ensures next { self.new ≡ (release_step self.old txid.now).next }
    {
        if !is_committed(&self.committed, txid) {
            return Reply::NotCommitted;
        }
        release(&mut self.committed, txid);
        Reply::Released
    }

    /// Adds blocks.
    fn blocks(&mut self, bytes: &[u8]) -> Result<Reply, Memory>
        requires { length bytes.now ≤ 67_108_864 }
        ensures reply { IfOk result (λ r. plain_reply r ≡ (blocks_step self.old bytes.now).reply) }
        ensures next { OnOk result (self.new ≡ (blocks_step self.old bytes.now).next) }
        ensures own { IfOk result (λ r. IsOfBytes (plain_reply r)) }
        ensures memory { OnErr result (Leaves self.old (Blocks bytes.now) self.new) }
    {
        add_blocks(self.alloc, &mut self.held, bytes)
    }

    /// Adds a transaction that waits.
    fn pending(&mut self, digits: &[u8]) -> Result<Reply, Memory>
        ensures reply { IfOk result (λ r. plain_reply r ≡ (pending_step self.old digits.now).reply) }
        ensures next { OnOk result (self.new ≡ (pending_step self.old digits.now).next) }
        ensures memory { OnErr result (self.new ≡ self.old) }
        ensures takes { OnErr result (TakesMemory self.old (Pending digits.now)) }
    {
        add_hex(self.alloc, &mut self.held, &mut self.txids, digits)
    }

    /// Does a command, and replies to it: the first reply of its kind that applies, in the order in which [`Reply`] has
    /// them. Both the reply and the desk behind it are the machine's; each command has one of either. After
    /// [`Reply::Memory`] the desk is as before, but that the job of a turn stands where some of its tries lead, its last
    /// answer staying, and that some of the blocks are added. That reply comes only where memory is taken: never to a close or
    /// a release, and never in place of a reply for which none is taken.
    pub fn command(&mut self, command: &Command) -> Reply
        requires { IsCommand (plain_command command.now) }
        ensures does { Does self.old (plain_command command.now) (plain_reply result) self.new }

        // Blocks are refused for their bytes or by the book alone.
        ensures own { (bytes : List ℕ) → plain_command command.now ≡ Blocks bytes → IsOfBytes (plain_reply result) }

        // A payment is committed only where the last turn of its job came to it, and each coin of it can be spent now. It
        // pays what the job's request asks, and the PSBT is its, in the version that this request asks for.
        ensures commits { (name txid psbt : List ℕ) → plain_command command.now ≡ Commit name → plain_reply result ≡ replies.Committed txid psbt → IsCommit self.old name txid psbt self.new }
    {
        match command {
            Command::Open { name, request } => told(self.open(name.as_str(), request.as_slice())),
            Command::Turn { name, tries } => told(self.turn(name.as_str(), *tries)),
            Command::Commit { name } => told(self.commit(name.as_str())),
            Command::Close { name } => self.close(name.as_str()),
            Command::Release { txid } => self.release(txid),
            Command::Blocks { bytes } => told(self.blocks(bytes.as_slice())),
            Command::Pending { hex } => told(self.pending(hex.as_slice())),
        }
    }
}

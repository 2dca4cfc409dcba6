//! The wallet and the request of a workload.

ghost use Rattle.std.specs.Prelude.{◌≡◌, ◌≤◌, All, IfErr, IfOk};
ghost use Rattle.request_text.specs.PlainRequest.{IsRequest};
ghost use Rattle.wallet_text.specs.Repeats.{IsRepeat};
ghost use Rattle.wallet_text.specs.WalletRules.{AreDistinctEarlier, IsEarlier, IsWallet};
ghost use Rattle.command_work.specs.Load.{request_of, request_with, wallet_of, wallet_with};
ghost use Rattle.command_work.specs.Refused.{IsRefused};

use crate::kind::{Kind, joined, watches};
use crate::making::earlier_of;
use fund_base::{MAX_MONEY, Memory};
use request_text::{Method, Recipient, Request};
use std::alloc::Global;
use wallet_text::{Earlier, Wallet, WalletFault, judge_earlier};

/// A wallet, and what is asked of it.
#[derive(Drop)]
pub struct Workload {
    /// At height 200, with a hash of zeros. It watches three scripts, has a coin for each earlier transaction, and knows
    /// nothing else.
    pub wallet: Wallet,
    /// A payment of a twentieth of what the coins are worth.
    pub request: Request,
}

/// The wallet that knows these earlier transactions.
fn wallet_with(alloc: Global, earlier: Vec<Earlier>) -> Result<Wallet, Memory>
    requires each { All (IsEarlier 200) earlier.items }
    requires distinct { AreDistinctEarlier earlier.items }
    ensures value { IfOk result (λ wallet. wallet ≡ wallet_with earlier.items) }
    ensures rules { IfOk result IsWallet }
{
    let scripts = watches(alloc)?;
    let change = Kind::WitnessKeyHash.watch(alloc)?;
    Ok(Wallet {
        height: 200,
        hash: [0; 32],
        scripts,
        change,
        earlier,
        pending: Vec::new(alloc),
        abandoned: Vec::new(alloc),
        locked: Vec::new(alloc),
    })
}

/// The recipients: one of so many satoshi.
#[tactic(auto, unfolding(crate::specs::Load::paid_script))]
fn recipients(alloc: Global, amount: u64) -> Result<Vec<Recipient>, Memory>
    ensures { IfOk result (λ v. v.items ≡ (request_with amount).recipients) }
{
    let script = joined(alloc, &[0x00, 0x14], &[0x44; 20], &[])?;
    let mut recipients = Vec::new(alloc);
    let recipient = Recipient { script, amount };
    recipients.push(recipient)?;
    Ok(recipients)
}

/// The request that pays so many satoshi.
fn request_with(alloc: Global, amount: u64) -> Result<Request, Memory>
    requires least { 294 ≤ amount }
    requires most { amount ≤ MAX_MONEY }
    ensures value { IfOk result (λ request. request ≡ request_with amount) }
    ensures rules { IfOk result IsRequest }
{
    let recipients = recipients(alloc, amount)?;
    Ok(Request {
        recipients,
        rate: 25_000,
        long_term: 10_000,
        discard: 10_000,
        change_target: 50_000,
        method: Method::Auto,
        seed: [0; 32],
        tries: 100_000,
        take: true,
        zero_conf: true,
        include_unsafe: false,
        group: false,
        coins: Vec::new(alloc),
        bump: None,
        replaceable: true,
        locktime: 0,
        psbt: 0,
    })
}

/// Both, of these earlier transactions and for so many satoshi.
fn made(alloc: Global, earlier: Vec<Earlier>, amount: u64) -> Result<Workload, Memory>
    requires each { All (IsEarlier 200) earlier.items }
    requires distinct { AreDistinctEarlier earlier.items }
    requires least { 294 ≤ amount }
    requires most { amount ≤ MAX_MONEY }
    ensures wallet { IfOk result (λ load. load.wallet ≡ wallet_with earlier.items) }
    ensures request { IfOk result (λ load. load.request ≡ request_with amount) }
    ensures wallet_rules { IfOk result (λ load. IsWallet load.wallet) }
    ensures request_rules { IfOk result (λ load. IsRequest load.request) }
{
    let wallet = wallet_with(alloc, earlier)?;
    let request = request_with(alloc, amount)?;
    Ok(Workload { wallet, request })
}

/// The same where no two of the transactions have one txid; otherwise the first that has one that stood before it.
fn judged(alloc: Global, earlier: Vec<Earlier>, amount: u64) -> Result<Workload, WalletFault>
    requires each { All (IsEarlier 200) earlier.items }
    requires least { 294 ≤ amount }
    requires most { amount ≤ MAX_MONEY }
    ensures wallet { IfOk result (λ load. load.wallet ≡ wallet_with earlier.items) }
    ensures request { IfOk result (λ load. load.request ≡ request_with amount) }
    ensures wallet_rules { IfOk result (λ load. IsWallet load.wallet) }
    ensures request_rules { IfOk result (λ load. IsRequest load.request) }
    ensures fault { IfErr result (IsRepeat earlier.items) }
{
    judge_earlier(alloc, &earlier)?;
    match made(alloc, earlier, amount) {
        Ok(load) => Ok(load),
        Err(Memory) => Err(WalletFault::Memory),
    }
}

impl Workload {
    /// The workload of a number and a count of coins, 1 to 10,000. Each coin takes two words of ChaCha20, stream 0, with
    /// the number as the key: the first makes its value, 10,000 to 5,009,999 satoshi, the second its script. Coin by
    /// coin an earlier transaction at height 100 makes it.
    ///
    /// A wallet has no two earlier transactions of one txid. The texts of these all differ, so that only a collision of
    /// SHA-256 can make two txids the same: then the fault is [`WalletFault::Repeat`], as of a wallet file. Else it is to
    /// be out of memory.
    pub fn new(alloc: Global, number: u64, count: u32) -> Result<Workload, WalletFault>
        requires some { 1 ≤ count }
        requires most { count ≤ 10_000 }
        ensures wallet { IfOk result (λ load. load.wallet ≡ wallet_of number count) }
        ensures request { IfOk result (λ load. load.request ≡ request_of number count) }
        ensures wallet_rules { IfOk result (λ load. IsWallet load.wallet) }
        ensures request_rules { IfOk result (λ load. IsRequest load.request) }
        ensures fault { IfErr result (IsRefused number count) }
    {
        match earlier_of(alloc, number, count) {
            Ok((earlier, total)) => judged(alloc, earlier, total / 20),
            Err(Memory) => Err(WalletFault::Memory),
        }
    }
}

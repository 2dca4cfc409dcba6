//! Requests: what is to be paid, at which rates, and how coins are to be chosen for it.

ghost use Rattle.std.specs.Prelude.{◌≡◌, IfOk, take};

use fund_base::{Memory, OutPoint, Script, Txid};
use std::alloc::Global;
use std::marker::Model;

/// How coins are chosen.
#[derive(Clone, Copy, PartialEq, Eq)]
pub enum Method {
    /// The searches for a payment without change, then for a light one, with a draw beside them.
    Auto,
    /// The search for a payment without change alone.
    Changeless,
    /// The search for the lightest payment with change alone.
    Weight,
    /// A draw at random alone.
    Draw,
    /// None: exactly the listed coins are spent.
    Manual,
}

/// An output that is asked for.
#[derive(Drop)]
pub struct Recipient {
    /// What is paid to, 1 to 10,000 bytes.
    pub script: Script,
    /// What is paid, in satoshi: no less than the script's dust threshold, at most 21,000,000 bitcoin.
    pub amount: u64,
}

impl Recipient {
    /// A copy. It equals the recipient.
    pub fn copy(&self, alloc: Global) -> Result<Recipient, Memory>
        ensures { IfOk result (λ r. r ≡ self.now) }
    {
        let script = self.script.copy(alloc)?;
        Ok(Recipient {
            script,
            amount: self.amount,
        })
    }
}

/// What a request file asks for. Each request keeps the rules of the file (`IsRequest`), which
/// [`Request::keeps_rules`] states.
#[derive(Drop)]
pub struct Request {
    /// The outputs that are asked for, in order: at least one, together at most 21,000,000 bitcoin.
    pub recipients: Vec<Recipient>,
    /// The fee rate, in satoshi per 1,000 virtual bytes, at most 100,000,000; so are the next two.
    pub rate: u64,
    /// The rate at which coins are thought to be spent later.
    pub long_term: u64,
    /// The rate at which change would be spent.
    pub discard: u64,
    /// The change that is aimed at, in satoshi, at most 21,000,000 bitcoin.
    pub change_target: u64,
    /// How coins are chosen.
    pub method: Method,
    /// What draws at random are made from.
    pub seed: [u8; 32],
    /// How many tries the searches have, 1 to 10,000,000.
    pub tries: u64,
    /// Whether the best that was found is taken where the tries are used up.
    pub take: bool,
    /// Whether the wallet's own pending outputs may be spent.
    pub zero_conf: bool,
    /// Whether pending outputs that a stranger may take back may be spent.
    pub include_unsafe: bool,
    /// Whether the coins of one script are spent together.
    pub group: bool,
    /// The coins that are spent in any case, in order, each once; none beside a bump.
    pub coins: Vec<OutPoint>,
    /// The pending transaction that is replaced.
    pub bump: Option<Txid>,
    /// Whether the payment signals that it may be replaced (BIP 125).
    pub replaceable: bool,
    /// The payment's lock time.
    pub locktime: u32,
    /// The version of the PSBT that is written: 0 (BIP 174) or 2 (BIP 370).
    pub psbt: u32,
}

impl Model for Request {
    ghost use Rattle.request_text.specs.PlainRequest.{IsRequest, PlainRequest};

    ghost Value = { PlainRequest };

    ghost use Rattle.request_text.specs.InMemory.{plain_request};

    ghost view = { plain_request };

    ghost invariant = { λ r. IsRequest (plain_request r) };
}

/// A copy of each recipient.
fn copy_recipients(alloc: Global, recipients: &[Recipient]) -> Result<Vec<Recipient>, Memory>
    ensures { IfOk result (λ v. v.items ≡ recipients.now) }
{
    let mut copies = Vec::new(alloc);
    for recipient in recipients {
        copies.push(recipient.copy(alloc)?)?;
    }
    Ok(copies)
}

impl Request {
    ghost use Rattle.request_text.specs.PlainRequest.{IsRequest};

    /// That the request keeps the rules of its file. A call does nothing.
    pub fn keeps_rules(&self)
        ensures { IsRequest self.now }
    {
        let _ = &self.rate;
    }

    /// A copy. It equals the request.
    pub fn copy(&self, alloc: Global) -> Result<Request, Memory>
        ensures { IfOk result (λ r. r ≡ self.now) }
    {
        let recipients = copy_recipients(alloc, &self.recipients)?;
        let coins = Vec::from_slice(alloc, &self.coins)?;
        Ok(Request {
            recipients,
            rate: self.rate,
            long_term: self.long_term,
            discard: self.discard,
            change_target: self.change_target,
            method: self.method,
            seed: self.seed,
            tries: self.tries,
            take: self.take,
            zero_conf: self.zero_conf,
            include_unsafe: self.include_unsafe,
            group: self.group,
            coins,
            bump: self.bump,
            replaceable: self.replaceable,
            locktime: self.locktime,
            psbt: self.psbt,
        })
    }
}

//! The state of a pending payment.

use fund_base::Txid;

/// What has become of a transaction of the pending list, from the whole chain and the whole list. The first that
/// applies holds. Ancestors are the transactions of the pending list that are reached through inputs and aren't
/// confirmed; no way to them passes a confirmed one.
#[derive(Clone, Copy, PartialEq, Eq)]
pub enum State {
    /// A transaction of its txid is confirmed; the first in chain order stands at this height.
    Confirmed(u32),
    /// It or an ancestor spends an outpoint that a confirmed transaction spends. This is the txid of the first such in
    /// chain order.
    Conflicted(Txid),
    /// The wallet has abandoned it or an ancestor.
    Abandoned,
    /// It or an ancestor spends an outpoint that a later transaction of the pending list spends, which is neither
    /// Confirmed nor Conflicted nor Abandoned. Of it and its ancestors the first in list order that has such a later
    /// one counts, and this is the txid of the first such later one.
    Replaced(Txid),
    /// It waits for a block.
    Pending,
}

/// A transaction of the pending list and its state.
#[derive(Clone, Copy, PartialEq, Eq)]
pub struct Payment {
    /// The txid of the transaction.
    pub txid: Txid,
    /// What became of it.
    pub state: State,
}

//! What is known of the pending list, before its coins are looked at.

ghost use Rattle.std.specs.Prelude.{◌≡◌, ◌<◌, ℕ, IfOk, true, not, length, map, vec_len, slice_index_or};
ghost use Rattle.coin_book.specs.Coins.{coins_of};
ghost use Rattle.payment_states.specs.BookOf.{IsBookOf};
ghost use Rattle.payment_states.specs.Candidates.{ancestors, descendants, is_own, is_pending, is_safe};
ghost use Rattle.payment_states.specs.Graph.{IsInOrder, below};
ghost use Rattle.payment_states.specs.ByPlace.{place_if};
ghost use Rattle.payment_states.specs.Payments.{payments_of};
ghost use Rattle.payment_states.specs.PendingView.{graph, view_of};

use crate::abandoned::which_not;
use crate::ancestry::{Parents, least_of_kin};
use crate::claims::{doubts_of, kept_graph, pending_of, replacers_of};
use crate::graph::graph_of;
use crate::spans::numbers;
use crate::states::States;
use coin_book::Known;
use fund_base::Memory;
use std::alloc::Global;
use wallet_text::Wallet;

/// At each place of the pending list: whether its transaction is Pending and safe, and how many Pending ancestors and
/// descendants it has, itself included.
pub struct Facts {
    /// Whether the transaction is Pending.
    pub pending: Vec<bool>,
    /// Whether it is safe.
    pub safe: Vec<bool>,
    /// Its Pending ancestors, itself included.
    pub ancestors: Vec<u32>,
    /// Its Pending descendants, itself included.
    pub descendants: Vec<u32>,
}

/// One call, wherever it is dropped.
impl Drop for Facts {
    fn drop(self) {
        let Facts {
            pending: _,
            safe: _,
            ancestors: _,
            descendants: _,
        } = self;
    }
}

/// A number at each place of the pending list whose transaction isn't mine, or replaces another.
fn own_doubts(
    alloc: Global,
    book: &Known<'_>,
    wallet: &Wallet,
    states: &States,
) -> Result<Vec<Option<u64>>, Memory>
    requires states { states.now ≡ payments_of wallet.now book.now }
    ensures doubts { IfOk result (λ v. v.items ≡ map (λ i. place_if (not (is_own (view_of wallet.now book.now) (coins_of book.now) i)) 0) (below (length wallet.now.pending))) }
    ensures len { IfOk result (λ v. vec_len v ≡ length wallet.now.pending) }
{
    let replacers = replacers_of(alloc, states.payments())?;
    doubts_of(alloc, book, &wallet.pending, states.payments(), &replacers)
}

/// Whether each transaction of the pending list is safe.
fn safe_of(
    alloc: Global,
    book: &Known<'_>,
    wallet: &Wallet,
    states: &States,
    parents: &[Parents],
    pending: &[bool],
) -> Result<Vec<bool>, Memory>
    requires states { states.now ≡ payments_of wallet.now book.now }
    requires parents { parents.now ≡ graph (view_of wallet.now book.now) }
    requires order { IsInOrder parents.now }
    requires pending { pending.now ≡ map (is_pending (view_of wallet.now book.now)) (below (length wallet.now.pending)) }
    ensures { IfOk result (λ v. v.items ≡ map (is_safe (view_of wallet.now book.now) (coins_of book.now)) (below (length wallet.now.pending))) }
{
    let doubts = own_doubts(alloc, book, wallet, states)?;
    let least = {
        let graph = kept_graph(alloc, parents, pending)?;
        least_of_kin(alloc, &graph, &doubts)?
    };
    let safe = which_not(alloc, &least)?;
    Ok(safe)
}

/// What is known of the pending list. The error is out of memory.
pub fn facts_of(
    alloc: Global,
    book: &Known<'_>,
    wallet: &Wallet,
    states: &States,
) -> Result<Facts, Memory>
    requires book { IsBookOf wallet.now book.now }
    requires states { states.now ≡ payments_of wallet.now book.now }
    ensures pending { IfOk result (λ f. f.pending.items ≡ map (is_pending (view_of wallet.now book.now)) (below (length wallet.now.pending))) }
    ensures safe { IfOk result (λ f. f.safe.items ≡ map (is_safe (view_of wallet.now book.now) (coins_of book.now)) (below (length wallet.now.pending))) }
    ensures ancestors { (i : ℕ) → i < length wallet.now.pending → is_pending (view_of wallet.now book.now) i ≡ true → IfOk result (λ f. slice_index_or f.ancestors.items i 0 ≡ ancestors (view_of wallet.now book.now) i) }
    ensures descendants { (i : ℕ) → IfOk result (λ f. slice_index_or f.descendants.items i 0 ≡ descendants (view_of wallet.now book.now) i) }
{
    let parents = graph_of(alloc, book, states.txids(), &wallet.pending)?;
    let pending = pending_of(alloc, states.payments())?;
    let safe = safe_of(alloc, book, wallet, states, &parents, &pending)?;
    let counts = numbers(alloc, &parents, &pending)?;
    Ok(Facts {
        pending,
        safe,
        ancestors: counts.ancestors,
        descendants: counts.descendants,
    })
}

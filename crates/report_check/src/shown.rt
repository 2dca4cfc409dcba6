//! Whether the inputs of a PSBT show the coins that they spend.

ghost use Rattle.std.specs.Prelude.{◌≡◌, ◌↔◌, ◌⊎◌, IfSome, IsSome, IsTrue, Some, slice_get};
ghost use Rattle.std.specs.List.{AllZip};
ghost use Rattle.report_check.specs.Payment.{Shows, output_of};

use coin_candidates::Candidate;
use psbt_codec::Spent;
use tx_codec::TxOut;

/// Whether an output is the one that a coin is.
#[tactic(auto, using(crate::proofs::ShownLaws::same_output))]
fn is_output(coin: &Candidate, output: &TxOut) -> bool
    ensures { IsTrue result ↔ (output.now ≡ output_of coin.now) }
{
    output.value.get() == coin.value && output.script.bytes() == coin.script.bytes()
}

/// Whether an input's output is its coin, where it is there.
fn by_output(coin: &Candidate, spent: &Spent) -> bool
    ensures { IsTrue result ↔ IfSome spent.now.paid (λ o. o ≡ output_of coin.now) }
{
    match &spent.paid {
        None => true,
        Some(output) => is_output(coin, output),
    }
}

/// Whether an input's whole transaction has its coin at the coin's index, where it is there.
fn by_whole(coin: &Candidate, spent: &Spent) -> bool
    ensures { IsTrue result ↔ IfSome spent.now.whole (λ t. slice_get t.outputs coin.now.coin.index ≡ Some (output_of coin.now)) }
{
    match &spent.whole {
        None => true,
        Some(whole) => {
            match whole.outputs.get(coin.coin.index as usize) {
                None => false,
                Some(output) => is_output(coin, output),
            }
        }
    }
}

/// Whether an input has one or the other.
fn has_either(spent: &Spent) -> bool
    ensures { IsTrue result ↔ (IsSome spent.now.paid ⊎ IsSome spent.now.whole) }
{
    spent.paid.is_some() || spent.whole.is_some()
}

/// Whether an input shows its coin: by the output, by the transaction that has it, or by both.
fn shows(coin: &Candidate, spent: &Spent) -> bool
    ensures { IsTrue result ↔ Shows coin.now spent.now }
{
    has_either(spent) && by_output(coin, spent) && by_whole(coin, spent)
}

/// Whether each input shows its coin.
pub(crate) fn are_shown(coins: &[Candidate], spent: &[Spent]) -> bool
    ensures { IsTrue result ↔ AllZip Shows coins.now spent.now }
{
    if coins.len() != spent.len() {
        return false;
    }
    'showing: for i in 0..coins.len() {
        if !shows(&coins[i], &spent[i]) {
            return false;
        }
    }
    true
}

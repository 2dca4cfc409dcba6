//! The lines of a listing.

ghost use Rattle.std.specs.Prelude.{◌≡◌, ◌++◌, ◌∷◌, [], IfOk, string_bytes};
ghost use Rattle.command_coins.specs.Listing.{coin_line, own_word, payment_line, safe_word, standing_words, state_words, tip_line};

use coin_candidates::Candidate;
use command_end::{coin_text, shown_hash};
use fund_base::Memory;
use payment_states::{Payment, State};
use std::alloc::Global;

/// The line of the chain's last block.
#[tactic(auto, unfolding(crate::specs::Listing::tip_line))]
pub fn tip_line(alloc: Global, height: u32, hash: &[u8; 32]) -> Result<String, Memory>
    ensures { IfOk result (λ text. string_bytes text ≡ tip_line height hash.now ++ (10 ∷ [])) }
{
    let hash = shown_hash(alloc, hash)?;
    Ok(format!(in alloc; "tip {} {}\n", height, hash)?)
}

#[tactic(auto, unfolding(crate::specs::Listing::state_words))]
fn state_words(alloc: Global, state: &State) -> Result<String, Memory>
    ensures { IfOk result (λ text. string_bytes text ≡ state_words state.now) }
{
    match state {
        State::Confirmed(height) => Ok(format!(in alloc; "confirmed {}", *height)?),
        State::Conflicted(txid) => {
            let txid = shown_hash(alloc, txid.bytes())?;
            Ok(format!(in alloc; "conflicted {}", txid)?)
        }
        State::Abandoned => Ok(format!(in alloc; "abandoned")?),
        State::Replaced(txid) => {
            let txid = shown_hash(alloc, txid.bytes())?;
            Ok(format!(in alloc; "replaced {}", txid)?)
        }
        State::Pending => Ok(format!(in alloc; "pending")?),
    }
}

/// The line of a payment.
#[tactic(auto, unfolding(crate::specs::Listing::payment_line))]
pub fn payment_line(alloc: Global, payment: &Payment) -> Result<String, Memory>
    ensures { IfOk result (λ text. string_bytes text ≡ payment_line payment.now ++ (10 ∷ [])) }
{
    let txid = shown_hash(alloc, payment.txid.bytes())?;
    let state = state_words(alloc, &payment.state)?;
    Ok(format!(in alloc; "payment {} {}\n", txid, state)?)
}

fn own_word(mine: bool) -> &'static str
    ensures { result.now ≡ own_word mine }
{
    if mine { "mine" } else { "foreign" }
}

fn safe_word(safe: bool) -> &'static str
    ensures { result.now ≡ safe_word safe }
{
    if safe { "safe" } else { "unsafe" }
}

/// Whose a coin is, whether it is safe, and what is pending below and above it.
#[tactic(auto, unfolding(crate::specs::Listing::standing_words))]
fn standing_words(alloc: Global, candidate: &Candidate) -> Result<String, Memory>
    ensures { IfOk result (λ text. string_bytes text ≡ standing_words candidate.now) }
{
    let own = own_word(candidate.mine);
    let safe = safe_word(candidate.safe);
    let (ancestors, descendants) = (candidate.ancestors, candidate.descendants);
    Ok(format!(in alloc; "{} {} {} {}", own, safe, ancestors, descendants)?)
}

/// The line of a coin.
#[tactic(auto, unfolding(crate::specs::Listing::coin_line))]
pub fn coin_line(alloc: Global, candidate: &Candidate) -> Result<String, Memory>
    ensures { IfOk result (λ text. string_bytes text ≡ coin_line candidate.now ++ (10 ∷ [])) }
{
    let coin = coin_text(alloc, &candidate.coin)?;
    let words = standing_words(alloc, candidate)?;
    Ok(format!(in alloc;
        "coin {} {} {} {}\n",
        coin, candidate.value, candidate.depth, words
    )?)
}

//! The payment that a signer gets.

ghost use Rattle.std.specs.Prelude.{◌≡◌, All, IfOk, string_bytes};
ghost use Rattle.fund_files.specs.Chain.{IsChain};
ghost use Rattle.fund_payment.specs.Shown.{ShowsCoins};
ghost use Rattle.payment_states.specs.Makers.{HasMaker};
ghost use Rattle.psbt_codec.specs.Psbt.{IsPsbt};
ghost use Rattle.command_amounts.specs.Signing.{CanBeSigned, psbt_from, psbt_text_from};

use closing_log::{Mark, Stage};
use coin_candidates::Candidate;
use fund_base::Memory;
use fund_files::Chain;
use fund_payment::{inputs_show_coins, psbt};
use fund_plan::Funded;
use psbt_codec::write_text;
use request_text::Request;
use std::alloc::Global;

/// A payment from these coins and with this change. Nothing else of it is told to a signer.
fn from_coins(coins: Vec<Candidate>, change: Option<u64>) -> Funded
    ensures coins { result.coins ≡ coins.items }
    ensures change { result.change ≡ change }
{
    Funded {
        mark: Mark::Given,
        row: 0,
        stage: Stage::Presets,
        coins,
        change,
        waste: 0,
        weight: 0,
    }
}

/// The payment of the request from these coins and with this change, in satoshi, as text: a PSBT in base64 and in the version
/// that the request asks for (BIP 174, BIP 370), of which each input shows the value and the script of its coin. The book has
/// the transactions that made the coins. The error is out of memory.
pub fn payment_text(
    alloc: Global,
    held: &Chain,
    request: &Request,
    coins: Vec<Candidate>,
    change: Option<u64>,
) -> Result<String, Memory>
    requires held { IsChain held.now }
    requires can { CanBeSigned request.now coins.items change }
    requires makers { All (HasMaker held.now.book) coins.items }
    ensures value { IfOk result (λ text. string_bytes text ≡ psbt_text_from held.now.book request.now held.now.wallet.change coins.items change) }
    ensures fits { IfOk result (λ _. IsPsbt (psbt_from held.now.book request.now held.now.wallet.change coins.items change)) }
    ensures shows { IfOk result (λ _. ShowsCoins coins.items (psbt_from held.now.book request.now held.now.wallet.change coins.items change)) }
{
    inputs_show_coins();
    let funded = from_coins(coins, change);
    let book = held.book.known();
    let signed = psbt(alloc, &book, &held.wallet.change, request, &funded)?;
    write_text(alloc, &signed, request.psbt)
}

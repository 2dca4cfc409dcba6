//! Coins with their depths and how they stand.

use crate::shown::put_shown;
use coin_candidates::Candidate;
use fund_base::Txid;
use row_columns::Answer;

/// Puts a txid as it is shown, or its first four digits.
pub(crate) fn put_txid(out: &mut Answer, word: &str, txid: &Txid, is_short: bool) {
    let bytes = txid.bytes();
    if is_short {
        out.digits(word, &[bytes[31], bytes[30]]);
    } else {
        put_shown(out, word, bytes);
    }
}

/// Puts the price of a coin that has one.
fn put_price(out: &mut Answer, price: u64) {
    if price > 0 {
        out.number(" price ", price);
    }
}

/// Puts coins with their values, their depths, whether they are mine and safe, how many ancestors and descendants they have, and
/// their prices.
pub(crate) fn put_candidates(out: &mut Answer, word: &str, coins: &[Candidate], is_short: bool) {
    for coin in coins {
        put_txid(out, word, &coin.coin.txid, is_short);
        out.number(":", coin.coin.index as u64);
        out.number(" ", coin.value);
        out.number(" ", coin.depth as u64);
        out.word(if coin.mine { " mine" } else { " foreign" });
        out.word(if coin.safe { " safe" } else { " unsafe" });
        out.number(" ", coin.ancestors as u64);
        out.number(" ", coin.descendants as u64);
        put_price(out, coin.price);
    }
}

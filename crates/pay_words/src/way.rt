//! By which command a payment is made.

ghost use Rattle.std.specs.Prelude.{◌≡◌, Ok, Err, if◌then◌else◌};
ghost use Rattle.pay_words.specs.Ways.{alone_by, is_changeless, is_weight, unless_listed, way_by, way_of};
ghost use Rattle.pay_words.specs.declared.fault.WordFault.TheVariants.{NotChangeless, NotWeight};
ghost use Rattle.pay_words.specs.declared.way.Way.TheVariants.{Share, Wide};

use crate::fault::WordFault;
use crate::flag::Flag;
use crate::given::{Given, place_of};
use request_text::Method;

/// By which command a payment is made.
#[derive(Clone, Copy)]
pub enum Way {
    /// By `fund`: as the method says, and the fee comes on top of what is paid. A payment may be replaced.
    Fund,
    /// By `wide`, as `--consolidate` asks: of all choices without change the one that wastes least, with coins that aren't needed.
    /// The method is `changeless`, and no coin is listed.
    Wide,
    /// By `share`, as `--fee-from-amount` asks: the recipients bear the fee. The method is `weight`, and no coin is listed.
    Share,
}

/// This way, unless a coin is listed, at this place. It never runs out of memory.
fn unless_listed(way: Way, coin: Option<usize>) -> Result<Way, WordFault>
    ensures { result ≡ unless_listed way coin }
{
    match coin {
        None => Ok(way),
        Some(place) => Err(WordFault::ListedCoin(place)),
    }
}

/// The way of `--consolidate` at this place, with this method and this coin. It never runs out of memory.
fn consolidated(place: usize, method: Method, coin: Option<usize>) -> Result<Way, WordFault>
    ensures { result ≡ (if is_changeless method then unless_listed Wide coin else Err (NotChangeless place)) }
{
    match method {
        Method::Changeless => unless_listed(Way::Wide, coin),
        _ => Err(WordFault::NotChangeless(place)),
    }
}

/// The way of `--fee-from-amount` at this place, with this method and this coin. It never runs out of memory.
fn borne(place: usize, method: Method, coin: Option<usize>) -> Result<Way, WordFault>
    ensures { result ≡ (if is_weight method then unless_listed Share coin else Err (NotWeight place)) }
{
    match method {
        Method::Weight => unless_listed(Way::Share, coin),
        _ => Err(WordFault::NotWeight(place)),
    }
}

/// The way by the places of `--consolidate`, of `--fee-from-amount` and of the first listed coin. It never runs out of memory.
fn way_by(
    consolidates: Option<usize>,
    bears: Option<usize>,
    coin: Option<usize>,
    method: Method,
) -> Result<Way, WordFault>
    ensures { result ≡ way_by consolidates bears coin method }
{
    match consolidates {
        None => match bears {
            None => Ok(Way::Fund),
            Some(place) => borne(place, method, coin),
        },
        Some(place) => match bears {
            None => consolidated(place, method, coin),
            Some(other) => Err(WordFault::BothWays(other)),
        },
    }
}

/// The way of a payment that is replaced, where this is the place of what may not stand beside it. It never runs out of memory.
fn alone_by(other: Option<usize>) -> Result<Way, WordFault>
    ensures { result ≡ alone_by other }
{
    match other {
        None => Ok(Way::Fund),
        Some(place) => Err(WordFault::BesideBump(place)),
    }
}

/// The way that the flags ask for with this method, or why they don't go together. It never runs out of memory.
pub fn way_of(given: &[Given], method: Method) -> Result<Way, WordFault>
    ensures { result ≡ way_of given.now method }
{
    let consolidates = place_of(given, Flag::Consolidate);
    let bears = place_of(given, Flag::FeeFromAmount);
    let coin = place_of(given, Flag::Coin);
    match place_of(given, Flag::Bump) {
        None => way_by(consolidates, bears, coin, method),
        Some(_) => alone_by(coin.or(consolidates.or(bears))),
    }
}

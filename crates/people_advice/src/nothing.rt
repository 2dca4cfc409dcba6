//! Why no coins pay for what is asked, by what chose them.

ghost use Rattle.std.specs.Prelude.{◌≡◌, length, ◌==◌, not};
ghost use Rattle.people_advice.specs.Nothing.{none_advice, none_by, none_for, none_replacing, none_swept};

use pay_words::{Asked, Way};
use request_text::Method;

/// What is said where this method found nothing, and coins are listed or none is.
#[tactic(auto, unfolding(crate::specs::Nothing::none_by))]
fn none_by(method: Method, has_coins: bool) -> &'static str
    ensures { result.now ≡ none_by method has_coins }
{
    match method {
        Method::Changeless =>
            "No choice of coins pays this without change: take another --method, or pay less.",
        Method::Manual => {
            if has_coins {
                "The listed coins do not pay this: list more with --coin, pay less, or give a lower rate."
            } else {
                "--method manual spends the coins behind --coin alone, and none is listed: list them."
            }
        }
        Method::Auto | Method::Weight | Method::Draw =>
            "The coins that may be spent do not pay this: pay less, give a lower rate, or --zero-conf for own outputs that wait.",
    }
}

/// The same where a payment is replaced.
#[tactic(auto, unfolding(crate::specs::Nothing::none_replacing))]
fn none_replacing(method: Method) -> &'static str
    ensures { result.now ≡ none_replacing method }
{
    match method {
        Method::Changeless =>
            "No choice of coins pays this without change: take another --method, or pay less.",
        Method::Manual =>
            "The coins of the payment that is replaced do not pay this alone: take another --method, pay less, or give a lower rate.",
        Method::Auto | Method::Weight | Method::Draw =>
            "The coins of the payment that is replaced, with those that may be added, do not pay this: pay less, or give a lower rate.",
    }
}

/// The same by the command too.
#[tactic(auto, unfolding(crate::specs::Nothing::none_for))]
fn none_for(way: Way, replaces: bool, method: Method, has_coins: bool) -> &'static str
    ensures { result.now ≡ none_for way replaces method has_coins }
{
    match way {
        Way::Share =>
            "The confirmed coins are not worth these amounts within the weight of one payment: pay less.",
        Way::Wide =>
            "No choice of coins pays this without change: leave out --consolidate and --method changeless, or pay less.",
        Way::Fund => {
            if replaces {
                none_replacing(method)
            } else {
                none_by(method, has_coins)
            }
        }
    }
}

/// What to do where no coins pay for what is asked: by its command, by whether a payment is replaced, by its method, and by whether
/// coins are listed.
#[tactic(auto, unfolding(crate::specs::Nothing::none_advice))]
pub fn none_advice(asked: &Asked) -> &'static str
    ensures { result.now ≡ none_advice asked.now }
{
    none_for(
        asked.way,
        asked.settings.bump.is_some(),
        asked.settings.method,
        !asked.coins.is_empty(),
    )
}

/// What to do where all coins leave too little for their one recipient: less than is asked for, or than nodes relay.
#[tactic(auto, unfolding(crate::specs::Nothing::none_swept))]
pub fn none_swept() -> &'static str
    ensures { result.now ≡ none_swept }
{
    "The coins that may be spent leave less than is asked for, or than nodes relay: give a lower rate, or --zero-conf for own outputs that wait."
}

//! The stages of a method, in columns.

ghost use Rattle.std.specs.Prelude.{◌≡◌, ◌<◌, ◌≤ℤ◌, pos, All, length};
ghost use Rattle.fee_rates.specs.Terms.{IsLoad, target_of};
ghost use Rattle.fund_steps.specs.Searches.{turns_for};
ghost use Rattle.fund_steps.specs.Terms.{rates_of};
ghost use Rattle.fund_steps.specs.Turns.{HasSteps, turns_of};

use crate::terms::rates;
use closing_log::Stage;
use fee_rates::{PaymentLoad, Terms};
use request_text::{Method, Request};

/// A stage of a row, and whether it is the last one of its column.
#[derive(Clone, Copy, PartialEq, Eq)]
pub struct Turn {
    /// The stage.
    pub stage: Stage,
    /// Whether no other stage of its column stands behind it.
    pub last: bool,
}

static CHANGELESS: [Turn; 1] = [Turn {
    stage: Stage::Changeless,
    last: true,
}];

static WEIGHT: [Turn; 2] = [
    Turn {
        stage: Stage::LeanBig,
        last: true,
    },
    Turn {
        stage: Stage::LeanSmall,
        last: true,
    },
];

static DRAW: [Turn; 2] = [
    Turn {
        stage: Stage::Draw,
        last: true,
    },
    Turn {
        stage: Stage::LeanSmall,
        last: true,
    },
];

static AUTO: [Turn; 3] = [
    Turn {
        stage: Stage::Changeless,
        last: false,
    },
    Turn {
        stage: Stage::Draw,
        last: true,
    },
    Turn {
        stage: Stage::LeanSmall,
        last: true,
    },
];

static AUTO_HIGH: [Turn; 4] = [
    Turn {
        stage: Stage::Changeless,
        last: false,
    },
    Turn {
        stage: Stage::LeanBig,
        last: false,
    },
    Turn {
        stage: Stage::Draw,
        last: true,
    },
    Turn {
        stage: Stage::LeanSmall,
        last: true,
    },
];

/// The stages of a method, in order: `high` tells whether fees are higher now than thrice those of the long run.
fn turns(method: Method, high: bool) -> &'static [Turn]
    ensures value { result.now ≡ turns_of method high }
    ensures stages { All (λ u. HasSteps u.stage) result.now }
{
    match method {
        Method::Auto => { if high { &AUTO_HIGH[..] } else { &AUTO[..] } }
        Method::Changeless => &CHANGELESS[..],
        Method::Weight => &WEIGHT[..],
        Method::Draw => &DRAW[..],
        Method::Manual => &[],
    }
}

/// The stages of each row of a request, for presets of this load. There are none with `manual`, and none where there are
/// presets and these bring all that is needed.
pub fn row_turns(request: &Request, load: &PaymentLoad) -> &'static [Turn]
    requires { IsLoad load.now }
    ensures value { result.now ≡ turns_for request.now load.now }
    ensures stages { All (λ u. HasSteps u.stage) result.now }
    ensures some { 0 < length result.now → pos 1 ≤ℤ target_of (rates_of request.now) load.now }
{
    request.keeps_rules();
    let terms = Terms::new(&rates(request), load);
    if load.has_presets && terms.target <= 0 {
        return &[];
    }
    turns(request.method, request.rate > 3 * request.long_term)
}

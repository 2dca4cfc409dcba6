//! The payment from the places of a row's pool, without change.

ghost use Rattle.std.specs.Prelude.{◌≡◌, ◌==◌, [], find, length, option_copied, IfOk};
ghost use Rattle.fee_rates.specs.Terms.{IsLoad};
ghost use Rattle.fund_plan.specs.Answer.{IsPayment, IsSelection};
ghost use Rattle.fund_plan.specs.Chosen.{coins_at, row_among};
ghost use Rattle.fund_plan.specs.Steps.{pool_in};
ghost use Rattle.fund_steps.specs.Amounts.{AreWithin};
ghost use Rattle.fund_steps.specs.Listed.{presets_in};
ghost use Rattle.pick_problem.specs.Problem.{Rising};
ghost use Rattle.request_text.specs.PlainRequest.{paid_to};
ghost use Rattle.wide_plan.specs.Payments.{CanPay};
ghost use Rattle.wide_plan.specs.Run.{paid_at, paid_by};

use closing_log::{Mark, Stage};
use coin_candidates::Candidate;
use fee_rates::PaymentLoad;
use fund_base::Memory;
use fund_plan::{Funded, PaymentMaker, declared_weight, waste};
use fund_steps::in_order;
use output_groups::{Groups, Row, ladder};
use request_text::Request;
use std::alloc::Global;

/// No row: it stands where a number is that of none.
const NO_ROW: Row = Row {
    number: 0,
    own: 0,
    foreign: 0,
    ancestors: 0,
    descendants: 0,
    partial: false,
    unsafe_too: false,
};

/// The first row of this number, if there is one.
fn found_row(rows: &[Row], number: u8) -> Option<&Row>
    ensures { option_copied result ≡ find (λ (r : Row). r.number == number) rows.now }
{
    rows.iter().find(|row| row.number == number)
}

/// The row of this number.
fn row_at(rows: &[Row], number: u8) -> Row
    ensures { result ≡ row_among rows.now number }
{
    match found_row(rows, number) {
        Some(row) => *row,
        None => NO_ROW,
    }
}

/// The coins of the groups at places of a row's pool, in the order of their outpoints. No coin is given. The error is out of
/// memory.
fn coins_of(
    alloc: Global,
    request: &Request,
    maker: &PaymentMaker,
    row: &Row,
    places: &[u32],
) -> Result<Vec<Candidate>, Memory>
    requires request { maker.now.request ≡ request.now }
    requires rising { Rising (length (pool_in maker.now row.now).groups) 0 places.now }
    requires none { presets_in maker.now ≡ [] }
    ensures { IfOk result (λ v. v.items ≡ coins_at maker.now row.now places.now) }
{
    let funds = maker.funds();
    let rest = funds.rest();
    request.keeps_rules();
    let groups = Groups::new(alloc, rest, request.rate, request.long_term, request.group)?;
    let chosen = groups.members(alloc, row, places)?;
    let coins = in_order(alloc, chosen)?;
    Ok(coins)
}

/// The payment from these coins without change, by what it is to carry.
fn paid(
    maker: &PaymentMaker,
    mark: Mark,
    number: u8,
    load: &PaymentLoad,
    coins: Vec<Candidate>,
) -> Funded
    requires load { IsLoad load.now }
    requires paid { load.now.paid ≡ paid_to maker.now.request.recipients }
    requires coins { AreWithin coins.items }
    ensures { result ≡ paid_by maker.now load.now mark number coins.items }
{
    maker.keeps_rules();
    let rates = maker.funds().rates();
    let waste = waste(&rates, load, &coins, None);
    let weight = declared_weight(&rates, load, &coins, None);
    Funded {
        mark,
        row: number,
        stage: Stage::Wide,
        coins,
        change: None,
        waste,
        weight,
    }
}

/// The payment from the groups at places of the pool of the row of this number. The error is out of memory.
pub fn pay(
    alloc: Global,
    request: &Request,
    maker: &PaymentMaker,
    mark: Mark,
    number: u8,
    places: &[u32],
) -> Result<Funded, Memory>
    requires request { maker.now.request ≡ request.now }
    requires can { CanPay maker.now number places.now }
    ensures value { IfOk result (λ f. f ≡ paid_at maker.now mark number places.now) }
    ensures payment { IfOk result (IsPayment maker.now) }
    ensures selection { IfOk result (IsSelection maker.now.request) }
{
    maker.keeps_rules();
    let row = row_at(ladder(request.zero_conf, request.include_unsafe), number);
    let load = maker.load_at(&row)?;
    let coins = coins_of(alloc, request, maker, &row, places)?;
    Ok(paid(maker, mark, number, &load, coins))
}

//! Fees, dust, and the terms of payments.
//!
//! - `output SCRIPT`: whether a script is a witness program, the size of its output, and the least amount of one
//! - `vsize WEIGHT`, `fee RATE VSIZE`, `input RATE WEIGHT`, `effective RATE WEIGHT VALUE`: sizes, fees and what a coin brings
//! - `terms RATE PAID OUTPUTS COUNT COINS NAME..`: the terms of these names, of a payment with all three rates alike and a change
//!   of 50,000 to a P2WPKH script
//! - `preset RATE PAID OUTPUTS COUNT COINS EFFECTIVE WEIGHT BURDEN NAME..`: the same with presets of this effective value and
//!   weight, and what a replacement pays above its fee

ghost use Rattle.fee_rates.specs.Terms.{AreRates, IsLoad};

use fee_rates::{
    MAX_RATE, PaymentLoad, Rates, Terms, dust, effective, fee, input_fee, is_program, output_size,
    vsize,
};
use fund_base::{MAX_MONEY, Script};
use row_columns::{Answer, column, number_within, script_in};

/// The greatest weight of an input that has a fee, in weight units.
const MAX_INPUT: u64 = 40_000_000_000;

fn output(out: &mut Answer, script: &Script) {
    out.flag("program ", is_program(script.bytes()));
    out.number(" size ", output_size(script));
    out.number(" dust ", dust(script));
}

/// All three rates alike, and a change of 50,000.
fn rates(rate: &str) -> Rates
    ensures { AreRates result }
{
    let rate = number_within(rate, MAX_RATE);
    Rates {
        rate,
        long_term: rate,
        discard: rate,
        change_target: 50_000,
    }
}

/// A payment that replaces none, without presets, its change to a P2WPKH script.
fn load(columns: &[&str]) -> PaymentLoad
    ensures { IsLoad result }
{
    PaymentLoad {
        paid: number_within(column(columns, 1), MAX_MONEY),
        outputs: number_within(column(columns, 2), 1_000_000_000),
        count: number_within(column(columns, 3), 1_000_000_000),
        coins: number_within(column(columns, 4), u64::MAX),
        preset_effective: 0,
        preset_weight: 0,
        has_presets: false,
        burden: 0,
        change_size: 31,
        change_weight: 272,
        change_dust: 294,
    }
}

/// The same with presets, and what a replacement pays above its fee.
fn preset_load(columns: &[&str]) -> PaymentLoad
    ensures { IsLoad result }
{
    PaymentLoad {
        preset_effective: i128::from(number_within(column(columns, 5), MAX_MONEY)),
        preset_weight: number_within(column(columns, 6), MAX_INPUT),
        has_presets: true,
        burden: number_within(column(columns, 7), MAX_MONEY),
        ..load(columns)
    }
}

/// A term of a change or of a weight, by its name.
fn other_term(terms: &Terms, name: &str) -> u64 {
    match name {
        "base" => terms.base,
        "change_fee" => terms.change_fee,
        "change_spend" => terms.change_spend,
        "change_least" => terms.change_least,
        "plain_limit" => terms.plain_limit,
        _ => terms.change_limit,
    }
}

/// A term by its name.
fn term(terms: &Terms, name: &str) -> i128 {
    match name {
        "target" => terms.target,
        "hi" => terms.hi,
        "small" => terms.small,
        "big" => terms.big,
        _ => i128::from(other_term(terms, name)),
    }
}

/// Puts the terms of the names from a column on.
fn put_terms(out: &mut Answer, terms: &Terms, columns: &[&str], first: usize) {
    for number in first..columns.len() {
        let name = column(columns, number);
        out.word(name);
        out.signed(" ", term(terms, name));
        out.word(" ");
    }
    out.word("end");
}

/// Puts the figure of a verb of fees.
fn put_fee(out: &mut Answer, verb: &str, columns: &[&str]) {
    let rate = number_within(column(columns, 0), MAX_RATE);
    let weight = number_within(column(columns, 1), MAX_INPUT);
    match verb {
        "fee" => out.number(
            "",
            fee(rate, number_within(column(columns, 1), 20_000_000_000)),
        ),
        "input" => out.number("", input_fee(rate, weight)),
        _ => {
            let value = number_within(column(columns, 2), MAX_MONEY);
            out.signed("", i128::from(effective(value, rate, weight)));
        }
    }
}

pub(crate) fn row(out: &mut Answer, verb: &str, columns: &[&str]) {
    let first = column(columns, 0);
    match verb {
        "output" => output(out, &script_in(out.alloc, first)),
        "vsize" => out.number("", vsize(number_within(first, u64::MAX))),
        "terms" => put_terms(out, &Terms::new(&rates(first), &load(columns)), columns, 5),
        "preset" => put_terms(
            out,
            &Terms::new(&rates(first), &preset_load(columns)),
            columns,
            8,
        ),
        _ => put_fee(out, verb, columns),
    }
}

//! Whether given coins alone pay for what is asked.

ghost use Rattle.std.specs.Prelude.{◌≡◌, ◌≤ℤ◌, ◌+ℤ◌, ◌-ℤ◌, ◌&&◌, pos, neg_ℤ, int_le, unsigned_abs, IsTrue};
ghost use Rattle.fee_rates.specs.Terms.{AreRates, IsLoad};
ghost use Rattle.fund_steps.specs.Presets.{presets_of};

use fee_rates::{PaymentLoad, Rates, Terms};
use fund_base::{MAX_MONEY, MAX_WEIGHT};

/// Whether given coins pay, and how.
#[derive(Clone, Copy, PartialEq, Eq)]
pub enum Presets {
    /// They don't pay.
    Short,
    /// They pay without change.
    Plain,
    /// They pay with this change, in satoshi.
    Change(u64),
}

/// Whether coins bring what is needed and less than the least change takes.
fn are_within(terms: &Terms) -> bool
    ensures { result ≡ (int_le terms.now.target (pos 0) && int_le (pos 0) terms.now.hi) }
{
    terms.target <= 0 && terms.hi >= 0
}

/// Whether coins bring what the least change takes.
fn bring_change(terms: &Terms) -> bool
    ensures value { result ≡ int_le terms.now.small (pos 0) }
    ensures meaning { IsTrue result → terms.now.small ≤ℤ pos 0 }
{
    terms.small <= 0
}

/// What is left for the change, in satoshi.
fn change_left(terms: &Terms) -> u64
    requires low { neg_ℤ (pos MAX_MONEY) ≤ℤ terms.now.target }
    requires left { (terms.now.target +ℤ pos terms.now.change_fee) ≤ℤ pos 0 }
    ensures { result ≡ unsigned_abs ((pos 0 -ℤ terms.now.target) -ℤ pos terms.now.change_fee) }
{
    let left = 0 - terms.target - i128::from(terms.change_fee);
    left as u64
}

/// Whether the coins of a load pay, and with which change: without change where they bring what is needed and
/// less than the least change takes, otherwise with change where they bring that much; in either case if the
/// payment weighs at most 400,000 weight units.
#[tactic(auto, unfolding(crate::specs::Presets::presets_of))]
pub fn presets_alone(rates: &Rates, load: &PaymentLoad) -> Presets
    requires rates { AreRates rates.now }
    requires load { IsLoad load.now }
    requires worth { load.now.preset_effective ≤ℤ pos MAX_MONEY }
    ensures { result ≡ presets_of rates.now load.now }
{
    let terms = Terms::new(rates, load);
    let weight = terms.base + load.preset_weight;
    if are_within(&terms) && weight <= MAX_WEIGHT {
        Presets::Plain
    } else if bring_change(&terms) && weight + 4 * load.change_size <= MAX_WEIGHT {
        Presets::Change(change_left(&terms))
    } else {
        Presets::Short
    }
}

//! What is reported of a payment.

ghost use Rattle.std.specs.Prelude.{◌≡◌};
ghost use Rattle.command_pay.specs.Paid.{change_in, coins_in, fee_in, mark_in, psbt_in, tries_in, vsize_in, weight_in};

use amount_reports::SharedReport;
use closing_log::Mark;
use fund_report::{FundedReport, InLine};

/// What is reported of a payment. Amounts are in satoshi.
#[derive(Drop)]
pub enum PaidReport {
    /// By `fund` or `wide`: each recipient gets what is asked for, and the fee comes on top.
    Whole(FundedReport),
    /// By `share`: each recipient gets what is asked for less its share of the fee.
    Shared(SharedReport),
}

impl PaidReport {
    /// What its choice claims. `share` reports a payment where its searches came to their end.
    pub fn mark(&self) -> Mark
        ensures { result ≡ mark_in self.now }
    {
        match self {
            PaidReport::Whole(report) => report.mark,
            PaidReport::Shared(_) => Mark::Exhausted,
        }
    }

    /// All tries.
    pub fn tries(&self) -> u64
        ensures { result ≡ tries_in self.now }
    {
        match self {
            PaidReport::Whole(report) => report.tries,
            PaidReport::Shared(report) => report.tries,
        }
    }

    /// The coins that it spends, in the order of its inputs.
    pub fn coins(&self) -> &[InLine]
        ensures { result.now ≡ coins_in self.now }
    {
        match self {
            PaidReport::Whole(report) => &report.coins,
            PaidReport::Shared(report) => &report.coins,
        }
    }

    /// Its declared weight, in weight units.
    pub fn weight(&self) -> u64
        ensures { result ≡ weight_in self.now }
    {
        match self {
            PaidReport::Whole(report) => report.weight,
            PaidReport::Shared(report) => report.weight,
        }
    }

    /// Its size in virtual bytes, a quarter of the weight rounded up.
    pub fn vsize(&self) -> u64
        ensures { result ≡ vsize_in self.now }
    {
        match self {
            PaidReport::Whole(report) => report.vsize,
            PaidReport::Shared(report) => report.vsize,
        }
    }

    /// Its fee.
    pub fn fee(&self) -> u64
        ensures { result ≡ fee_in self.now }
    {
        match self {
            PaidReport::Whole(report) => report.fee,
            PaidReport::Shared(report) => report.fee,
        }
    }

    /// Its change, if there is any.
    pub fn change(&self) -> Option<u64>
        ensures { result ≡ change_in self.now }
    {
        match self {
            PaidReport::Whole(report) => report.change,
            PaidReport::Shared(report) => report.change,
        }
    }

    /// Its PSBT as text.
    pub fn psbt(&self) -> &[u8]
        ensures { result.now ≡ psbt_in self.now }
    {
        match self {
            PaidReport::Whole(report) => &report.text,
            PaidReport::Shared(report) => &report.psbt,
        }
    }
}

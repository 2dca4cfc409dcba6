//! What is reported of a run.

use closing_log::{Mark, Stage};
use fund_base::OutPoint;
use std::marker::Model;

/// A coin that a payment spends.
#[derive(Clone, Copy, PartialEq, Eq)]
pub struct InLine {
    /// The output that is spent.
    pub coin: OutPoint,
    /// Its value in satoshi.
    pub value: u64,
}

/// A payment that was found.
#[derive(Drop)]
pub struct FundedReport {
    /// What its coins promise.
    pub mark: Mark,
    /// The row of the ladder in which they were chosen; 0 where they weren't chosen.
    pub row: u8,
    /// The stage at which they were chosen.
    pub stage: Stage,
    /// The tries of the whole job.
    pub tries: u64,
    /// Its inputs, in order.
    pub coins: Vec<InLine>,
    /// Its declared weight, in weight units.
    pub weight: u64,
    /// Its size in virtual bytes, a quarter of the weight rounded up.
    pub vsize: u64,
    /// Its fee in satoshi.
    pub fee: u64,
    /// Its waste in satoshi; below zero where spending later would cost more.
    pub waste: i128,
    /// The change in satoshi, or none.
    pub change: Option<u64>,
    /// The PSBT as text.
    pub text: Vec<u8>,
}

impl Model for FundedReport {
    ghost use Rattle.fund_report.specs.PlainFunded.{PlainFunded};

    ghost Value = { PlainFunded };

    ghost view = { λ f. record { mark = f.mark; row = f.row; stage = f.stage; tries = f.tries; coins = f.coins.items; weight = f.weight; vsize = f.vsize; fee = f.fee; waste = f.waste; change = f.change; text = f.text.items } };
}

/// What a run came to.
#[derive(Drop)]
pub enum Report {
    /// A payment.
    Funded(FundedReport),
    /// There is none. The tries are those of the whole job.
    NoSelection { tries: u64 },
    /// The tries were used up before a search was done. The row and the stage are that search's.
    Unfinished { tries: u64, row: u8, stage: Stage },
}

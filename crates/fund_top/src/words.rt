//! The words of the command line.

ghost use Rattle.std.specs.Prelude.{◌≡◌, IfSome, option_map};
ghost use Rattle.command_end.specs.Names.{plain_sources};
ghost use Rattle.command_inputs.specs.Names.{plain_payment};
ghost use Rattle.fund_top.specs.Command.{plain};
ghost use Rattle.fund_top.specs.Words.{IsInRange, are_judged, are_named, check_of, command_of, desk_of, job_command, listing_of, names_stand, of_five_names, of_four_names, of_three_names, payment_of, settle_of, share_of, sweep_of, wide_of, work_of};

use command_end::Sources;
use command_inputs::Payment;
use command_settle::SettleNames;
use fund_base::read_decimal;
use fund_outside::is_job_name;
use further_commands::FurtherCommand;

/// What is to be done.
#[derive(Clone, Copy)]
pub enum Command<'a> {
    /// To list the pending payments and the coins that may be spent.
    Coins(Sources<'a>),
    /// To fund a payment, and to keep the run as this job where it isn't finished.
    Fund(Sources<'a>, Payment<'a>, Option<&'a str>),
    /// To go on with a kept job.
    Resume(Sources<'a>, Payment<'a>, &'a str),
    /// To check the report of a payment, which is the file of this name, with its log.
    Check(Sources<'a>, Payment<'a>, &'a str),
    /// To fund a payment from the workload of a number and a count of coins, and to sum it up.
    Work(u64, u32),
    /// To run the script, which is the file of this name, at the desk of a wallet.
    Desk(Sources<'a>, &'a str),
    /// To do one of the commands beside these.
    Further(FurtherCommand<'a>),
}

/// The greatest number of a workload.
const MOST_NUMBER: u64 = 9_223_372_036_854_775_807;

/// The greatest count of coins of a workload.
const MOST_COINS: u64 = 10_000;

/// Whether no name is empty.
fn are_named(sources: &Sources) -> bool
    ensures { result ≡ are_named (plain_sources sources.now) }
{
    !sources.wallet.is_empty() && !sources.blocks.is_empty()
}

/// Whether no name is empty, and the log is none of the files that are read.
fn names_stand(sources: &Sources, payment: &Payment) -> bool
    ensures { result ≡ names_stand (plain_sources sources.now) (plain_payment payment.now) }
{
    let named = !payment.request.is_empty() && !payment.log.is_empty();
    let apart = payment.log != sources.wallet
        && payment.log != sources.blocks
        && payment.log != payment.request;
    are_named(sources) && (named && apart)
}

/// The command of these names and this verb, which is `fund` or `resume`, with a job.
fn job_command<'a>(
    sources: Sources<'a>,
    payment: Payment<'a>,
    verb: &str,
    job: &'a str,
) -> Option<Command<'a>>
    ensures command { option_map plain result ≡ job_command (plain_sources sources.entry) (plain_payment payment.entry) verb.now job.now }
    ensures range { IfSome result (λ c. IsInRange (plain c)) }
{
    let stands = names_stand(&sources, &payment) && is_job_name(job.as_bytes());
    if verb == "fund" {
        if stands {
            Some(Command::Fund(sources, payment, Some(job)))
        } else {
            None
        }
    } else if verb == "resume" && stands {
        Some(Command::Resume(sources, payment, job))
    } else {
        None
    }
}

/// Whether no name is empty, of a payment whose report is judged.
fn are_judged(sources: &Sources, payment: &Payment, report: &str) -> bool
    ensures { result ≡ are_judged (plain_sources sources.now) (plain_payment payment.now) report.now }
{
    are_named(sources)
        && (!payment.request.is_empty() && (!report.is_empty() && !payment.log.is_empty()))
}

/// The workload that two words ask for: a number of 0 to 9,223,372,036,854,775,807 and a count of 1 to 10,000, each as its
/// decimal digits without a leading zero.
fn load_in<'a>(number: &str, count: &str) -> Option<Command<'a>>
    ensures command { option_map plain result ≡ work_of number.now count.now }
    ensures range { IfSome result (λ c. IsInRange (plain c)) }
{
    let number = read_decimal(number.as_bytes(), MOST_NUMBER)?;
    let count = read_decimal(count.as_bytes(), MOST_COINS)?;
    if count == 0 {
        return None;
    }
    Some(Command::Work(number, count as u32))
}

/// The command of these names, where they stand for the two files of `coins`.
fn listing_in<'a>(wallet: &'a str, blocks: &'a str) -> Option<Command<'a>>
    ensures command { option_map plain result ≡ listing_of wallet.now blocks.now }
    ensures range { IfSome result (λ c. IsInRange (plain c)) }
{
    let sources = Sources { wallet, blocks };
    if are_named(&sources) {
        Some(Command::Coins(sources))
    } else {
        None
    }
}

/// The payment from the files of these names, where they stand.
fn payment_in<'a>(
    wallet: &'a str,
    blocks: &'a str,
    request: &'a str,
    log: &'a str,
) -> Option<Command<'a>>
    ensures command { option_map plain result ≡ payment_of wallet.now blocks.now request.now log.now }
    ensures range { IfSome result (λ c. IsInRange (plain c)) }
{
    let sources = Sources { wallet, blocks };
    let payment = Payment { request, log };
    if names_stand(&sources, &payment) {
        Some(Command::Fund(sources, payment, None))
    } else {
        None
    }
}

/// The wide search for a payment from the files of these names, where they stand.
fn wide_in<'a>(
    wallet: &'a str,
    blocks: &'a str,
    request: &'a str,
    log: &'a str,
) -> Option<Command<'a>>
    ensures command { option_map plain result ≡ wide_of wallet.now blocks.now request.now log.now }
    ensures range { IfSome result (λ c. IsInRange (plain c)) }
{
    let sources = Sources { wallet, blocks };
    let payment = Payment { request, log };
    if names_stand(&sources, &payment) {
        Some(Command::Further(FurtherCommand::Wide(sources, payment)))
    } else {
        None
    }
}

/// The payment whose recipients bear the fee from the files of these names, where they stand.
fn share_in<'a>(
    wallet: &'a str,
    blocks: &'a str,
    request: &'a str,
    log: &'a str,
) -> Option<Command<'a>>
    ensures command { option_map plain result ≡ share_of wallet.now blocks.now request.now log.now }
    ensures range { IfSome result (λ c. IsInRange (plain c)) }
{
    let sources = Sources { wallet, blocks };
    let payment = Payment { request, log };
    if names_stand(&sources, &payment) {
        Some(Command::Further(FurtherCommand::Share(sources, payment)))
    } else {
        None
    }
}

/// The sweep by the files of these names, where none is empty.
fn sweep_in<'a>(wallet: &'a str, blocks: &'a str, request: &'a str) -> Option<Command<'a>>
    ensures command { option_map plain result ≡ sweep_of wallet.now blocks.now request.now }
    ensures range { IfSome result (λ c. IsInRange (plain c)) }
{
    let sources = Sources { wallet, blocks };
    if are_named(&sources) && !request.is_empty() {
        Some(Command::Further(FurtherCommand::Sweep(sources, request)))
    } else {
        None
    }
}

/// The settling of a payment by the files of these names, where none is empty.
fn settle_in<'a>(
    wallet: &'a str,
    request: &'a str,
    report: &'a str,
    tx: &'a str,
) -> Option<Command<'a>>
    ensures command { option_map plain result ≡ settle_of wallet.now request.now report.now tx.now }
    ensures range { IfSome result (λ c. IsInRange (plain c)) }
{
    let named = !wallet.is_empty() && !request.is_empty();
    if named && (!report.is_empty() && !tx.is_empty()) {
        let names = SettleNames {
            wallet,
            request,
            report,
            tx,
        };
        Some(Command::Further(FurtherCommand::Settle(names)))
    } else {
        None
    }
}

/// The check of the files of these names, where none is empty.
fn check_in<'a>(
    wallet: &'a str,
    blocks: &'a str,
    request: &'a str,
    report: &'a str,
    log: &'a str,
) -> Option<Command<'a>>
    ensures command { option_map plain result ≡ check_of wallet.now blocks.now request.now report.now log.now }
    ensures range { IfSome result (λ c. IsInRange (plain c)) }
{
    let sources = Sources { wallet, blocks };
    let payment = Payment { request, log };
    if are_judged(&sources, &payment, report) {
        Some(Command::Check(sources, payment, report))
    } else {
        None
    }
}

/// The desk of the files of these names, where none is empty.
fn desk_in<'a>(wallet: &'a str, blocks: &'a str, script: &'a str) -> Option<Command<'a>>
    ensures command { option_map plain result ≡ desk_of wallet.now blocks.now script.now }
    ensures range { IfSome result (λ c. IsInRange (plain c)) }
{
    let sources = Sources { wallet, blocks };
    if are_named(&sources) && !script.is_empty() {
        Some(Command::Desk(sources, script))
    } else {
        None
    }
}

/// The command of three names, by its verb.
fn of_three_names<'a>(
    verb: &str,
    wallet: &'a str,
    blocks: &'a str,
    third: &'a str,
) -> Option<Command<'a>>
    ensures command { option_map plain result ≡ of_three_names verb.now wallet.now blocks.now third.now }
    ensures range { IfSome result (λ c. IsInRange (plain c)) }
{
    if verb == "desk" {
        desk_in(wallet, blocks, third)
    } else if verb == "sweep" {
        sweep_in(wallet, blocks, third)
    } else {
        None
    }
}

/// The command of four names, by its verb.
fn of_four_names<'a>(
    verb: &str,
    first: &'a str,
    second: &'a str,
    third: &'a str,
    fourth: &'a str,
) -> Option<Command<'a>>
    ensures command { option_map plain result ≡ of_four_names verb.now first.now second.now third.now fourth.now }
    ensures range { IfSome result (λ c. IsInRange (plain c)) }
{
    if verb == "fund" {
        payment_in(first, second, third, fourth)
    } else if verb == "wide" {
        wide_in(first, second, third, fourth)
    } else if verb == "share" {
        share_in(first, second, third, fourth)
    } else if verb == "settle" {
        settle_in(first, second, third, fourth)
    } else {
        None
    }
}

/// The command of five names, by its verb. The last one is that of a log or of a job.
fn of_five_names<'a>(
    verb: &str,
    wallet: &'a str,
    blocks: &'a str,
    request: &'a str,
    fourth: &'a str,
    fifth: &'a str,
) -> Option<Command<'a>>
    ensures command { option_map plain result ≡ of_five_names verb.now wallet.now blocks.now request.now fourth.now fifth.now }
    ensures range { IfSome result (λ c. IsInRange (plain c)) }
{
    if verb == "check" {
        check_in(wallet, blocks, request, fourth, fifth)
    } else {
        let sources = Sources { wallet, blocks };
        let payment = Payment {
            request,
            log: fourth,
        };
        job_command(sources, payment, verb, fifth)
    }
}

/// The command that the words are, which is `coins WALLET BLOCKS`, `work NUMBER COUNT`, `desk WALLET BLOCKS SCRIPT`, `fund
/// WALLET BLOCKS REQUEST LOG`, with or without a `JOB`, `resume WALLET BLOCKS REQUEST LOG JOB`, `check WALLET BLOCKS REQUEST
/// REPORT LOG`, `wide WALLET BLOCKS REQUEST LOG`, `share WALLET BLOCKS REQUEST LOG`, `sweep WALLET BLOCKS REQUEST` or `settle
/// WALLET REQUEST REPORT TX`. A `JOB` is 1 to 32 digits, letters and hyphens of ASCII.
pub fn parse(words: &[String]) -> Option<Command<'_>>
    ensures command { option_map plain result ≡ command_of words.now }
    ensures range { IfSome result (λ c. IsInRange (plain c)) }
{
    match words {
        [verb, first, second] => {
            if verb.as_str() == "coins" {
                listing_in(first.as_str(), second.as_str())
            } else if verb.as_str() == "work" {
                load_in(first.as_str(), second.as_str())
            } else {
                None
            }
        }
        [verb, wallet, blocks, third] => of_three_names(
            verb.as_str(),
            wallet.as_str(),
            blocks.as_str(),
            third.as_str(),
        ),
        [verb, first, second, third, fourth] => of_four_names(
            verb.as_str(),
            first.as_str(),
            second.as_str(),
            third.as_str(),
            fourth.as_str(),
        ),
        [verb, wallet, blocks, request, fourth, fifth] => of_five_names(
            verb.as_str(),
            wallet.as_str(),
            blocks.as_str(),
            request.as_str(),
            fourth.as_str(),
            fifth.as_str(),
        ),
        _ => None,
    }
}

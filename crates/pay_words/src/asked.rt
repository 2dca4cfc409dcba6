//! The whole of what the words ask for.

ghost use Rattle.std.specs.Prelude.{◌≡◌, ◌==◌, Err, IfOk, IsOk, Ok, if◌then◌else◌, length, map, option_map, string_bytes};
ghost use Rattle.fund_base.specs.Parsing.{YieldsAll};
ghost use Rattle.pay_words.specs.Asked.{alike_at, asked_by, asked_in, each_name, is_given, is_given_by_any, name_behind, name_or_none, names_in, needed_name, plain_asked, plain_names, same_name, some_paid, unless_same};
ghost use Rattle.pay_words.specs.Given.{BeginsWithFlag};
ghost use Rattle.pay_words.specs.Payments.{plain_payment};
ghost use Rattle.pay_words.specs.declared.fault.WordFault.TheVariants.{Memory as OutOfMemory, Missing};
ghost use Rattle.pay_words.specs.declared.flag.Flag.TheVariants.{To, Wallet};
ghost use Rattle.pay_words.specs.Values.{text_of};
ghost use Rattle.request_making.specs.Asked.{asked_of};
ghost use Rattle.request_making.specs.Written.{request_bytes};
ghost use Rattle.request_text.specs.RequestText.{request_of};

use crate::fault::WordFault;
use crate::flag::Flag;
use crate::given::{Given, flags_in, place_of};
use crate::payments::{coins_given, payments_given};
use crate::settings::{max_fee, settings_given};
use crate::values::{has, text_of, word_at};
use crate::way::{Way, way_of};
use fund_base::Memory;
use request_making::{Payment, Settings, request_text};
use std::alloc::Global;

/// The names of files.
#[derive(Drop)]
pub struct Names {
    /// The wallet file.
    pub wallet: String,
    /// The block file.
    pub blocks: String,
    /// The file for the PSBT, if one is asked for.
    pub psbt: Option<String>,
    /// The file for the log, if one is asked for.
    pub log: Option<String>,
    /// The file for the report, if one is asked for.
    pub report: Option<String>,
    /// The file for the request, if one is asked for.
    pub request: Option<String>,
}

/// What the words of `pay` ask for.
#[derive(Drop)]
pub struct Asked {
    /// The files that are read and written.
    pub names: Names,
    /// Who is paid, in the order of the words: at least one.
    pub payments: Vec<Payment>,
    /// The settings of the request.
    pub settings: Settings,
    /// The coins that are spent in any case, by their words.
    pub coins: Vec<String>,
    /// The greatest fee that is taken, in satoshi, if it is given.
    pub max_fee: Option<u64>,
    /// By which command the payment is made.
    pub way: Way,
    /// Whether the request file is shown.
    pub show_request: bool,
    /// Whether what is shown is JSON.
    pub json: bool,
    /// Whether it is told how far the reading of a long file is.
    pub progress: bool,
}

impl Asked {
    /// The request file of what is asked. It is read as exactly that, or refused for the first rule of requests that it
    /// breaks. It is one line of JSON, with each member in the order of their names by bytes. It refuses only when out of
    /// memory.
    pub fn request(&self, alloc: Global) -> Result<String, Memory>
        ensures asks { IfOk result (λ text. request_of (string_bytes text) ≡ asked_of self.now.payments.items self.now.coins.items self.now.settings) }
        ensures bytes { IfOk result (λ text. string_bytes text ≡ request_bytes self.now.payments.items self.now.coins.items self.now.settings) }
    {
        request_text(alloc, &self.payments, &self.coins, &self.settings)
    }
}

/// The name of a file behind a flag, which may not be empty. It runs out of memory only where there is a name.
fn name_behind(alloc: Global, flag: Flag, text: &str) -> Result<String, WordFault>
    ensures gives { YieldsAll OutOfMemory string_bytes result (name_behind flag text.now) }
    ensures short { result ≡ Err OutOfMemory → IsOk (name_behind flag text.now) }
{
    if text.is_empty() {
        return Err(WordFault::EmptyName(flag));
    }
    let name = String::from_str(alloc, text)?;
    Ok(name)
}

/// The name behind a flag that has to be given. It runs out of memory only where there is a name.
fn needed_name(
    alloc: Global,
    words: &[String],
    given: &[Given],
    flag: Flag,
) -> Result<String, WordFault>
    ensures gives { YieldsAll OutOfMemory string_bytes result (needed_name flag words.now given.now) }
    ensures short { result ≡ Err OutOfMemory → IsOk (needed_name flag words.now given.now) }
{
    match place_of(given, flag) {
        Some(place) => name_behind(alloc, flag, word_at(words, place)),
        None => Err(WordFault::Missing(flag)),
    }
}

/// The name behind a flag that may be left out. It runs out of memory only where there is a name.
fn name_or_none(
    alloc: Global,
    words: &[String],
    given: &[Given],
    flag: Flag,
) -> Result<Option<String>, WordFault>
    ensures gives { YieldsAll OutOfMemory (option_map string_bytes) result (name_or_none flag words.now given.now) }
    ensures short { result ≡ Err OutOfMemory → IsOk (name_or_none flag words.now given.now) }
{
    match place_of(given, flag) {
        Some(place) => {
            let name = name_behind(alloc, flag, word_at(words, place))?;
            Ok(Some(name))
        }
        None => Ok(None),
    }
}

/// The name of each file by itself. It runs out of memory only where there is a name of the wallet.
#[tactic(auto, using(crate::proofs::FirstWord::ok_is))]
fn each_name(alloc: Global, words: &[String], given: &[Given]) -> Result<Names, WordFault>
    ensures gives { YieldsAll OutOfMemory plain_names result (each_name words.now given.now) }
    ensures short { result ≡ Err OutOfMemory → IsOk (needed_name Wallet words.now given.now) }
{
    let wallet = needed_name(alloc, words, given, Flag::Wallet)?;
    let blocks = needed_name(alloc, words, given, Flag::Blocks)?;
    let psbt = name_or_none(alloc, words, given, Flag::Psbt)?;
    let log = name_or_none(alloc, words, given, Flag::Log)?;
    let report = name_or_none(alloc, words, given, Flag::Report)?;
    let request = name_or_none(alloc, words, given, Flag::Request)?;
    Ok(Names {
        wallet,
        blocks,
        psbt,
        log,
        report,
        request,
    })
}

/// Whether this name stands behind the flag.
fn is_given(words: &[String], given: &[Given], flag: Flag, name: &str) -> bool
    ensures { result ≡ is_given name.now (text_of words.now given.now flag) }
{
    match text_of(words, given, flag) {
        Some(text) => name == text,
        None => false,
    }
}

/// Whether this name stands behind one of these flags.
fn is_given_by_any(words: &[String], given: &[Given], flags: &[Flag], name: &str) -> bool
    ensures { result ≡ is_given_by_any words.now given.now name.now flags.now }
{
    for flag in flags {
        if is_given(words, given, *flag, name) {
            return true;
        }
    }
    false
}

/// The place of the name behind a flag, where the name behind one of the others is the same.
fn alike_at(words: &[String], given: &[Given], flag: Flag, others: &[Flag]) -> Option<usize>
    ensures { result ≡ alike_at words.now given.now flag others.now }
{
    match place_of(given, flag) {
        Some(place) => {
            if is_given_by_any(words, given, others, word_at(words, place)) {
                Some(place)
            } else {
                None
            }
        }
        None => None,
    }
}

/// The place of the first name, in the order of [`Names`], that is that of a file before it too.
fn same_name(words: &[String], given: &[Given]) -> Option<usize>
    ensures { result ≡ same_name words.now given.now }
{
    let before_report = &[Flag::Wallet, Flag::Blocks, Flag::Psbt, Flag::Log];
    let before_request = &[
        Flag::Wallet,
        Flag::Blocks,
        Flag::Psbt,
        Flag::Log,
        Flag::Report,
    ];
    let blocks = alike_at(words, given, Flag::Blocks, &[Flag::Wallet]);
    let psbt = alike_at(words, given, Flag::Psbt, &[Flag::Wallet, Flag::Blocks]);
    let log = alike_at(
        words,
        given,
        Flag::Log,
        &[Flag::Wallet, Flag::Blocks, Flag::Psbt],
    );
    let report = alike_at(words, given, Flag::Report, before_report);
    let request = alike_at(words, given, Flag::Request, before_request);
    blocks.or(psbt.or(log.or(report.or(request))))
}

/// The names, unless one of them stands twice, at this place. It never runs out of memory.
fn unless_same(place: Option<usize>, names: Names) -> Result<Names, WordFault>
    ensures { result ≡ unless_same place names }
{
    match place {
        None => Ok(names),
        Some(place) => Err(WordFault::SameName(place)),
    }
}

/// The names that the words give, no two of them alike. It runs out of memory only where there is a name of the wallet.
#[tactic(auto, using(crate::proofs::FirstWord::each_wallet))]
fn names_in(alloc: Global, words: &[String], given: &[Given]) -> Result<Names, WordFault>
    ensures gives { YieldsAll OutOfMemory plain_names result (names_in words.now given.now) }
    ensures short { result ≡ Err OutOfMemory → IsOk (needed_name Wallet words.now given.now) }
{
    let names = each_name(alloc, words, given)?;
    unless_same(same_name(words, given), names)
}

/// That somebody is paid. It never runs out of memory.
fn check_paid(payments: &[Payment]) -> Result<(), WordFault>
    ensures { result ≡ (if length payments.now == 0 then Err (Missing To) else Ok tt) }
{
    if payments.is_empty() {
        return Err(WordFault::Missing(Flag::To));
    }
    Ok(())
}

/// The payments that the words give, at least one.
fn some_paid(alloc: Global, words: &[String], given: &[Given]) -> Result<Vec<Payment>, WordFault>
    ensures { YieldsAll OutOfMemory (λ v. map plain_payment v.items) result (some_paid words.now given.now) }
{
    let payments = payments_given(alloc, words, given)?;
    check_paid(&payments)?;
    Ok(payments)
}

/// What the flags ask for, or the first fault of what they say. It runs out of memory only where there is a name of the wallet.
#[tactic(auto, unfolding(crate::specs::Asked::asked_by), using(crate::proofs::FirstWord::names_wallet))]
fn asked_by(
    alloc: Global,
    words: &[String],
    given: &[Given],
    drawn: [u8; 32],
) -> Result<Asked, WordFault>
    ensures gives { YieldsAll OutOfMemory plain_asked result (asked_by drawn words.now given.now) }
    ensures short { result ≡ Err OutOfMemory → IsOk (needed_name Wallet words.now given.now) }
{
    let names = names_in(alloc, words, given)?;
    let payments = some_paid(alloc, words, given)?;
    let settings = settings_given(words, given, drawn)?;
    let max_fee = max_fee(words, given)?;
    let way = way_of(given, settings.method)?;
    let coins = coins_given(alloc, words, given)?;
    Ok(Asked {
        names,
        payments,
        settings,
        coins,
        max_fee,
        way,
        show_request: has(given, Flag::ShowRequest),
        json: has(given, Flag::Json),
        progress: has(given, Flag::Progress),
    })
}

/// What the words behind `pay` ask for, or their first fault. The seed is the drawn one where none is given.
#[tactic(auto, unfolding(crate::specs::Asked::asked_in), using(crate::proofs::FirstWord::wallet_flag))]
pub fn read_pay(alloc: Global, words: &[String], drawn: [u8; 32]) -> Result<Asked, WordFault>
    ensures gives { YieldsAll OutOfMemory plain_asked result (asked_in drawn words.now) }
    // Words of which the first is that of no flag, and no words at all, are never told as out of memory.
    ensures short { result ≡ Err OutOfMemory → BeginsWithFlag words.now }
{
    let given = flags_in(alloc, words)?;
    let asked = asked_by(alloc, words, given.as_slice(), drawn)?;
    Ok(asked)
}

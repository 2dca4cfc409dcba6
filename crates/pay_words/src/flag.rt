//! The flags of `ninelace pay`.

ghost use Rattle.std.specs.Prelude.{◌≡◌, bytes_eq, find};
ghost use Rattle.pay_words.specs.Flags.{flag_of, flag_word, is_same, may_repeat, takes_value};

/// A flag. All but the last eleven take a value: the word behind them.
#[derive(Clone, Copy)]
pub enum Flag {
    /// The name of the wallet file.
    Wallet,
    /// The name of the block file.
    Blocks,
    /// An address, `=`, and the amount that is paid to it. It may be given more than once.
    To,
    /// A script in hex, `=`, and the amount that is paid to it. It may be given more than once.
    ToScript,
    /// The name of a file that lists payments.
    PayFile,
    /// The name of a file of keys, which are told in the PSBT.
    Keys,
    /// The fee rate.
    FeeRate,
    /// The rate at which coins are thought to be spent later.
    LongTerm,
    /// The rate at which change would be spent.
    Discard,
    /// The change that is aimed at.
    ChangeTarget,
    /// How coins are chosen.
    Method,
    /// A coin that is spent in any case. It may be given more than once.
    Coin,
    /// How many tries the searches have.
    Tries,
    /// What draws at random are made from, in hex.
    Seed,
    /// The payment that is replaced.
    Bump,
    /// The lock time.
    LockTime,
    /// The greatest fee that is taken.
    MaxFee,
    /// The name of a file for the PSBT.
    Psbt,
    /// The name of a file for the log.
    Log,
    /// The name of a file for the report.
    Report,
    /// The name of a file for the request.
    Request,
    /// The coins of one script are spent together.
    Group,
    /// Of all choices without change the one that wastes least is taken, with coins that aren't needed.
    Consolidate,
    /// The recipients bear the fee.
    FeeFromAmount,
    /// Nothing is paid where the tries are used up before the search is done.
    Stop,
    /// The payment doesn't signal that it may be replaced.
    NoReplace,
    /// The wallet's own pending outputs may be spent.
    ZeroConf,
    /// Pending outputs that a stranger may take back may be spent.
    Unsafe,
    /// A fee rate below 1 satoshi per virtual byte is taken.
    AllowLowRate,
    /// The request file is shown.
    ShowRequest,
    /// What is shown is JSON.
    Json,
    /// How far the reading of a long file is, is told.
    Progress,
}

/// All flags.
const FLAGS: [Flag; 32] = [
    Flag::Wallet,
    Flag::Blocks,
    Flag::To,
    Flag::ToScript,
    Flag::PayFile,
    Flag::Keys,
    Flag::FeeRate,
    Flag::LongTerm,
    Flag::Discard,
    Flag::ChangeTarget,
    Flag::Method,
    Flag::Coin,
    Flag::Tries,
    Flag::Seed,
    Flag::Bump,
    Flag::LockTime,
    Flag::MaxFee,
    Flag::Psbt,
    Flag::Log,
    Flag::Report,
    Flag::Request,
    Flag::Group,
    Flag::Consolidate,
    Flag::FeeFromAmount,
    Flag::Stop,
    Flag::NoReplace,
    Flag::ZeroConf,
    Flag::Unsafe,
    Flag::AllowLowRate,
    Flag::ShowRequest,
    Flag::Json,
    Flag::Progress,
];

/// The word of a flag.
#[tactic(auto, unfolding(crate::specs::Flags::flag_word))]
pub fn flag_word(flag: Flag) -> &'static str
    ensures { result.now ≡ flag_word flag }
{
    match flag {
        Flag::Wallet => "--wallet",
        Flag::Blocks => "--blocks",
        Flag::To => "--to",
        Flag::ToScript => "--to-script",
        Flag::PayFile => "--pay-file",
        Flag::Keys => "--keys",
        Flag::FeeRate => "--fee-rate",
        Flag::LongTerm => "--long-term",
        Flag::Discard => "--discard",
        Flag::ChangeTarget => "--change-target",
        Flag::Method => "--method",
        Flag::Coin => "--coin",
        Flag::Tries => "--tries",
        Flag::Seed => "--seed",
        Flag::Bump => "--bump",
        Flag::LockTime => "--locktime",
        Flag::MaxFee => "--max-fee",
        Flag::Psbt => "--psbt",
        Flag::Log => "--log",
        Flag::Report => "--report",
        Flag::Request => "--request",
        Flag::Group => "--group",
        Flag::Consolidate => "--consolidate",
        Flag::FeeFromAmount => "--fee-from-amount",
        Flag::Stop => "--stop",
        Flag::NoReplace => "--no-replace",
        Flag::ZeroConf => "--zero-conf",
        Flag::Unsafe => "--unsafe",
        Flag::AllowLowRate => "--allow-low-rate",
        Flag::ShowRequest => "--show-request",
        Flag::Json => "--json",
        Flag::Progress => "--progress",
    }
}

/// Whether two flags are one, by their words.
pub fn is_same(a: Flag, b: Flag) -> bool
    ensures { result ≡ is_same a b }
{
    flag_word(a) == flag_word(b)
}

/// Whether a value stands behind the flag.
pub fn takes_value(flag: Flag) -> bool
    ensures { result ≡ takes_value flag }
{
    match flag {
        Flag::Group
        | Flag::Consolidate
        | Flag::FeeFromAmount
        | Flag::Stop
        | Flag::NoReplace
        | Flag::ZeroConf
        | Flag::Unsafe
        | Flag::AllowLowRate
        | Flag::ShowRequest
        | Flag::Json
        | Flag::Progress => false,
        _ => true,
    }
}

/// Whether the flag may be given more than once.
pub fn may_repeat(flag: Flag) -> bool
    ensures { result ≡ may_repeat flag }
{
    matches!(flag, Flag::To | Flag::ToScript | Flag::Coin)
}

/// The first of these flags that has this word.
fn flag_in(flags: &[Flag], word: &str) -> Option<Flag>
    ensures { result ≡ find (λ f. bytes_eq (flag_word f) word.now) flags.now }
{
    for flag in flags {
        if flag_word(*flag) == word {
            return Some(*flag);
        }
    }
    None
}

/// The flag of this word.
#[tactic(auto, unfolding(crate::specs::Flags::flag_of))]
pub fn flag_of(word: &str) -> Option<Flag>
    ensures { result ≡ flag_of word.now }
{
    flag_in(&FLAGS, word)
}

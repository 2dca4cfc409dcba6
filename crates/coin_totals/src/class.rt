//! The classes of coins.

ghost use Rattle.std.specs.Prelude.{◌≡◌, ◌==◌};
ghost use Rattle.coin_totals.specs.Classes.{class_by, number_of, same_class, word_of};

/// How a coin of a wallet stands. Each is in one class.
#[derive(Clone, Copy)]
pub enum CoinClass {
    /// It may be spent, and its transaction is in a block.
    Confirmed,
    /// It may be spent; its transaction waits for a block, and no stranger can take it back.
    Waiting,
    /// It may be spent; its transaction waits for a block, and a stranger may take it back.
    Unsafe,
    /// It is none of those that are spent in a block, and a payment that waits spends it.
    Claimed,
    /// It is none of these, and the wallet has locked it.
    Locked,
    /// It is none of these, and is a miner's reward that is less than 101 blocks deep.
    Immature,
    /// It is spent in a block, or its transaction is not in a block and doesn't wait for one any more.
    Gone,
}

/// The class of a coin, by what is known of it: whether its transaction is in a block or waits for one; whether a transaction in a block
/// spends it, or one that waits; whether it is locked, deep enough, in a block, and safe.
#[tactic(auto, unfolding(crate::specs::Classes::class_by))]
pub fn class_by(
    live: bool,
    spent: bool,
    claimed: bool,
    locked: bool,
    deep: bool,
    confirmed: bool,
    safe: bool,
) -> CoinClass
    ensures { result ≡ class_by live spent claimed locked deep confirmed safe }
{
    if !live {
        return CoinClass::Gone;
    }
    if spent {
        return CoinClass::Gone;
    }
    if claimed {
        return CoinClass::Claimed;
    }
    if locked {
        return CoinClass::Locked;
    }
    if !deep {
        return CoinClass::Immature;
    }
    if confirmed {
        return CoinClass::Confirmed;
    }
    if safe {
        CoinClass::Waiting
    } else {
        CoinClass::Unsafe
    }
}

/// The number of a class.
fn number_of(class: CoinClass) -> u8
    ensures { result ≡ number_of class }
{
    match class {
        CoinClass::Confirmed => 0,
        CoinClass::Waiting => 1,
        CoinClass::Unsafe => 2,
        CoinClass::Claimed => 3,
        CoinClass::Locked => 4,
        CoinClass::Immature => 5,
        CoinClass::Gone => 6,
    }
}

/// Whether two classes are one.
pub fn same_class(a: CoinClass, b: CoinClass) -> bool
    ensures { result ≡ same_class a b }
{
    number_of(a) == number_of(b)
}

/// The word of a class.
pub fn word_of(class: CoinClass) -> &'static str
    ensures { result.now ≡ word_of class }
{
    match class {
        CoinClass::Confirmed => "confirmed",
        CoinClass::Waiting => "waiting",
        CoinClass::Unsafe => "unsafe",
        CoinClass::Claimed => "claimed",
        CoinClass::Locked => "locked",
        CoinClass::Immature => "immature",
        CoinClass::Gone => "gone",
    }
}

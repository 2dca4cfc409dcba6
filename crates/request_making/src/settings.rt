//! What a request says besides its recipients and its coins.

ghost use Rattle.std.specs.Prelude.{◌≡◌};
ghost use Rattle.request_making.specs.Asked.{plain_settings};

use request_text::Method;

/// The settings of a request, each as a request file has it. Rates are in satoshi per 1,000 virtual bytes.
#[derive(Clone, Copy)]
pub struct Settings {
    /// The fee rate.
    pub rate: u64,
    /// The rate at which coins are thought to be spent later.
    pub long_term: u64,
    /// The rate at which change would be spent.
    pub discard: u64,
    /// The change that is aimed at, in satoshi.
    pub change_target: u64,
    /// How coins are chosen.
    pub method: Method,
    /// What draws at random are made from.
    pub seed: [u8; 32],
    /// How many tries the searches have.
    pub tries: u64,
    /// Whether the best that was found is taken where the tries are used up.
    pub take: bool,
    /// Whether the wallet's own pending outputs may be spent.
    pub zero_conf: bool,
    /// Whether pending outputs that a stranger may take back may be spent.
    pub include_unsafe: bool,
    /// Whether the coins of one script are spent together.
    pub group: bool,
    /// Whether the payment signals that it may be replaced (BIP 125).
    pub replaceable: bool,
    /// The payment's lock time.
    pub locktime: u32,
    /// The txid of the pending payment that is replaced (BIP 125), if one is. No coins are listed beside it.
    pub bump: Option<[u8; 32]>,
}

impl Settings {
    /// The settings of a request that gives nothing but this rate, this method and this seed: each other is what a
    /// request file means by leaving it out.
    pub fn new(rate: u64, method: Method, seed: [u8; 32]) -> Settings
        ensures { result ≡ plain_settings rate method seed }
    {
        Settings {
            rate,
            long_term: 10_000,
            discard: 10_000,
            change_target: 50_000,
            method,
            seed,
            tries: 100_000,
            take: true,
            zero_conf: true,
            include_unsafe: false,
            group: false,
            replaceable: true,
            locktime: 0,
            bump: None,
        }
    }
}

//! Why a PSBT isn't made whole with its keys.

use command_complete::Stop as CompleteStop;
use keys_files::KeysStop;
use psbt_codec::PsbtFault;
use psbt_keys::KeyFault;

/// Why the command stops before it prints a PSBT.
#[derive(Drop)]
pub enum Stop {
    /// The PSBT isn't made whole, for what keeps it from that without a keys file.
    Incomplete(CompleteStop),
    /// The keys file isn't taken.
    Keys(KeysStop),
    /// What the keys tell isn't added, for this fault, which isn't that there was not enough memory.
    Unkeyed(KeyFault),
    /// There was not enough memory.
    Memory,
}

impl From<CompleteStop> for Stop {
    ghost use Rattle.std.specs.Prelude.{◌≡◌};
    ghost use Rattle.command_keys.specs.declared.stop.Stop.TheVariants as stops;

    ghost from_gives = { λ stop e. e ≡ stops.Incomplete stop };

    fn from(stop: CompleteStop) -> Stop {
        Stop::Incomplete(stop)
    }
}

impl From<KeysStop> for Stop {
    ghost use Rattle.std.specs.Prelude.{◌≡◌};
    ghost use Rattle.command_keys.specs.declared.stop.Stop.TheVariants as stops;

    ghost from_gives = { λ stop e. e ≡ stops.Keys stop };

    fn from(stop: KeysStop) -> Stop {
        Stop::Keys(stop)
    }
}

impl From<KeyFault> for Stop {
    ghost use Rattle.std.specs.Prelude.{◌≡◌};
    ghost use Rattle.command_keys.specs.Stops.{stop_of_key};

    ghost from_gives = { λ fault e. e ≡ stop_of_key fault };

    fn from(fault: KeyFault) -> Stop {
        match fault {
            KeyFault::Psbt(PsbtFault::Memory) => Stop::Memory,
            _ => Stop::Unkeyed(fault),
        }
    }
}

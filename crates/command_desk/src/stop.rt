//! Why a desk stops before the first line of its script.

ghost use Rattle.std.specs.Prelude.{◌≡◌};
ghost use Rattle.command_desk.specs.Stops.{read_stop_of};

use fund_files::Stop as ChainStop;
use fund_shelf::ReadError;

/// Why the reading stops before the first line is done.
#[derive(Drop)]
pub enum Stop {
    /// The wallet or the blocks stop it.
    Chain(ChainStop),
    /// A read of the script failed.
    Unread,
    /// The script is longer than its limit.
    TooLong,
    /// There was not enough memory.
    Memory,
}

/// Why the reading stops at a script that wasn't read whole.
pub fn read_stop(error: ReadError) -> Stop
    ensures { result ≡ read_stop_of error }
{
    match error {
        ReadError::Failed => Stop::Unread,
        ReadError::TooLong => Stop::TooLong,
        ReadError::Memory => Stop::Memory,
    }
}

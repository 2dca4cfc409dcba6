//! Ninelace for programs in other languages: a static library with a C interface. Each export does one command on bytes that it is
//! lent, writes its answer into the caller's buffer, touches no file and remembers nothing.
#![tactic(auto)]

mod exports;
mod handing;
mod laws;
mod payments;
mod sizes;

pub use laws::second_calls_fit;
pub use sizes::NinelaceSizes;

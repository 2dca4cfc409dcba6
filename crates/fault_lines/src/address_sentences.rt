//! The sentences of faults of an address.

ghost use Rattle.std.specs.Prelude.{◌≡◌};
ghost use Rattle.fault_lines.specs.Sentences.{address_sentence};

use crate::stop::{Stop, stop_sentence};
use segwit_addr::AddrFault;

/// What to do about an address that is none: the sentence of each fault.
#[tactic(auto, unfolding(crate::specs::Sentences::address_sentence))]
pub fn address_sentence(fault: &AddrFault) -> &'static str
    ensures { result.now ≡ address_sentence fault.now }
{
    match fault {
        AddrFault::Case =>
            "This is a base58 address, or letters of both cases are mixed: give the script that getaddressinfo tells, or spell the address in one case.",
        AddrFault::Separator =>
            "This is no address of a witness program: ask for one that begins with bc1.",
        AddrFault::Letter =>
            "A letter that no address has stands there, as a blank before or after it: take it off.",
        AddrFault::Checksum =>
            "A letter of the address is mistyped, or bitcoin: stands before it: copy it again, without bitcoin: and what follows a question mark.",
        AddrFault::Network =>
            "This is an address of another network, as tb1 and bcrt1 are of test networks, ltc1 of Litecoin and ex1 of Liquid: ask for one that begins with bc1.",
        AddrFault::Version =>
            "The address has a version or a checksum that does not belong to it: ask for another.",
        AddrFault::Length =>
            "The address is too short or too long, as a Lightning invoice is: ask for an address of the main network.",
        AddrFault::Padding =>
            "The address has bits left over: it was not made by a wallet, so ask for another.",
        AddrFault::Memory => stop_sentence(Stop::Memory),
    }
}

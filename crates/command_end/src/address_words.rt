//! The words of an address's faults.

ghost use Rattle.std.specs.Prelude.{◌≡◌};
ghost use Rattle.command_end.specs.Words.{address_fault_words};

use segwit_addr::AddrFault;

/// A fault of an address by its variant's name.
pub fn address_fault_word<'a>(fault: AddrFault) -> &'a str
    ensures { result.now ≡ address_fault_words fault }
{
    match fault {
        AddrFault::Case => "Case",
        AddrFault::Separator => "Separator",
        AddrFault::Letter => "Letter",
        AddrFault::Checksum => "Checksum",
        AddrFault::Network => "Network",
        AddrFault::Version => "Version",
        AddrFault::Length => "Length",
        AddrFault::Padding => "Padding",
        AddrFault::Memory => "Memory",
    }
}

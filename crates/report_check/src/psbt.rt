//! The PSBT of a report.

ghost use Rattle.std.specs.Prelude.{◌≡◌, ◌≢◌, IfErr, IfOk};
ghost use Rattle.psbt_codec.specs.Text.{IsPsbtText};
ghost use Rattle.psbt_codec.specs.declared.fault.PsbtFault.TheVariants as PsbtFault;
ghost use Rattle.report_check.specs.declared.fault.CheckFault.TheVariants as CheckFault;
ghost use Rattle.report_check.specs.Refused.{IsPsbtRefusal};

use crate::fault::CheckFault;
use psbt_codec::{Psbt, PsbtFault, read_text};
use std::alloc::Global;

/// The refusal of a text for a fault of its PSBT, which may be that there was not enough memory.
fn refusal(fault: PsbtFault) -> CheckFault
    ensures memory { fault ≡ PsbtFault.Memory → result ≡ CheckFault.Memory }
    ensures fault { fault ≢ PsbtFault.Memory → result ≡ CheckFault.Psbt fault }
{
    match fault {
        PsbtFault::Memory => CheckFault::Memory,
        _ => CheckFault::Psbt(fault),
    }
}

/// The PSBT that a text is, in whichever version.
pub(crate) fn psbt_of(alloc: Global, text: &[u8]) -> Result<Psbt, CheckFault>
    ensures found { IfOk result (λ t. IsPsbtText text.now t) }
    ensures fault { IfErr result (IsPsbtRefusal text.now) }
{
    match read_text(alloc, text) {
        Ok(read) => Ok(read.psbt),
        Err(fault) => Err(refusal(fault)),
    }
}

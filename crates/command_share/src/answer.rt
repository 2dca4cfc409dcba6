//! The fault line of what stops a payment whose recipients bear the fee.

ghost use Rattle.std.specs.Prelude.{◌≡◌};
ghost use Rattle.fund_files.specs.declared.refusal.File.{File};
ghost use Rattle.fund_shelf.specs.Causes.{CountsNeverFall};
ghost use Rattle.command_end.specs.Names.{plain_sources};
ghost use Rattle.command_inputs.specs.Names.{plain_payment};
ghost use Rattle.command_inputs.specs.declared.refusal.Stop.TheVariants as payments;
ghost use Rattle.command_share.specs.Stops.{IsStoppedWith, status_of_stop};

use crate::stop::Stop;
use command_end::{Part, Sources, Status, put_fault};
use command_inputs::{Payment, answer};
use fund_shelf::Sink;

/// What the line says behind the word `fault` where the request isn't taken.
const NOT_SHARE: &str = "input plan NotShare";

/// What it says of a recipient that can't bear its share, before its index.
const SHARE_DUST: &str = "input plan ShareDust ";

/// Puts the line of a stop, and answers its status, without memory.
pub fn answer_stop<O: Sink>(sources: &Sources, payment: &Payment, stop: Stop, out: &mut O) -> Status
    ensures is { result ≡ status_of_stop stop }
    ensures answered { IsStoppedWith O.tells (plain_sources sources.now) (plain_payment payment.now) stop (O.view out.old) (O.view out.new) result }
    ensures read { (file : File) → stop ≡ Stop.AsPayment (payments.Read file) → result ≡ Status.ReadFault }
    ensures counts { CountsNeverFall (O.view out.old) (O.view out.new) }
{
    match stop {
        Stop::AsPayment(stop) => answer(sources, payment, stop, out),
        Stop::NotShare => put_fault(&[Part::Text(NOT_SHARE)], Status::Input, out),
        Stop::ShareDust(index) => {
            put_fault(
                &[Part::Number(SHARE_DUST, index as u64)],
                Status::Input,
                out,
            )
        }
    }
}

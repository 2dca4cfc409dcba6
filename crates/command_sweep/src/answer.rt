//! The fault line of what stops a sweep.

ghost use Rattle.std.specs.Prelude.{◌≡◌};
ghost use Rattle.fund_files.specs.declared.refusal.File.{File};
ghost use Rattle.fund_shelf.specs.Causes.{CountsNeverFall};
ghost use Rattle.command_end.specs.Names.{plain_sources};
ghost use Rattle.command_inputs.specs.Names.{plain_payment};
ghost use Rattle.command_inputs.specs.declared.refusal.Stop.TheVariants as payments;
ghost use Rattle.command_sweep.specs.Stops.{IsStoppedWith, status_of_stop};

use crate::stop::Stop;
use command_end::{Part, Sources, Status, put_fault};
use command_inputs::{Payment, answer};
use fund_shelf::Sink;

/// What the line says behind the word `fault` where a sweep doesn't take the request.
const NOT_SWEEP: &str = "input plan NotSweep";

/// What it says of a payment that is too heavy, before the weight.
const TOO_HEAVY: &str = "input plan TooHeavy ";

/// Puts the line of a stop, and answers its status, without memory.
pub fn answer_stop<O: Sink>(sources: &Sources, payment: &Payment, stop: Stop, out: &mut O) -> Status
    ensures is { result ≡ status_of_stop stop }
    ensures answered { IsStoppedWith O.tells (plain_sources sources.now) (plain_payment payment.now) stop (O.view out.old) (O.view out.new) result }
    ensures read { (file : File) → stop ≡ Stop.AsPayment (payments.Read file) → result ≡ Status.ReadFault }
    ensures counts { CountsNeverFall (O.view out.old) (O.view out.new) }
{
    match stop {
        Stop::AsPayment(stop) => answer(sources, payment, stop, out),
        Stop::NotSweep => put_fault(&[Part::Text(NOT_SWEEP)], Status::Input, out),
        Stop::TooHeavy(weight) => {
            put_fault(&[Part::Number(TOO_HEAVY, weight)], Status::Input, out)
        }
    }
}

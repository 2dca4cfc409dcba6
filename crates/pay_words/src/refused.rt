//! The payment for which a request is refused.

ghost use Rattle.std.specs.Prelude.{◌≡◌, IfOk};
ghost use Rattle.request_making.specs.Asked.{asked_of};
ghost use Rattle.request_text.specs.Reported.{plain_fault};
ghost use Rattle.pay_words.specs.Refused.{recipient_about, refused_in};

use crate::asked::Asked;
use fund_base::Memory;
use request_text::{RequestFault, read_request};
use std::alloc::Global;

/// The index of the recipient that a fault of a request is about, if it is about one.
fn recipient_about(fault: &RequestFault) -> Option<u32>
    ensures { result ≡ recipient_about (plain_fault fault.now) }
{
    match *fault {
        RequestFault::Address(index, _)
        | RequestFault::Script(index)
        | RequestFault::AmountRange(index)
        | RequestFault::Dust(index) => Some(index),
        _ => None,
    }
}

/// The place among the payments of the one for which the request of what is asked is refused, by its address, its script or its
/// amount; none where it is refused for another cause, or is a request.
pub fn refused_payment(alloc: Global, asked: &Asked) -> Result<Option<u32>, Memory>
    ensures { IfOk result (λ place. place ≡ refused_in (asked_of asked.now.payments.items asked.now.coins.items asked.now.settings)) }
{
    let text = asked.request(alloc)?;
    match read_request(alloc, text.as_bytes()) {
        Ok(_) => Ok(None),
        Err(RequestFault::Memory) => Err(Memory),
        Err(fault) => Ok(recipient_about(&fault)),
    }
}

//! Which requests a sweep takes.

ghost use Rattle.std.specs.Prelude.{◌≡◌, ◌↔◌, IsTrue};
ghost use Rattle.command_sweep.specs.Asked.{IsForSweep, is_for_sweep};

use request_text::Request;

/// Whether a sweep takes a request: it has one recipient, lists no coin, and names no payment to be replaced.
pub fn is_for_sweep(request: &Request) -> bool
    ensures value { result ≡ is_for_sweep request.now }
    ensures means { IsTrue result ↔ IsForSweep request.now }
{
    request.recipients.len() == 1 && request.coins.is_empty() && request.bump.is_none()
}

//! Which requests are taken whose recipients are to bear the fee.

ghost use Rattle.std.specs.Prelude.{◌≡◌, ◌↔◌, IsTrue};
ghost use Rattle.command_share.specs.Asked.{IsForShare, is_for_share};

use request_text::{Method, Request};

/// Whether a request is taken: its method is `weight`, it lists no coin, and it names no payment to be replaced.
pub fn is_for_share(request: &Request) -> bool
    ensures value { result ≡ is_for_share request.now }
    ensures means { IsTrue result ↔ IsForShare request.now }
{
    let lightest = match request.method {
        Method::Weight => true,
        Method::Auto | Method::Changeless | Method::Draw | Method::Manual => false,
    };
    lightest && request.coins.is_empty() && request.bump.is_none()
}

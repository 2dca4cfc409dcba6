//! Which requests the wide search takes.

ghost use Rattle.std.specs.Prelude.{◌≡◌, ◌↔◌, IsTrue};
ghost use Rattle.wide_plan.specs.Asked.{IsForWide, is_for_wide};

use request_text::{Method, Request};

/// Whether the wide search takes a request: its method is `changeless`, it lists no coin, and it names no payment to be
/// replaced.
pub fn is_for_wide(request: &Request) -> bool
    ensures value { result ≡ is_for_wide request.now }
    ensures means { IsTrue result ↔ IsForWide request.now }
{
    let changeless = match request.method {
        Method::Changeless => true,
        Method::Auto | Method::Weight | Method::Draw | Method::Manual => false,
    };
    changeless && request.coins.is_empty() && request.bump.is_none()
}

//! Whether change comes back.

ghost use Rattle.std.specs.Prelude.{◌≡◌};
ghost use Rattle.command_pay.specs.Change.{is_among, is_change_listed};

use wallet_text::{Wallet, Watch};

/// Whether the script is one of these.
fn is_among(script: &[u8], scripts: &[Watch]) -> bool
    ensures { result ≡ is_among script.now scripts.now }
{
    for one in scripts {
        if one.script.bytes() == script {
            return true;
        }
    }
    false
}

/// Whether the wallet watches the script to which it has change paid. Where it doesn't, change is lost from its sight, or is
/// another's.
pub fn is_change_listed(wallet: &Wallet) -> bool
    ensures { result ≡ is_change_listed wallet.now }
{
    is_among(wallet.change.script.bytes(), &wallet.scripts)
}

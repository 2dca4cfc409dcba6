//! What a keys file tells.

ghost use Rattle.std.specs.Prelude.{◌≡◌, IfSome};
ghost use Rattle.keys_text.specs.Found.{IsKnown};
ghost use Rattle.keys_text.specs.KeysRules.{IsEntry, IsKeys};

use fund_base::Script;
use indexmap::IndexMap;
use std::marker::Model;

/// A public key, and how it is derived from a master key (BIP 32).
#[derive(Drop)]
pub struct KeyPath {
    /// The bytes of the key: 33 of a compressed public key, 32 of an x-only one, 78 of an extended one.
    pub key: Vec<u8>,
    /// The fingerprint of the master key.
    pub fingerprint: [u8; 4],
    /// The indices of the steps from the master key to the key, at most 255. Those of hardened steps are 2^31 or more.
    pub path: Vec<u32>,
}

impl Model for KeyPath {
    ghost use Rattle.keys_text.specs.PlainKeys.{PlainKeyPath};

    ghost Value = { PlainKeyPath };

    ghost view = { λ k. record { key = k.key.items; fingerprint = k.fingerprint; path = k.path.items } };
}

/// What a signer has to know of a script beside the script itself.
#[derive(Drop)]
pub struct ScriptKeys {
    /// The script whose hash the script pays to (BIP 16). That it has this hash isn't tested.
    pub redeem: Option<Script>,
    /// The script whose SHA-256 the witness program is (BIP 141).
    pub witness: Option<Script>,
    /// The internal key of a script that pays to taproot, x-only (BIP 341).
    pub internal: Option<[u8; 32]>,
    /// The keys, at most 1,000 and none of them twice.
    pub keys: Vec<KeyPath>,
}

impl Model for ScriptKeys {
    ghost use Rattle.keys_text.specs.PlainKeys.{PlainScriptKeys};

    ghost Value = { PlainScriptKeys };

    ghost view = { λ s. record { redeem = s.redeem; witness = s.witness; internal = s.internal; keys = s.keys.items } };
}

/// What is known of scripts, by their bytes.
pub(crate) type Scripts = IndexMap<Vec<u8>, ScriptKeys>;

/// The keys of a wallet: what is known of its scripts, and its extended public keys. Every value of it keeps the rules of a
/// keys file, which [`Keys::keeps_rules`] states.
pub struct Keys {
    pub(crate) scripts: Scripts,
    pub(crate) xpubs: Vec<KeyPath>,
}

impl Drop for Keys {
    fn drop(self) {
        let Keys {
            scripts: _,
            xpubs: _,
        } = self;
    }
}

impl Model for Keys {
    ghost use Rattle.keys_text.specs.Entries.{entries_of};
    ghost use Rattle.keys_text.specs.KeysRules.{IsKeys};
    ghost use Rattle.keys_text.specs.PlainKeys.{PlainKeys};

    ghost Value = { PlainKeys };

    ghost view = { λ k. record { scripts = entries_of k.scripts.entries; xpubs = k.xpubs.items } };

    ghost invariant = { λ k. IsKeys (record { scripts = entries_of k.scripts.entries; xpubs = k.xpubs.items }) };
}

impl Keys {
    /// That the keys keep the rules of their file. A call does nothing.
    pub fn keeps_rules(&self)
        ensures { IsKeys self.now }
    {
        let _ = &self.xpubs;
    }

    /// What is known of the script. None exactly where no entry of the file has it.
    pub fn known_of(&self, script: &[u8]) -> Option<&ScriptKeys>
        ensures { IsKnown self.now.scripts script.now result }
    {
        self.scripts.get(script)
    }

    /// The extended public keys, at most 1,000 and none of them twice.
    pub fn xpubs(&self) -> &[KeyPath]
        ensures { result.now ≡ self.now.xpubs }
    {
        self.xpubs.as_slice()
    }
}

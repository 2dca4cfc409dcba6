//! The three scripts of a workload.

ghost use Rattle.std.specs.Prelude.{◌≡◌, ◌%◌, ◌++◌, IfOk};
ghost use Rattle.command_work.specs.Kinds.{kind_of, script_of, watch_of, watches, weight_of};

use fund_base::{Memory, Script};
use std::alloc::Global;
use wallet_text::Watch;

/// What the coins of a workload pay to.
#[derive(Clone, Copy)]
pub(crate) enum Kind {
    /// A witness program of version 0 with a hash of twenty bytes (BIP 141).
    WitnessKeyHash,
    /// A witness program of version 1 with a key of 32 bytes (BIP 341).
    Taproot,
    /// The hash of a public key, of twenty bytes.
    KeyHash,
}

/// The script of these bytes, one string after another.
pub(crate) fn joined(
    alloc: Global,
    front: &[u8],
    hash: &[u8],
    back: &[u8],
) -> Result<Script, Memory>
    ensures { IfOk result (λ script. script ≡ (front.now ++ hash.now) ++ back.now) }
{
    let room = front
        .len()
        .saturating_add(hash.len())
        .saturating_add(back.len());
    let mut bytes = Vec::with_capacity(alloc, room)?;
    bytes.extend_from_slice(front)?;
    bytes.extend_from_slice(hash)?;
    bytes.extend_from_slice(back)?;
    Ok(Script::new(bytes))
}

impl Kind {
    /// The kind that a word draws: its remainder by three.
    #[tactic(auto, using(crate::proofs::KindLaws::last_kind))]
    pub(crate) fn of(word: u32) -> Kind
        ensures { result ≡ kind_of (word % 3) }
    {
        match word % 3 {
            0 => Kind::WitnessKeyHash,
            1 => Kind::Taproot,
            _ => Kind::KeyHash,
        }
    }

    /// Its script.
    #[tactic(auto, unfolding(crate::specs::Kinds::script_of))]
    pub(crate) fn script(self, alloc: Global) -> Result<Script, Memory>
        ensures { IfOk result (λ script. script ≡ script_of self) }
    {
        match self {
            Kind::WitnessKeyHash => joined(alloc, &[0x00, 0x14], &[0x11; 20], &[]),
            Kind::Taproot => joined(alloc, &[0x51, 0x20], &[0x22; 32], &[]),
            Kind::KeyHash => joined(alloc, &[0x76, 0xa9, 0x14], &[0x33; 20], &[0x88, 0xac]),
        }
    }

    /// The weight that an input which spends it is declared to have, in weight units.
    fn weight(self) -> u64
        ensures { result ≡ weight_of self }
    {
        match self {
            Kind::WitnessKeyHash => 272,
            Kind::Taproot => 230,
            Kind::KeyHash => 593,
        }
    }

    /// The entry of a wallet that watches it.
    pub(crate) fn watch(self, alloc: Global) -> Result<Watch, Memory>
        ensures { IfOk result (λ watch. watch ≡ watch_of self) }
    {
        let script = self.script(alloc)?;
        Ok(Watch {
            script,
            weight: self.weight(),
        })
    }
}

/// The entries of the three kinds, in order.
pub(crate) fn watches(alloc: Global) -> Result<Vec<Watch>, Memory>
    ensures { IfOk result (λ v. v.items ≡ watches) }
{
    let mut entries = Vec::new(alloc);
    entries.push(Kind::WitnessKeyHash.watch(alloc)?)?;
    entries.push(Kind::Taproot.watch(alloc)?)?;
    entries.push(Kind::KeyHash.watch(alloc)?)?;
    Ok(entries)
}

//! The pairs that are due in a map.

ghost use Rattle.std.specs.Prelude.{◌≡◌, ◌∷◌, ◌++◌, [], IfOk, OnOk, map, option_copied};
ghost use Rattle.std.specs.List.{flat_map};
ghost use Rattle.std.specs.Int.{w32, to_le_bytes};
ghost use Rattle.psbt_keys.specs.Pairs.{pair_of_type};
ghost use Rattle.psbt_keys.specs.Origins.{due_for, global_due, key_pairs, known_pair, origin_text, path_pair, script_pairs};

use crate::pairs::Pair;
use fund_base::{Memory, Script};
use keys_text::{KeyPath, Keys, ScriptKeys};
use std::alloc::Global;

/// The types of the pairs that tell of a script: those of an input's map, or those of an output's.
#[derive(Clone, Copy)]
pub struct PairTypes {
    /// The redeem script.
    pub redeem: u8,
    /// The witness script.
    pub witness: u8,
    /// The internal key of a script that pays to taproot.
    pub internal: u8,
    /// A key and its path.
    pub key: u8,
    /// An x-only key and its path.
    pub taproot: u8,
}

/// Those of an input's map (BIP 174, and for taproot BIP 371).
pub const OF_INPUT: PairTypes = PairTypes {
    redeem: 0x04,
    witness: 0x05,
    internal: 0x17,
    key: 0x06,
    taproot: 0x16,
};

/// Those of an output's map.
pub const OF_OUTPUT: PairTypes = PairTypes {
    redeem: 0x00,
    witness: 0x01,
    internal: 0x05,
    key: 0x02,
    taproot: 0x07,
};

/// The type of an extended public key in the global map (`PSBT_GLOBAL_XPUB`).
const XPUB: u8 = 0x01;

fn write_path(out: &mut Vec<u8>, path: &[u32]) -> Result<(), Memory>
    ensures { OnOk result (out.new.items ≡ out.old.items ++ flat_map (to_le_bytes w32) path.now) }
{
    for step in path {
        out.extend_from_slice(&step.to_le_bytes())?;
    }
    Ok(())
}

/// How a key is derived, behind these bytes. The error is out of memory.
fn origin_of(alloc: Global, before: &[u8], key: &KeyPath) -> Result<Vec<u8>, Memory>
    ensures { IfOk result (λ v. v.items ≡ before.now ++ origin_text key.now) }
{
    let mut origin = Vec::from_slice(alloc, before)?;
    origin.extend_from_slice(&key.fingerprint)?;
    write_path(&mut origin, &key.path)?;
    Ok(origin)
}

fn path_pair(alloc: Global, before: &[u8], kind: u8, key: &KeyPath) -> Result<Pair, Memory>
    ensures { IfOk result (λ p. p ≡ path_pair before.now kind key.now) }
{
    let origin = origin_of(alloc, before, key)?;
    Pair::of_type(alloc, kind, &key.key, origin)
}

/// The pairs of these keys behind those that are due already. The error is out of memory.
fn add_paths(
    alloc: Global,
    before: &[u8],
    kind: u8,
    keys: &[KeyPath],
    due: &mut Vec<Pair>,
) -> Result<(), Memory>
    ensures { OnOk result (due.new.items ≡ due.old.items ++ map (path_pair before.now kind) keys.now) }
{
    for key in keys {
        let pair = path_pair(alloc, before, kind, key)?;
        due.push(pair)?;
    }
    Ok(())
}

/// The pair of these bytes behind those that are due already. The error is out of memory.
fn add_known(alloc: Global, kind: u8, bytes: &[u8], due: &mut Vec<Pair>) -> Result<(), Memory>
    ensures { OnOk result (due.new.items ≡ due.old.items ++ pair_of_type kind [] bytes.now ∷ []) }
{
    let value = Vec::from_slice(alloc, bytes)?;
    let pair = Pair::of_type(alloc, kind, &[], value)?;
    due.push(pair)?;
    Ok(())
}

fn add_script(
    alloc: Global,
    kind: u8,
    script: &Option<Script>,
    due: &mut Vec<Pair>,
) -> Result<(), Memory>
    ensures { OnOk result (due.new.items ≡ due.old.items ++ known_pair kind script.now) }
{
    match script {
        Some(script) => add_known(alloc, kind, script.bytes(), due),
        None => Ok(()),
    }
}

/// The internal key and the keys.
fn add_key_pairs(
    alloc: Global,
    types: PairTypes,
    known: &ScriptKeys,
    due: &mut Vec<Pair>,
) -> Result<(), Memory>
    ensures { OnOk result (due.new.items ≡ due.old.items ++ (known_pair types.internal known.now.internal ++ key_pairs types known.now.internal known.now.keys)) }
{
    match &known.internal {
        Some(internal) => {
            add_known(alloc, types.internal, internal.as_slice(), due)?;
            add_paths(alloc, &[0], types.taproot, &known.keys, due)
        }
        None => add_paths(alloc, &[], types.key, &known.keys, due),
    }
}

fn script_pairs(alloc: Global, types: PairTypes, known: &ScriptKeys) -> Result<Vec<Pair>, Memory>
    ensures { IfOk result (λ v. v.items ≡ script_pairs types known.now) }
{
    let mut due = Vec::new(alloc);
    add_script(alloc, types.redeem, &known.redeem, &mut due)?;
    add_script(alloc, types.witness, &known.witness, &mut due)?;
    add_key_pairs(alloc, types, known, &mut due)?;
    Ok(due)
}

/// What is due in the map of a script: the pairs of its entry, and nothing where it has none or isn't known. The error is out
/// of memory.
#[tactic(auto, using(crate::proofs::DueLaws::due_known, crate::proofs::DueLaws::due_unknown))]
pub fn due_for(
    alloc: Global,
    types: PairTypes,
    keys: &Keys,
    script: Option<&[u8]>,
) -> Result<Vec<Pair>, Memory>
    ensures { IfOk result (λ v. v.items ≡ due_for types keys.now.scripts (option_copied script.entry)) }
{
    keys.keeps_rules();
    let Some(script) = script else {
        return Ok(Vec::new(alloc));
    };
    match keys.known_of(script) {
        Some(known) => script_pairs(alloc, types, known),
        None => Ok(Vec::new(alloc)),
    }
}

/// What is due in the global map. The error is out of memory.
pub fn global_due(alloc: Global, keys: &Keys) -> Result<Vec<Pair>, Memory>
    ensures { IfOk result (λ v. v.items ≡ global_due keys.now) }
{
    let mut due = Vec::new(alloc);
    add_paths(alloc, &[], XPUB, keys.xpubs(), &mut due)?;
    Ok(due)
}

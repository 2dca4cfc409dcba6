//! One map of a PSBT with the pairs that are due in it.

ghost use Rattle.std.specs.Prelude.{◌≡◌, ◌≢◌, ◌++◌, ℕ, List, AllPairs, MatchResult};
ghost use Rattle.psbt_codec.specs.Psbt.{HaveOtherKeys, Pair as Plain, map_text};
ghost use Rattle.signed_psbt.specs.Maps.{ArePairs};
ghost use Rattle.psbt_keys.specs.Extended.{IsConflict};
ghost use Rattle.psbt_keys.specs.Placing.{IsWritten};
ghost use Rattle.psbt_keys.specs.declared.fault.MapFault.TheVariants.{Differs, Memory as NoMemory};

use crate::fault::MapFault;
use crate::pairs::{Pair, pairs_of, write_map};
use crate::placing::extend;
use fund_base::Cursor;
use std::alloc::Global;

/// Writes the map that the cursor stands at with the due pairs, and leaves the cursor behind the map.
pub fn add_map(
    alloc: Global,
    due: &[Pair],
    cursor: &mut Cursor,
    out: &mut Vec<u8>,
) -> Result<(), MapFault>
    ensures { (pairs : List Plain) (behind : List ℕ) → ArePairs pairs → AllPairs HaveOtherKeys pairs → AllPairs HaveOtherKeys due.now → cursor.old.rest ≡ map_text pairs ++ behind →
        MatchResult result (λ _. IsWritten due.now pairs out.old.items out.new.items × (cursor.new.rest ≡ behind)) (λ e. e ≢ NoMemory → (place : ℕ) × (kind : ℕ) × (e ≡ Differs place kind) × IsConflict due.now pairs place kind) }
{
    let mut pairs = pairs_of(alloc, cursor)?;
    extend(alloc, &mut pairs, due)?;
    write_map(out, &pairs)?;
    Ok(())
}

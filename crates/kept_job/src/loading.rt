//! A kept job, loaded: its saved position, and the log that its parts make.

ghost use Rattle.std.specs.Prelude.{◌≡◌, ◌≢◌, ◌≤◌, ℕ, Err, IfErr, IfOk, IsErrOf, List, OnOk, length};
ghost use Rattle.sha2.specs.Hashers.{Holds256};
ghost use Rattle.sha2.specs.Sha256.{sha256};
ghost use Rattle.closing_log.specs.LogText.{IsLogText};
ghost use Rattle.fund_shelf.specs.Causes.{Rose};
ghost use Rattle.fund_outside.specs.Kept.{told_bytes};
ghost use Rattle.kept_job.specs.Jobs.{HasParts, HasSaved, IsLoaded, IsOfLog};
ghost use Rattle.kept_job.specs.Loading.{IsNotDue, IsNotSaved, IsOfOther, IsPositionOf, IsPut};
ghost use Rattle.kept_job.specs.Refused.{IsNotLoaded, IsPartFault};
ghost use Rattle.search_keep.specs.Resumed.{MayGoOn};
ghost use Rattle.search_keep.specs.SavedText.{CanBeSaved};

use crate::behind::Behind;
use crate::fault::KeptFault;
use closing_log::{LogText, read_sections};
use fund_base::{MOST_TRIES, Memory};
use fund_outside::Keeper;
use search_keep::{Saved, read_saved};
use sha2::{Digest, Sha256};
use std::alloc::Global;

/// The greatest length of all parts of a job, in bytes.
const MOST_BYTES: usize = 67_108_864;

/// What is loaded of a job.
#[derive(Drop)]
pub(crate) struct Loaded {
    pub(crate) saved: Saved,
    pub(crate) log: LogText,
    /// The parts of the log, in which more can be kept behind them.
    pub(crate) behind: Behind,
}

/// The joined parts of a job, and the state of the digest of their bytes.
#[derive(Drop)]
struct Joined {
    bytes: Vec<u8>,
    hasher: Sha256,
}

/// The position that a saved text says. `NoJob` exactly where there is no text, and `Form` exactly where it isn't one.
fn position_of(alloc: Global, text: Option<Vec<u8>>) -> Result<Saved, KeptFault>
    ensures { IsPositionOf (told_bytes text) result }
{
    match text {
        Some(text) => {
            let saved = read_saved(alloc, &text)?;
            Ok(saved)
        }
        None => Err(KeptFault::NoJob),
    }
}

/// The position of a job's saved text.
fn load_saved<K: Keeper>(alloc: Global, keeper: &mut K, job: &str) -> Result<Saved, KeptFault>
    ensures saved { K.tells → IfOk result (HasSaved ((K.view keeper.old).jobs job.now)) }
    ensures can { IfOk result CanBeSaved }
    ensures fault { K.tells → IfErr result (IsNotSaved ((K.view keeper.old).jobs job.now)) }
    ensures same { K.tells → (K.view keeper.new).jobs ≡ (K.view keeper.old).jobs }
    ensures faults { (K.view keeper.old).faults ≤ (K.view keeper.new).faults }
    ensures cause { IsErrOf result KeptFault.Failed → Rose (K.view keeper.old).faults (K.view keeper.new).faults }
    ensures unfailed { result ≢ Err KeptFault.Failed → (K.view keeper.new).faults ≡ (K.view keeper.old).faults }
{
    let text = keeper.load(job)?;
    position_of(alloc, text)
}

/// That a saved position is one of the job of this digest, with tries left.
fn check_due(saved: &Saved, now: &[u8; 32]) -> Result<(), KeptFault>
    ensures due { OnOk result (MayGoOn saved.now now.now) }
    ensures fault { IfErr result (IsNotDue saved.now now.now) }
{
    let kept = saved.job;
    if kept != *now {
        return Err(KeptFault::JobElse(kept, *now));
    }
    if saved.tries >= MOST_TRIES {
        return Err(KeptFault::Spent);
    }
    Ok(())
}

/// Puts a part behind those before it, which are hashed as they come. `Part` exactly where it is missing; `LongLog` exactly
/// where it is there, and makes them longer than the limit.
fn put_part(
    bytes: &mut Vec<u8>,
    hasher: &mut Sha256,
    part: Option<Vec<u8>>,
    number: u32,
) -> Result<(), KeptFault>
    requires { length bytes.old.items ≤ MOST_BYTES }
    ensures put { IsPut (told_bytes part) number bytes.old.items bytes.new.items result }
    ensures hashed { Holds256 hasher.old bytes.old.items → OnOk result (Holds256 hasher.new bytes.new.items) }
{
    let Some(part) = part else {
        return Err(KeptFault::Part(number));
    };
    if part.len() > MOST_BYTES - bytes.len() {
        return Err(KeptFault::LongLog);
    }
    bytes.extend_from_slice(&part)?;
    hasher.update(part.as_slice());
    Ok(())
}

/// The first `count` parts of a job, joined. Each is asked for once, in rising number, and hashed once.
fn join_parts<K: Keeper>(
    alloc: Global,
    keeper: &mut K,
    job: &str,
    count: u32,
) -> Result<Joined, KeptFault>
    ensures parts { K.tells → IfOk result (λ joined. HasParts ((K.view keeper.old).jobs job.now) count joined.bytes.items) }
    ensures hashed { IfOk result (λ joined. Holds256 joined.hasher joined.bytes.items) }
    ensures fits { IfOk result (λ joined. length joined.bytes.items ≤ MOST_BYTES) }
    ensures fault { K.tells → IfErr result (IsPartFault ((K.view keeper.old).jobs job.now) count) }
    ensures same { K.tells → (K.view keeper.new).jobs ≡ (K.view keeper.old).jobs }
    ensures faults { (K.view keeper.old).faults ≤ (K.view keeper.new).faults }
    ensures cause { IsErrOf result KeptFault.Failed → Rose (K.view keeper.old).faults (K.view keeper.new).faults }
    ensures unfailed { result ≢ Err KeptFault.Failed → (K.view keeper.new).faults ≡ (K.view keeper.old).faults }
{
    let mut bytes = Vec::new(alloc);
    let mut hasher = Sha256::new();
    'joining: for number in 0..count {
        let part = keeper.part(job, number)?;
        put_part(&mut bytes, &mut hasher, part, number)?;
    }
    Ok(Joined { bytes, hasher })
}

/// The digest of what was hashed so far. The error is out of memory.
fn digest_so_far(hasher: &Sha256) -> Result<[u8; 32], Memory>
    ensures { (bytes : List ℕ) → Holds256 hasher.now bytes → IfOk result (λ digest. digest ≡ sha256 bytes) }
{
    let hasher = hasher.clone()?;
    Ok(hasher.finalize())
}

/// That a saved position is one of the log of this digest, if it is saved with one.
fn check_log(saved: &Saved, digest: &[u8; 32]) -> Result<(), KeptFault>
    ensures same { OnOk result (IsOfLog saved.now digest.now) }
    ensures fault { IfErr result (IsOfOther saved.now digest.now) }
{
    match saved.log {
        None => Ok(()),
        Some(kept) => {
            if kept != *digest {
                return Err(KeptFault::Parts(kept, *digest));
            }
            Ok(())
        }
    }
}

/// What a keeper has of the job of this digest. The fault is the first of these: `NoJob` exactly where there is no job of
/// this name; `Form` exactly where its saved text isn't one; `JobElse` exactly where another digest is saved; `Spent` exactly
/// where the job has made 10,000,000 tries or more; then part by part `Part` where it is missing, and `LongLog` where the
/// parts up to it are together longer than 67,108,864 bytes; `Parts` exactly where a digest of the log is saved that isn't
/// that of the joined parts; `Section` exactly where these are no text of a log. `Failed` comes only where the keeper's count
/// rose. The jobs stay.
pub(crate) fn load<K: Keeper>(
    alloc: Global,
    keeper: &mut K,
    job: &str,
    now: &[u8; 32],
) -> Result<Loaded, KeptFault>
    ensures loaded { K.tells → IfOk result (λ l. IsLoaded now.now ((K.view keeper.old).jobs job.now) l.saved l.log l.behind.bytes) }
    ensures counted { IfOk result (λ l. l.behind.parts ≡ l.saved.parts) }
    ensures due { IfOk result (λ l. MayGoOn l.saved now.now) }
    ensures can { IfOk result (λ l. CanBeSaved l.saved) }
    // Its log was read from a text, whatever the keeper tells.
    ensures read { IfOk result (λ l. (bytes : List ℕ) × IsLogText bytes l.log) }
    ensures fault { K.tells → IfErr result (IsNotLoaded now.now ((K.view keeper.old).jobs job.now)) }
    ensures same { K.tells → (K.view keeper.new).jobs ≡ (K.view keeper.old).jobs }
    ensures faults { (K.view keeper.old).faults ≤ (K.view keeper.new).faults }
    ensures cause { IsErrOf result KeptFault.Failed → Rose (K.view keeper.old).faults (K.view keeper.new).faults }
    ensures unfailed { result ≢ Err KeptFault.Failed → (K.view keeper.new).faults ≡ (K.view keeper.old).faults }
{
    let saved = load_saved(alloc, keeper, job)?;
    check_due(&saved, now)?;
    let Joined { bytes, hasher } = join_parts(alloc, keeper, job, saved.parts)?;
    let digest = digest_so_far(&hasher)?;
    check_log(&saved, &digest)?;
    let log = read_sections(alloc, &bytes)?;
    let behind = Behind::of(saved.parts, bytes, hasher);
    Ok(Loaded { saved, log, behind })
}

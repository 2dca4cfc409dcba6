//! Saved positions, in words and as texts.

use closing_log::Worded;
use fund_base::Memory;
use row_columns::{Answer, places_of};
use search_keep::{Saved, SavedFault, read_saved, write_saved};

/// Puts all that is saved, the digest of the log where there is one.
fn put_saved(out: &mut Answer, saved: &Saved) {
    out.digits("job ", &saved.job);
    out.number(", tries ", saved.tries);
    out.number(", row ", u64::from(saved.row));
    out.word(", stage ");
    out.word(saved.stage.word());
    out.places(", chosen ", saved.chosen.as_slice());
    out.number(", next ", u64::from(saved.next));
    out.best(", best ", places_of(&saved.best));
    out.number(", parts ", u64::from(saved.parts));
    if let Some(digest) = &saved.log {
        out.digits(", log ", digest);
    }
}

/// Puts a fault by its name, with its place or its digests.
pub(crate) fn put_saved_fault(out: &mut Answer, fault: SavedFault) {
    match fault {
        SavedFault::Form(place) => out.number("Form ", place),
        SavedFault::JobElse(kept, now) => {
            out.digits("JobElse ", &kept);
            out.digits(" ", &now);
        }
        SavedFault::Spent => out.word("Spent"),
        SavedFault::IllFormed => out.word("IllFormed"),
        SavedFault::Memory => out.lack(),
    }
}

/// Reads a saved position, and puts what is written of it. The error is out of memory.
pub(crate) fn saved(out: &mut Answer, bytes: &[u8]) -> Result<(), Memory> {
    match read_saved(out.alloc, bytes) {
        Ok(saved) => {
            put_saved(out, &saved);
            let text = write_saved(out.alloc, &saved)?;
            out.again(bytes, &text);
        }
        Err(fault) => put_saved_fault(out, fault),
    }
    Ok(())
}

//! That what is saved fits its fields, as every value of its type does.

ghost use Rattle.std.specs.Prelude.{◌≡◌, ◌<◌, ◌≤◌, All, IfSome, length};
ghost use Rattle.std.specs.List.{AllByRecursion};
ghost use Rattle.closing_log.specs.LogText.{HasSmallPlaces};
ghost use Rattle.search_keep.specs.SavedText.{IsDigestOf, IsSized};

use fund_base::Places;
use search_keep::Saved;

/// That numbers of four bytes fit four bytes. A call does nothing.
fn numbers_fit(numbers: &[u32])
    ensures { AllByRecursion (λ n. n ≤ 4_294_967_295) numbers.now }
{}

/// That bytes are below 256. A call does nothing.
fn bytes_fit(bytes: &[u8])
    ensures { All (λ b. b < 256) bytes.now }
{}

/// That places fit four bytes, as those of every value do. A call does nothing.
fn places_fit(places: &Places)
    ensures { AllByRecursion (λ p. p ≤ 4_294_967_295) places.now }
{
    numbers_fit(places.as_slice());
}

/// The same of a best selection, if there is one. A call does nothing.
fn best_fits(best: &Option<Places>)
    ensures { HasSmallPlaces best.now }
{
    match best {
        Some(places) => places_fit(places),
        None => {}
    }
}

/// That a digest has 32 bytes. A call does nothing.
fn digest_fits(digest: &[u8; 32])
    ensures length { length digest.now ≡ 32 }
    ensures bytes { All (λ b. b < 256) digest.now }
{
    bytes_fit(digest);
}

/// The same of a digest of the log, if one is saved. A call does nothing.
fn log_fits(log: &Option<[u8; 32]>)
    ensures { IfSome log.now IsDigestOf }
{
    match log {
        Some(digest) => digest_fits(digest),
        None => {}
    }
}

/// That numbers fit their types. A call does nothing.
fn counts_fit(tries: u64, row: u8, next: u32, parts: u32)
    ensures tries { tries ≤ 18_446_744_073_709_551_615 }
    ensures row { row ≤ 255 }
    ensures next { next ≤ 4_294_967_295 }
    ensures parts { parts ≤ 4_294_967_295 }
{}

/// That what is saved fits its fields, as every value does. A call does nothing.
pub(crate) fn saved_fits(saved: &Saved)
    ensures { IsSized saved.now }
{
    digest_fits(&saved.job);
    log_fits(&saved.log);
    counts_fit(saved.tries, saved.row, saved.next, saved.parts);
    places_fit(&saved.chosen);
    best_fits(&saved.best);
}

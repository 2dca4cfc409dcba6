//! What numbers are by their types.

ghost use Rattle.std.specs.Prelude.{◌≡◌};
ghost use Rattle.request_text.specs.RequestText.{index_of};

/// The place as an index of 32 bits, a greater one as the greatest.
pub fn index_of(place: usize) -> u32
    ensures { result ≡ index_of place }
{
    place.min(u32::MAX as usize) as u32
}

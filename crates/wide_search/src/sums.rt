//! The sums of places.

/// The value of places, in satoshi; their weight, in weight units; and their cost, in satoshi.
#[derive(Clone, Copy)]
pub(crate) struct Sums {
    pub(crate) value: u128,
    pub(crate) weight: u64,
    pub(crate) cost: i128,
}

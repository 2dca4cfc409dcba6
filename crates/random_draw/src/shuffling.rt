//! The order in which a seed puts the places of a pool.

ghost use Rattle.std.specs.Prelude.{◌≡◌, ◌≤◌, ◌-◌, IfOk, length};
ghost use Rattle.std.specs.List.{range_with_len};
ghost use Rattle.random_draw.specs.Order.{order_of, shuffled_from};

use fund_base::{Memory, Places};
use rand_chacha::ChaCha20Rng;
use rand_core::SeedableRng;
use rand_core::utils::NextWord;
use std::alloc::Global;

/// The places from 0 to `count` - 1.
#[tactic(auto, using(crate::proofs::OrderLaws::one_more_place))]
fn rising(alloc: Global, count: u32) -> Result<Vec<u32>, Memory>
    ensures { IfOk result (λ places. places.items ≡ range_with_len 0 count) }
{
    let mut places = Vec::with_capacity(alloc, count as usize)?;
    for place in 0..count {
        places.push(place)?;
    }
    Ok(places)
}

/// Exchanges the entries from the last one down to number 1, each with the one whose number is what the next word
/// leaves when it is divided by how many entries there are up to it. The words are those of ChaCha20, stream 0.
fn shuffle(seed: [u8; 32], places: &mut [u32])
    requires { length places.old ≤ 10_000 }
    ensures { places.new ≡ shuffled_from seed 0 (length places.old - 1) places.old }
{
    let mut words = ChaCha20Rng::from_seed(seed);
    let mut last = places.len().saturating_sub(1);
    while last > 0 {
        let word = words.next_word();
        places.swap(last, word as usize % (last + 1));
        last -= 1;
    }
}

/// The places from 0 to `count` - 1, at most 10,000, in the order into which a seed shuffles them (Fisher and Yates):
/// the entries from the last one down to number 1 are exchanged, each with the one whose number is what the next word
/// of ChaCha20, stream 0, leaves when it is divided by how many entries there are up to it. The error is out of
/// memory.
pub fn order(alloc: Global, count: u32, seed: [u8; 32]) -> Result<Places, Memory>
    requires { count ≤ 10_000 }
    ensures { IfOk result (λ places. places ≡ order_of seed count) }
{
    let mut places = rising(alloc, count)?;
    shuffle(seed, places.as_mut_slice());
    Ok(Places::new(places))
}

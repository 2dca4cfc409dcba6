//! Transactions as a graph: each stands at a place, with the places of its parents before it.

ghost use Rattle.std.specs.Prelude.{◌≡◌, ◌<◌, IfOk, All, length, map, vec_len};
ghost use Rattle.payment_states.specs.Graph.{IsInOrder, below, kin};
ghost use Rattle.payment_states.specs.Least.{least_by, lesser, value_at};

use fund_base::Memory;
use std::alloc::Global;
use std::marker::Model;

/// The places of the parents of one transaction.
#[derive(Drop)]
pub struct Parents {
    places: Vec<usize>,
}

impl Model for Parents {
    ghost use Rattle.std.specs.Prelude.{List, ℕ};

    ghost Value = { List ℕ };

    ghost view = { λ p. p.places.items };
}

impl Parents {
    /// Parents at these places.
    pub(crate) fn new(places: Vec<usize>) -> Parents
        ensures { result ≡ places.items }
    {
        Parents { places }
    }

    /// Their places.
    pub fn as_slice(&self) -> &[usize]
        ensures { result.now ≡ self.now }
    {
        self.places.as_slice()
    }
}

/// The lesser of two numbers, of those that there are.
pub fn lesser(a: Option<u64>, b: Option<u64>) -> Option<u64>
    ensures { result ≡ lesser a b }
{
    match (a, b) {
        (Some(m), Some(n)) => Some(m.min(n)),
        (Some(m), None) => Some(m),
        (None, b) => b,
    }
}

/// The least of a place's own value and those of its parents.
fn least_from(own: Option<u64>, least: &[Option<u64>], parents: &[usize]) -> Option<u64>
    requires { All (λ p. p < length least.now) parents.now }
    ensures { result ≡ lesser own (least_by (value_at least.now) parents.now) }
{
    let mut here = own;
    for parent in parents {
        here = lesser(here, least[*parent]);
    }
    here
}

/// At each place the least of the values of it and its ancestors.
pub fn least_of_kin(
    alloc: Global,
    parents: &[Parents],
    own: &[Option<u64>],
) -> Result<Vec<Option<u64>>, Memory>
    requires order { IsInOrder parents.now }
    requires same { length own.now ≡ length parents.now }
    ensures least { IfOk result (λ v. v.items ≡ map (λ i. least_by (value_at own.now) (kin parents.now i)) (below (length parents.now))) }
    ensures len { IfOk result (λ v. vec_len v ≡ length parents.now) }
{
    let mut least = Vec::new(alloc);
    for place in 0..parents.len() {
        let here = &parents[place];
        let value = least_from(own[place], &least, here.as_slice());
        least.push(value)?;
    }
    Ok(least)
}

//! A few items, without a heap.
ghost use Rattle.std.specs.Prelude.{◌≡◌, map, take};
ghost use Rattle.bank.specs.Limits.{set_size};
ghost use Rattle.table.specs.Sets.{item_of};

use crate::entry::Entry;
use bank::SET_SIZE;
use kinds::Kind;
use std::marker::Model;

// Of our own, though the kit has such a vector: nothing is trusted here but the toolchain and its standard library.
/// Up to eight items, in order.
#[derive(Drop)]
pub struct Items {
    places: [usize; SET_SIZE],
    used: usize,
}

impl Model for Items {
    ghost use Rattle.std.specs.Prelude.{◌≡◌, ◌≤◌, ◌-◌, List, ℕ, take, drop, replicate};
    ghost use Rattle.bank.specs.Limits.{set_size};

    ghost Value = { List ℕ };

    ghost view = { λ s. take s.used s.places };

    // zeros stand behind them
    ghost invariant = { λ s. (s.used ≤ set_size) × (drop s.used s.places ≡ replicate (set_size - s.used) 0) };
}

impl Items {
    /// The items, one after the other.
    pub fn as_slice(&self) -> &[usize]
        ensures { result.now ≡ self.now }
    {
        &self.places[..self.used]
    }
}

// The items of the first eight entries of a set. By index: with a `push` for each, a step at K took half as much time again.
pub(crate) fn items_in<V: Kind>(set: &[Entry<V>]) -> Items
    ensures { result ≡ take set_size (map item_of set.now) }
{
    let mut places = [0; SET_SIZE];
    let used = set.len().min(SET_SIZE);
    for at in 0..used {
        places[at] = set[at].item as usize;
    }
    Items { places, used }
}

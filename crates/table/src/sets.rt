//! What a set, a run of entries, holds.
ghost use Rattle.std.specs.Prelude.{◌≡◌, ◌≤◌, ◌<◌, length, slice_set, IfSome};
ghost use Rattle.table.specs.Sets.{entry_at, set_of, find, place, slot, lower, lowest};

use crate::entry::{Entry, Part};
use kinds::Kind;

// The entry at an index; past the end a blank one.
pub fn entry_in<V: Kind>(entries: &[Entry<V>], at: usize) -> Entry<V>
    ensures { result ≡ entry_at V.blank entries.now at }
{
    entries.get(at).copied().unwrap_or_else(|| Entry::blank())
}

// Puts an entry at an index; past the end nothing is done.
pub fn put_in<V: Kind>(entries: &mut [Entry<V>], at: usize, entry: Entry<V>)
    ensures { entries.new ≡ slice_set entries.old at entry }
{
    // by index: after `get_mut` a proof knows no element of the slice
    if at < entries.len() {
        entries[at] = entry;
    }
}

// The first `size` entries of a process's part, or as many as the table has.
pub fn set_in<V: Kind>(entries: &[Entry<V>], process: u8, part: Part, size: u8) -> &[Entry<V>]
    ensures set { result.now ≡ set_of entries.now process part size }
    ensures few { length result.now ≤ size }
{
    let first = part.start(process).min(entries.len());
    let end = (first + size as usize).min(entries.len());
    &entries[first..end]
}

// The first entry that has the item.
pub fn find_in<V: Kind>(set: &[Entry<V>], item: u8) -> Option<Entry<V>>
    ensures { result ≡ find item set.now }
{
    set.iter().copied().find(|entry| entry.item == item)
}

// Where the first entry that has the item stands, or where the set ends.
pub fn slot_in<V: Kind>(set: &[Entry<V>], item: u8) -> usize
    ensures slot { result ≡ slot item set.now }
    ensures within { result ≤ length set.now }
{
    place_in(set, item).unwrap_or(set.len())
}

// The place of the first entry that has the item.
fn place_in<V: Kind>(set: &[Entry<V>], item: u8) -> Option<usize>
    ensures place { result ≡ place item set.now }
    ensures within { IfSome result (λ i. i < length set.now) }
{
    set.iter().position(|entry| entry.item == item)
}

// The lower of an item and the best so far, among those not below `from`. (As a chain of `filter` and `min` over both
// sets: tried, the proof did not close.)
fn lower_of(from: usize, item: u8, best: Option<u8>) -> Option<u8>
    ensures { result ≡ lower from item best }
{
    if (item as usize) < from {
        return best;
    }
    match best {
        Some(b) if b <= item => best,
        _ => Some(item),
    }
}

// The lowest item not below `from`, of the set's and of the best so far.
pub fn lowest_in<V: Kind>(set: &[Entry<V>], from: usize, best: Option<u8>) -> Option<u8>
    ensures { result ≡ lowest from best set.now }
{
    set.iter()
        .fold(best, |found, entry| lower_of(from, entry.item, found))
}

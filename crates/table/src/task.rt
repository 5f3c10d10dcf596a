//! What a process has of the table.
ghost use Rattle.std.specs.Prelude.{◌≡◌, ◌+◌, ◌≤◌, map, length, take};
ghost use Rattle.bank.specs.Limits.{set_size};
ghost use Rattle.table.specs.Sets.{find, item_of};
ghost use Rattle.table.specs.Tasks.{seen, set_at, found, write_slot, next_item, unlock_sequence};

use crate::entry::{Entry, Part, Sizes};
use crate::items::{Items, items_in};
use crate::sets::{entry_in, find_in, lowest_in, set_in, slot_in};
use kinds::Kind;

/// A process's number and its two sets, over the table.
#[derive(Clone, Copy)]
pub struct Task<'t, V> {
    pub(crate) entries: &'t [Entry<V>],
    pub(crate) me: u8,
    pub(crate) sizes: Sizes,
}

impl<'t, V: Kind> Task<'t, V> {
    /// The process's number.
    pub fn me(&self) -> u8
        ensures { result ≡ (seen V.blank self.now).me }
    {
        self.me
    }

    /// The sizes of the two sets.
    pub fn sizes(&self) -> Sizes
        ensures { result ≡ (seen V.blank self.now).sizes }
    {
        self.sizes
    }

    /// An entry of a part; past the table's end a blank one.
    pub fn entry(&self, part: Part, at: u8) -> Entry<V>
        ensures { result ≡ (seen V.blank self.now).entry part at }
    {
        entry_in(self.entries, part.start(self.me) + at as usize)
    }

    // The set in a part.
    fn set(&self, part: Part) -> &'t [Entry<V>]
        ensures set { result.now ≡ set_at (seen V.blank self.now) part }
        ensures few { length result.now ≤ 255 }
    {
        set_in(self.entries, self.me, part, self.sizes.of(part))
    }

    /// The entry of a part's set that has the item.
    pub fn find(&self, part: Part, item: u8) -> Option<Entry<V>>
        ensures { result ≡ find item (set_at (seen V.blank self.now) part) }
    {
        find_in(self.set(part), item)
    }

    /// The entry that a read of the item finds: the write set's, else the read set's.
    pub fn found(&self, item: u8) -> Option<Entry<V>>
        ensures { result ≡ found (seen V.blank self.now) item }
    {
        let written = self.find(Part::Writes, item);
        if written.is_some() {
            return written;
        }
        self.find(Part::Reads, item)
    }

    /// Where the item stands in the write set, or where that ends.
    pub fn write_slot(&self, item: u8) -> u8
        ensures { result ≡ write_slot (seen V.blank self.now) item }
    {
        slot_in(self.set(Part::Writes), item) as u8
    }

    /// The lowest item of the data set that is not below `from`.
    pub fn next_item(&self, from: usize) -> Option<u8>
        ensures { result ≡ next_item (seen V.blank self.now) from }
    {
        let best = lowest_in(self.set(Part::Reads), from, None);
        lowest_in(self.set(Part::Writes), from, best)
    }

    /// The number with which an item is unlocked: the write set's, else the read set's, else 0.
    pub fn unlock_sequence(&self, item: u8) -> u64
        ensures { result ≡ unlock_sequence (seen V.blank self.now) item }
    {
        self.found(item).map_or(0, |entry| entry.sequence)
    }

    /// The items of the first eight entries of the write set.
    pub fn write_items(&self) -> Items
        ensures { result ≡ take set_size (map item_of (seen V.blank self.now).writes) }
    {
        items_in(self.set(Part::Writes))
    }
}

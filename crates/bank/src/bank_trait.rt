//! The primitives of a bank. Each is one step of the store that no other task cuts into.
ghost use Rattle.std.specs.Borrow.{GName};
ghost use Rattle.std.specs.Prelude.{◌≡◌, List, [], length, take};
ghost use Rattle.bank.specs.declared.record.Record.{Record};
ghost use Rattle.bank.specs.Cells.{cell_at, has, stores_lock, swaps_lock, swaps_count, all_zero, change, with_lock, with_value, with_count};
ghost use Rattle.bank.specs.Limits.{set_size};

use crate::limits::SET_SIZE;
use crate::lock::Lock;
use kinds::Kind;

/// Items numbered from 0, each with a value of the bank's kind, a lock and a reader count.
pub trait Bank {
    type Value: Kind;

    // the record of each item, by its number
    ghost cells: { Self → List (Record Self.Value) };

    // the names of the lent memory that the bank stands on, so that the lender can tell what it holds afterwards;
    // each function says that they stay, since no type can: whoever has a `&mut` may put another bank behind it
    ghost places: { Self → List GName } = { λ _. [] };

    /// How many items there are.
    fn items(&self) -> usize
        ensures { result ≡ length (cells self.now) };

    /// The item's lock; owner and number 0 for an item that there is not.
    fn read_lock(&self, item: usize) -> Lock
        ensures { result ≡ (cell_at Self.Value.Kind.blank (cells self.now) item).lock };

    /// The item's value; the blank for an item that there is not.
    fn read_value(&self, item: usize) -> Self::Value
        ensures { result ≡ (cell_at Self.Value.Kind.blank (cells self.now) item).value };

    /// The item's reader count; 0 for an item that there is not.
    fn read_count(&self, item: usize) -> u8
        ensures { result ≡ (cell_at Self.Value.Kind.blank (cells self.now) item).count };

    /// Makes the lock the item's. Answers whether there is the item and the lock is storable; else nothing changes.
    fn write_lock(&mut self, item: usize, lock: Lock) -> bool
        ensures answer { result ≡ stores_lock (cells self.old) item lock }
        ensures after { cells self.new ≡ change result (with_lock lock) Self.Value.Kind.blank (cells self.old) item }
        ensures stays { places self.new ≡ places self.old };

    /// Makes the value the item's. Answers whether there is the item; else nothing changes.
    fn write_value(&mut self, item: usize, value: Self::Value) -> bool
        ensures answer { result ≡ has (cells self.old) item }
        ensures after { cells self.new ≡ change result (with_value value) Self.Value.Kind.blank (cells self.old) item }
        ensures stays { places self.new ≡ places self.old };

    /// Makes the lock the item's exactly when the item has the expected one. Answers whether it did; else nothing changes.
    fn swap_lock(&mut self, item: usize, expected: Lock, lock: Lock) -> bool
        ensures answer { result ≡ swaps_lock Self.Value.Kind.blank (cells self.old) item expected lock }
        ensures after { cells self.new ≡ change result (with_lock lock) Self.Value.Kind.blank (cells self.old) item }
        ensures stays { places self.new ≡ places self.old };

    /// Makes the count the item's exactly when the item has the expected one. Answers whether it did; else nothing changes.
    fn swap_count(&mut self, item: usize, expected: u8, count: u8) -> bool
        ensures answer { result ≡ swaps_count Self.Value.Kind.blank (cells self.old) item expected count }
        ensures after { cells self.new ≡ change result (with_count count) Self.Value.Kind.blank (cells self.old) item }
        ensures stays { places self.new ≡ places self.old };

    /// Whether each of the first 8 of the items given has a count of 0.
    fn all_zero(&self, items: &[usize]) -> bool
        ensures { result ≡ all_zero Self.Value.Kind.blank (cells self.now) (take set_size items.now) }
    {
        let asked = items.get(..SET_SIZE).unwrap_or(items);
        asked.iter().all(|item| self.read_count(*item) == 0)
    }
}

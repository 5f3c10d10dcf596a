//! A bank over a lent table of records, of any kind: item i is record i.
#![tactic(auto)]

ghost use Rattle.std.specs.Prelude.{◌≡◌, ◌&&◌, [], ◌∷◌, slice_set, cond, IsTrue};
ghost use Rattle.std.specs.Fn.{FnOnceReturnsAtMut};
ghost use Rattle.record_bank.specs.Lent.{records_of, place_of};
ghost use Rattle.bank.specs.Cells.{cell_at, has};

use bank::{Bank, Lock, MOST_PROCESSES, Record};
use kinds::Kind;

/// The bank; whoever lent the records has them back, as the bank left them, when it is dropped.
#[derive(Drop)]
pub struct RecordBank<'a, V: Kind> {
    records: &'a mut [Record<V>],
}

impl<'a, V: Kind> RecordBank<'a, V> {
    /// The bank of these records, as they are.
    pub fn new(records: &'a mut [Record<V>]) -> RecordBank<'a, V>
        ensures cells { records_of result ≡ records.old }
        ensures places { place_of result ≡ records.entry.ghost_name }
    {
        RecordBank { records }
    }

    // The item's record; for an item that there is not the blank, free and with no readers.
    fn record(&self, item: usize) -> Record<V>
        ensures { result ≡ cell_at V.blank (records_of self.now) item }
    {
        self.records
            .get(item)
            .copied()
            .unwrap_or_else(|| Record::new(V::blank()))
    }

    // Changes the item's record, in place. Answers whether there is the item and it may; else nothing changes.
    fn update<F: FnOnce(&mut Record<V>)>(&mut self, item: usize, may: bool, change: F) -> bool
        requires { F.IsAlwaysCallable change }
        ensures answer { result ≡ (has (records_of self.old) item && may) }
        ensures by { IsTrue result → FnOnceReturnsAtMut F.FnOnce change (cell_at V.blank (records_of self.old) item) tt (cell_at V.blank (records_of self.new) item) }
        ensures after { records_of self.new ≡ cond result (slice_set (records_of self.old) item (cell_at V.blank (records_of self.new) item)) (records_of self.old) }
        ensures stays { place_of self.new ≡ place_of self.old }
    {
        if !may || item >= self.records.len() {
            return false;
        }
        change(&mut self.records[item]);
        true
    }
}

impl<V: Kind> Bank for RecordBank<'_, V> {
    type Value = V;

    ghost cells = { records_of };

    ghost places = { λ b. place_of b ∷ [] };

    fn items(&self) -> usize {
        self.records.len()
    }

    fn read_lock(&self, item: usize) -> Lock {
        self.record(item).lock
    }

    fn read_value(&self, item: usize) -> V {
        self.record(item).value
    }

    fn read_count(&self, item: usize) -> u8 {
        self.record(item).count
    }

    fn write_lock(&mut self, item: usize, lock: Lock) -> bool {
        let may = lock.is_storable();
        self.update(item, may, |record| record.lock = lock)
    }

    fn write_value(&mut self, item: usize, value: V) -> bool {
        self.update(item, true, |record| record.value = value)
    }

    fn swap_lock(&mut self, item: usize, expected: Lock, lock: Lock) -> bool {
        self.read_lock(item) == expected && self.write_lock(item, lock)
    }

    fn swap_count(&mut self, item: usize, expected: u8, count: u8) -> bool {
        let may = count <= MOST_PROCESSES && self.read_count(item) == expected;
        self.update(item, may, |record| record.count = count)
    }
}

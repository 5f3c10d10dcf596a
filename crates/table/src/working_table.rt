//! The table as the store uses it.
ghost use Rattle.std.specs.Prelude.{◌≡◌, ◌+◌, length, slice_set};
ghost use Rattle.table.specs.Lent.{entries_of, place_of};
ghost use Rattle.table.specs.Sets.{start};
ghost use Rattle.table.specs.Tasks.{task, seen};

use crate::entry::{Entry, Part, Sizes};
use crate::sets::put_in;
use crate::task::Task;
use kinds::Kind;

/// Sixteen entries a process, over the slice that is lent.
#[derive(Drop)]
pub struct Table<'a, V: Kind> {
    entries: &'a mut [Entry<V>],
}

impl<'a, V: Kind> Table<'a, V> {
    /// The table of these entries, as they are.
    pub fn new(entries: &'a mut [Entry<V>]) -> Table<'a, V>
        ensures entries { entries_of result ≡ entries.old }
        ensures place { place_of result ≡ entries.entry.ghost_name }
    {
        Table { entries }
    }

    /// How many entries there are.
    pub fn len(&self) -> usize
        ensures { result ≡ length (entries_of self.now) }
    {
        self.entries.len()
    }

    /// What a process has of the table, whose sets have these sizes.
    pub fn task(&self, process: u8, sizes: Sizes) -> Task<'_, V>
        ensures { seen V.blank result ≡ task V.blank (entries_of self.now) process sizes }
    {
        Task {
            entries: self.entries,
            me: process,
            sizes,
        }
    }

    /// Puts an entry into a process's part; past the table's end nothing is done.
    pub fn put(&mut self, process: u8, part: Part, at: u8, entry: Entry<V>)
        ensures after { entries_of self.new ≡ slice_set (entries_of self.old) (start process part + at) entry }
        ensures stays { place_of self.new ≡ place_of self.old }
    {
        put_in(self.entries, part.start(process) + at as usize, entry);
    }
}

//! Entries, and where a process's entries stand.
ghost use Rattle.std.specs.Prelude.{◌≡◌};
ghost use Rattle.table.specs.Sets.{start, blank_entry, size_of};

use bank::SET_SIZE;
use kinds::Kind;

/// How many entries of the table each process has: its read set, then its write set.
pub const ENTRIES: usize = 2 * SET_SIZE;

/// An item with the value that was read or is to be written, and the item's sequence number.
#[derive(Clone, Copy, PartialEq, Eq, Debug)]
pub struct Entry<V> {
    pub item: u8,
    pub sequence: u64,
    pub value: V,
}

impl<V: Kind> Entry<V> {
    /// Item 0 with the number 0 and the blank value, as an entry past the table's end reads.
    pub fn blank() -> Entry<V>
        ensures { result ≡ blank_entry V.blank }
    {
        Entry {
            item: 0,
            sequence: 0,
            value: V::blank(),
        }
    }
}

/// One of a process's two parts of the table.
#[derive(Clone, Copy, PartialEq, Eq, Debug)]
pub enum Part {
    Reads,
    Writes,
}

impl Part {
    /// Where the process's part begins.
    pub fn start(self, process: u8) -> usize
        ensures { result ≡ start process self }
    {
        let first = ENTRIES * process.saturating_sub(1) as usize;
        match self {
            Part::Reads => first,
            Part::Writes => first + SET_SIZE,
        }
    }
}

/// How many entries of a process's parts are its read set and its write set.
#[derive(Clone, Copy, PartialEq, Eq, Debug, Default)]
pub struct Sizes {
    pub reads: u8,
    pub writes: u8,
}

impl Sizes {
    /// The size of the set in a part.
    pub fn of(self, part: Part) -> u8
        ensures { result ≡ size_of part self }
    {
        match part {
            Part::Reads => self.reads,
            Part::Writes => self.writes,
        }
    }
}

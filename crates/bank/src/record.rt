//! What a bank keeps for one item.
ghost use Rattle.std.specs.Prelude.{◌≡◌};
ghost use Rattle.bank.specs.Cells.{absent};

use crate::lock::Lock;

/// The three cells of an item: its value, its lock, and how many processes are reading it.
#[derive(Clone, Copy, Debug, PartialEq, Eq)]
pub struct Record<V> {
    pub value: V,
    pub lock: Lock,
    pub count: u8,
}

impl<V> Record<V> {
    /// The value, free and with no readers.
    pub fn new(value: V) -> Record<V>
        ensures { result ≡ absent value }
    {
        Record {
            value,
            lock: Lock::free(),
            count: 0,
        }
    }
}

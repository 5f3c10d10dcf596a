//! Locks.
ghost use Rattle.std.specs.Prelude.{◌≡◌};
ghost use Rattle.bank.specs.Cells.{free, storable, same_lock};

use crate::limits::{MOST_PROCESSES, MOST_SEQUENCE};

/// An owner, 0 for none, and a sequence number, always read and written together.
#[derive(Clone, Copy, Debug, PartialEq, Eq)]
pub struct Lock {
    // a number with 0 for none, since a lock's word has it so and any of 256 owners may stand in lent memory: a rule of the
    // project
    pub owner: u8,
    pub sequence: u64,
}

impl Lock {
    /// No owner, and the number 0.
    pub const fn free() -> Lock
        ensures { result ≡ free }
    {
        Lock {
            owner: 0,
            sequence: 0,
        }
    }

    /// Whether a bank stores it: its owner is at most 16 and its number at most 2^56 − 1.
    pub fn is_storable(self) -> bool
        ensures { result ≡ storable self }
    {
        self.owner <= MOST_PROCESSES && self.sequence <= MOST_SEQUENCE
    }

    /// Whether both have the same owner and the same number.
    pub fn is_same(self, other: Lock) -> bool
        ensures { result ≡ same_lock self other }
    {
        self == other
    }
}

//! Places.
use bank::Lock;

/// Where a process stands: closed, idle in an open transaction, or before the row that its next step runs.
#[derive(Clone, Copy, PartialEq, Eq, Debug)]
pub enum Place {
    /// No transaction is open.
    Closed,
    /// A transaction is open and no operation is under way.
    Idle,
    /// Reads the item's count.
    R1 {
        item: u8,
    },
    /// Counts in: swaps the count for one more.
    R2 {
        item: u8,
        count: u8,
    },
    /// Reads the item's lock.
    R3 {
        item: u8,
    },
    /// Reads the item's value; the read ends here if the lock has no owner.
    R4 {
        item: u8,
        lock: Lock,
    },
    /// Reads the status of the lock's owner, and ends the read.
    R5 {
        item: u8,
        lock: Lock,
    },
    /// Reads the count of entry `at` of the read set; `abort` if the transaction is to be aborted.
    D1 {
        at: u8,
        abort: bool,
    },
    /// Counts out: swaps the count for one less.
    D2 {
        at: u8,
        count: u8,
        abort: bool,
    },
    /// Commits a read-only transaction.
    C,
    /// Reads the lock of an item of the data set.
    L1 {
        item: u8,
    },
    /// Reads the item's value; the sequence number is compared here if the lock has no owner.
    L2 {
        item: u8,
        lock: Lock,
    },
    /// Reads the status of the lock's owner, and compares the sequence number.
    L3 {
        item: u8,
        lock: Lock,
    },
    /// Takes the lock.
    L4 {
        item: u8,
        sequence: u64,
    },
    /// Commits an update transaction once nobody reads what it writes.
    K,
    /// Writes the value of entry `at` of the write set.
    W {
        at: u8,
    },
    /// Unlocks an item of the data set.
    U {
        item: u8,
    },
    /// Aborting, because of the item `cause` or by choice: reads the item's lock.
    A1 {
        item: u8,
        cause: Option<u8>,
    },
    /// Gives up the lock, which this process owns.
    A2 {
        item: u8,
        sequence: u64,
        cause: Option<u8>,
    },
    /// Sets the status to aborted.
    A3 {
        cause: Option<u8>,
    },
}

//! The limits that banks and stores share; `specs/Limits.antt` has the same numbers for the contracts.

/// The most items that a store serves.
pub const MOST_ITEMS: usize = 64;

/// The most processes of a store: the highest owner, and the highest count of readers.
pub const MOST_PROCESSES: u8 = 16;

/// The highest sequence number of a lock, 2^56 − 1.
pub const MOST_SEQUENCE: u64 = 0xff_ffff_ffff_ffff;

/// The most entries of a read set or a write set.
pub const SET_SIZE: usize = 8;

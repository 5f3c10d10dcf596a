//! Banks: for each item of the store a value, a lock and a count of its readers.
#![tactic(auto)]

pub mod bank_trait;
pub mod limits;
pub mod lock;
pub mod record;

pub use bank_trait::Bank;
pub use limits::{MOST_ITEMS, MOST_PROCESSES, MOST_SEQUENCE, SET_SIZE};
pub use lock::Lock;
pub use record::Record;

//! The working table: what each process has read and is going to write, over entries that the caller lends.
#![tactic(auto)]

pub mod entry;
pub mod items;
mod sets;
pub mod task;
pub mod working_table;

pub use entry::{ENTRIES, Entry, Part, Sizes};
pub use items::Items;
pub use task::Task;
pub use working_table::Table;

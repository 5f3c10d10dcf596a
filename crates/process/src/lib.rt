//! A process of the store, and its one step at a time.
#![tactic(auto)]

pub mod answer;
pub mod record;
mod stepping;

pub use answer::Answer;
pub use record::{Process, Status};

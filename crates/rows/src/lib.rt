//! The rows of the step table: where a process stands, what is asked of the bank there, and where it goes from there.
#![tactic(auto)]

pub mod asking;
pub mod next;
pub mod place;

pub use asking::{Reply, ask};
pub use place::Place;

//! The bench player: a script in, what each of its lines told out.
#![tactic(auto)]

pub mod drive;
pub mod fault;
pub mod report;
pub mod session;
pub mod turn;
mod values;

pub use drive::play_settings;
pub use fault::{Cause, Fault};
pub use report::Report;
pub use session::{MOST_INPUT, play};
pub use turn::play_line;

//! The kinds of value that a bank can keep, each packed into one 64-bit word.
#![tactic(auto)]

pub mod kind;
pub mod knot;
pub mod setting;

pub use kind::Kind;
pub use knot::Knot;
pub use setting::Setting;

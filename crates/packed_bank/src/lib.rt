//! A bank over lent 64-bit words, three an item: the lock, the count and the packed value.
#![tactic(auto)]

pub mod packed;
mod words;

pub use packed::PackedBank;

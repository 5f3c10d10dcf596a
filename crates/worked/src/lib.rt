//! Examples worked through: theorems on the definitions, and vectors as tests.
#![tactic(auto)]

#[cfg(test)]
mod bank_tests;
#[cfg(test)]
mod desk;
#[cfg(test)]
mod history_tests;
#[cfg(test)]
mod refusal_tests;
#[cfg(test)]
mod script_tests;
#[cfg(test)]
mod slip_tests;
#[cfg(test)]
mod word_tests;
pub mod words;

pub use words::packing_examples;

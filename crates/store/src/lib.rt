//! The store: transactions of up to 16 processes over the items of a bank, one primitive a step.
#![tactic(auto)]

pub mod answer;
pub mod calling;
pub mod calls;
mod checks;
pub mod stored;

pub use answer::{Ending, Refusal};
pub use calling::Call;
pub use process::Answer;
pub use stored::Store;

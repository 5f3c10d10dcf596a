//! Tickets: a task's hold on its transaction, which it cannot lose on the way.
//!
//! A begin hands out an open ticket, and a try-commit or an abort that is accepted turns it into a closing one.
//! That is spent by `finish`, once the transaction has ended. No ticket may be let go in another way.
#![tactic(auto)]

pub mod closing;
pub mod open;
pub mod ticket;

pub use closing::ClosingTicket;
pub use open::{OpenTicket, Refused};
pub use ticket::{Closing, Open, Stage, Ticket};

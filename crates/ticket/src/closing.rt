//! The ticket of a transaction that is being committed or aborted.
ghost use Rattle.std.specs.Prelude.{◌≡◌};
ghost use Rattle.store.specs.Endings.{ended_in};
ghost use Rattle.ticket.specs.Tickets.{ended, Back};

use crate::ticket::{Closing, Ticket};
use store::{Ending, Store};

/// A hold on a transaction that is being committed or aborted: it may step, and `finish` spends it.
pub type ClosingTicket = Ticket<Closing>;

impl Ticket<Closing> {
    /// Spends the ticket if the process's latest transaction has ended, and says how; else hands it back.
    /// Without any transaction it tells aborted, and it refuses nothing.
    pub fn finish(self, store: &Store) -> Result<Ending, ClosingTicket>
        ensures ending { ended result ≡ ended_in store.now self.process }
        ensures ticket { Back result self.process }
    {
        match store.ending(self.process) {
            Some(ending) => {
                let _ = self.spend();
                Ok(ending)
            }
            None => Err(self),
        }
    }
}

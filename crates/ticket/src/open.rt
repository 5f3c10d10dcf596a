//! The ticket of an open transaction.
ghost use Rattle.std.specs.Prelude.{◌≡◌};
ghost use Rattle.table.specs.Lent.{entries_of, place_of};
ghost use Rattle.store.specs.Calls.{begin as begin_def, try_commit as try_commit_def, abort as abort_def};
ghost use Rattle.store.specs.Model.{outcome, state};
ghost use Rattle.process.specs.Tells.{done, going};
ghost use Rattle.ticket.specs.Tickets.{told_as, Begun, closing_told, holder_of};

use crate::closing::ClosingTicket;
use crate::ticket::{Closing, Open, Ticket};
use bank::Bank;
use store::{Answer, Refusal, Store};
use table::Table;

/// A hold on an open transaction: it may read, write and step, and a try-commit or an abort turns it into a closing one.
pub type OpenTicket = Ticket<Open>;

/// A try-commit or an abort that was refused: the ticket is as open as before.
pub struct Refused {
    pub ticket: OpenTicket,
    pub refusal: Refusal,
}

impl Ticket<Open> {
    /// Begins a transaction of the process, and hands out its ticket.
    pub fn begin<B: Bank>(
        store: &mut Store,
        bank: &mut B,
        table: &mut Table<'_, B::Value>,
        process: usize,
    ) -> Result<OpenTicket, Refusal>
        ensures exact { outcome (told_as done result) (state (B.cells bank.new) store.new (entries_of table.new)) ≡ begin_def B.Value.blank (state (B.cells bank.old) store.old (entries_of table.old)) process }
        ensures ticket { Begun result process }
        ensures bank { B.places bank.new ≡ B.places bank.old }
        ensures table { place_of table.new ≡ place_of table.old }
    {
        store.begin(bank, table, process)?;
        Ok(Ticket {
            process,
            stage: Open,
        })
    }

    // The closing ticket of a transaction whose end has started; of one whose end was refused, this one. Whose it is, this and
    // the two public ends say: the ticket before is gone by then, so no field of the new one can name it.
    fn close<V: Copy>(self, started: Result<Answer<V>, Refusal>) -> Result<ClosingTicket, Refused>
        ensures told { closing_told result ≡ told_as {V = V} going started }
        ensures ticket { holder_of result ≡ self.process }
    {
        match started {
            Ok(_) => Ok(Ticket {
                process: self.spend(),
                stage: Closing,
            }),
            Err(refusal) => Err(Refused {
                ticket: self,
                refusal,
            }),
        }
    }

    /// Starts to commit the transaction. A refusal hands the ticket back.
    pub fn try_commit<B: Bank>(
        self,
        store: &mut Store,
        bank: &mut B,
        table: &mut Table<'_, B::Value>,
    ) -> Result<ClosingTicket, Refused>
        ensures exact { outcome (closing_told result) (state (B.cells bank.new) store.new (entries_of table.new)) ≡ try_commit_def B.Value.blank (state (B.cells bank.old) store.old (entries_of table.old)) self.process }
        ensures ticket { holder_of result ≡ self.process }
        ensures bank { B.places bank.new ≡ B.places bank.old }
        ensures table { place_of table.new ≡ place_of table.old }
    {
        let started = store.try_commit(bank, table, self.process);
        self.close(started)
    }

    /// Starts to abort the transaction, by choice. A refusal hands the ticket back.
    pub fn abort<B: Bank>(
        self,
        store: &mut Store,
        bank: &mut B,
        table: &mut Table<'_, B::Value>,
    ) -> Result<ClosingTicket, Refused>
        ensures exact { outcome (closing_told result) (state (B.cells bank.new) store.new (entries_of table.new)) ≡ abort_def B.Value.blank (state (B.cells bank.old) store.old (entries_of table.old)) self.process }
        ensures ticket { holder_of result ≡ self.process }
        ensures bank { B.places bank.new ≡ B.places bank.old }
        ensures table { place_of table.new ≡ place_of table.old }
    {
        let started = store.abort(bank, table, self.process);
        self.close(started)
    }
}

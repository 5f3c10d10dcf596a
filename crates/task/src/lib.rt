//! A task that runs a whole transaction, by tickets.
#![tactic(auto)]

ghost use Rattle.std.specs.Prelude.{◌≡◌, ◌<◌};
ghost use Rattle.table.specs.Lent.{entries_of, place_of};
ghost use Rattle.store.specs.Calls.{write as write_def};
ghost use Rattle.store.specs.Model.{state};
ghost use Rattle.ticket.specs.Tickets.{holder_of};
ghost use Rattle.task.specs.Whole.{stepped, stepped_by, after_write, put as put_def, stop_left, stop_closed, stop_write, stop_put, Leaves};
ghost use Rattle.task.specs.declared.Unfinished.TheVariants.{NotBegun, Open, Closing};

use bank::Bank;
use store::{Ending, Refusal, Store};
use table::Table;
use ticket::{ClosingTicket, OpenTicket, Refused};

/// What is left of a transaction that a task tried and that did not end.
pub enum Unfinished {
    /// Nothing: its begin was refused.
    NotBegun(Refusal),
    /// An open ticket: its try-commit, or its abort, was refused.
    Open(Refused),
    /// A closing ticket: the steps did not suffice.
    Closing(ClosingTicket),
}

impl From<Refusal> for Unfinished {
    ghost from_gives = { λ refusal left. left ≡ NotBegun refusal };

    fn from(refusal: Refusal) -> Unfinished {
        Unfinished::NotBegun(refusal)
    }
}

impl From<Refused> for Unfinished {
    ghost from_gives = { λ refused left. left ≡ Open refused };

    fn from(refused: Refused) -> Unfinished {
        Unfinished::Open(refused)
    }
}

impl From<ClosingTicket> for Unfinished {
    ghost from_gives = { λ ticket left. left ≡ Closing ticket };

    fn from(ticket: ClosingTicket) -> Unfinished {
        Unfinished::Closing(ticket)
    }
}

// Store, bank and table come apart here as they do in tickets.

/// Writes one item in a transaction of its own, with so many steps for the commit.
/// Where the write is refused, the transaction is aborted.
pub fn put<B: Bank>(
    store: &mut Store,
    bank: &mut B,
    table: &mut Table<'_, B::Value>,
    process: usize,
    item: usize,
    value: B::Value,
    steps: u32,
) -> Result<Ending, Unfinished>
    ensures exact { state (B.cells bank.new) store.new (entries_of table.new) ≡ put_def B.Value.blank process item value steps (state (B.cells bank.old) store.old (entries_of table.old)) }
    ensures stop { stop_left result ≡ stop_put B.Value.blank process item value (state (B.cells bank.old) store.old (entries_of table.old)) }
    ensures left { Leaves result process store.new }
    ensures bank { B.places bank.new ≡ B.places bank.old }
    ensures table { place_of table.new ≡ place_of table.old }
{
    let ticket = OpenTicket::begin(store, bank, table, process)?;
    put_open(ticket, store, bank, table, item, value, steps)
}

// Writes one item, and commits, or aborts where the write is refused.
fn put_open<B: Bank>(
    ticket: OpenTicket,
    store: &mut Store,
    bank: &mut B,
    table: &mut Table<'_, B::Value>,
    item: usize,
    value: B::Value,
    steps: u32,
) -> Result<Ending, Unfinished>
    requires { 0 < ticket.process }
    ensures exact { state (B.cells bank.new) store.new (entries_of table.new) ≡ after_write B.Value.blank ticket.process steps (write_def B.Value.blank (state (B.cells bank.old) store.old (entries_of table.old)) ticket.process item value) }
    ensures stop { stop_left result ≡ stop_write B.Value.blank ticket.process (write_def B.Value.blank (state (B.cells bank.old) store.old (entries_of table.old)) ticket.process item value) }
    ensures left { Leaves result ticket.process store.new }
    ensures bank { B.places bank.new ≡ B.places bank.old }
    ensures table { place_of table.new ≡ place_of table.old }
{
    match ticket.write(store, bank, table, item, value) {
        Ok(_) => close(
            ticket.try_commit(store, bank, table),
            store,
            bank,
            table,
            steps,
        ),
        Err(_) => close(ticket.abort(store, bank, table), store, bank, table, steps),
    }
}

// Gives a closing transaction so many steps, and finishes it if they suffice.
fn close<B: Bank>(
    closed: Result<ClosingTicket, Refused>,
    store: &mut Store,
    bank: &mut B,
    table: &mut Table<'_, B::Value>,
    steps: u32,
) -> Result<Ending, Unfinished>
    requires { 0 < holder_of closed }
    ensures exact { state (B.cells bank.new) store.new (entries_of table.new) ≡ stepped_by B.Value.blank closed steps (state (B.cells bank.old) store.old (entries_of table.old)) }
    ensures stop { stop_left result ≡ stop_closed closed }
    ensures left { Leaves result (holder_of closed) store.new }
    ensures bank { B.places bank.new ≡ B.places bank.old }
    ensures table { place_of table.new ≡ place_of table.old }
{
    let ticket = closed?;
    run(&ticket, store, bank, table, steps);
    Ok(ticket.finish(store)?)
}

// Runs so many steps.
fn run<B: Bank>(
    ticket: &ClosingTicket,
    store: &mut Store,
    bank: &mut B,
    table: &mut Table<'_, B::Value>,
    steps: u32,
)
    ensures exact { state (B.cells bank.new) store.new (entries_of table.new) ≡ stepped B.Value.blank ticket.now.process steps (state (B.cells bank.old) store.old (entries_of table.old)) }
    ensures bank { B.places bank.new ≡ B.places bank.old }
    ensures table { place_of table.new ≡ place_of table.old }
{
    for _done in 0..steps {
        let _ = ticket.step(store, bank, table);
    }
}

//! What both tickets allow, and what an open one alone does.
ghost use Rattle.std.specs.Prelude.{◌≡◌, ℕ};
ghost use Rattle.table.specs.Lent.{entries_of, place_of};
ghost use Rattle.store.specs.Calls.{read as read_def, write as write_def, step as step_def};
ghost use Rattle.store.specs.Model.{outcome, state};
ghost use Rattle.store.specs.Tells.{told};

use bank::Bank;
use store::{Answer, Refusal, Store};
use table::Table;

/// How far a transaction is: open, or closing.
pub trait Stage: Copy {
    // that the ticket of a process may read and write at this stage
    ghost Opened: { ℕ → Type 0 };
}

/// The stage of a transaction that reads and writes.
#[derive(Clone, Copy)]
pub struct Open;

impl Stage for Open {
    ghost Opened = { λ _. Unit {0} };
}

/// The stage of a transaction that is being committed or aborted.
#[derive(Clone, Copy)]
pub struct Closing;

impl Stage for Closing {
    // only the ticket of no process, which the store refuses
    ghost Opened = { λ p. p ≡ 0 };
}

/// A task's hold on its transaction, at a stage.
pub struct Ticket<S: Stage> {
    pub(crate) process: usize,
    pub(crate) stage: S,
}

impl<S: Stage> Drop for Ticket<S> {
    // Only the ticket of no process may be let go, and no begin hands one out: abort, step and finish instead.
    fn drop(self)
        requires { self.process ≡ 0 }
    {
        let Ticket {
            process: _,
            stage: _,
        } = self;
    }
}

// Store, bank and table come apart, as in the store's calls: where a struct that lends all three ends, a proof no longer
// knows what the table holds (tried).
impl<S: Stage> Ticket<S> {
    /// The number of the process whose transaction it is.
    pub fn process(&self) -> usize
        ensures { result ≡ self.now.process }
    {
        self.process
    }

    // Spends the ticket, whose process goes on in another or has no transaction open.
    pub(crate) fn spend(self) -> usize
        ensures { result ≡ self.process }
    {
        let Ticket { process, stage: _ } = self;
        process
    }

    /// Reads an item. On a closing ticket it is refused by the prover: finish and begin again.
    pub fn read<B: Bank>(
        &self,
        store: &mut Store,
        bank: &mut B,
        table: &mut Table<'_, B::Value>,
        item: usize,
    ) -> Result<Answer<B::Value>, Refusal>
        requires { S.Opened self.now.process }
        ensures exact { outcome (told result) (state (B.cells bank.new) store.new (entries_of table.new)) ≡ read_def B.Value.blank (state (B.cells bank.old) store.old (entries_of table.old)) self.now.process item }
        ensures bank { B.places bank.new ≡ B.places bank.old }
        ensures table { place_of table.new ≡ place_of table.old }
    {
        store.read(bank, table, self.process, item)
    }

    /// Writes an item. On a closing ticket it is refused by the prover: finish and begin again.
    pub fn write<B: Bank>(
        &self,
        store: &mut Store,
        bank: &mut B,
        table: &mut Table<'_, B::Value>,
        item: usize,
        value: B::Value,
    ) -> Result<Answer<B::Value>, Refusal>
        requires { S.Opened self.now.process }
        ensures exact { outcome (told result) (state (B.cells bank.new) store.new (entries_of table.new)) ≡ write_def B.Value.blank (state (B.cells bank.old) store.old (entries_of table.old)) self.now.process item value }
        ensures bank { B.places bank.new ≡ B.places bank.old }
        ensures table { place_of table.new ≡ place_of table.old }
    {
        store.write(bank, table, self.process, item, value)
    }

    /// Runs one step of the operation that is under way.
    pub fn step<B: Bank>(
        &self,
        store: &mut Store,
        bank: &mut B,
        table: &mut Table<'_, B::Value>,
    ) -> Result<Answer<B::Value>, Refusal>
        ensures exact { outcome (told result) (state (B.cells bank.new) store.new (entries_of table.new)) ≡ step_def B.Value.blank (state (B.cells bank.old) store.old (entries_of table.old)) self.now.process }
        ensures bank { B.places bank.new ≡ B.places bank.old }
        ensures table { place_of table.new ≡ place_of table.old }
    {
        store.step(bank, table, self.process)
    }
}

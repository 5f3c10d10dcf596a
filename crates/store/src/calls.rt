//! The calls on a store.
ghost use Rattle.std.specs.Prelude.{◌≡◌, ◌-◌, ◌<◌, ◌≤◌, replicate, slice_index_or, slice_set};
ghost use Rattle.table.specs.Lent.{entries_of, place_of};
ghost use Rattle.bank.specs.Limits.{most_processes};
ghost use Rattle.table.specs.Tasks.{in_reads, in_writes};
ghost use Rattle.store.specs.Calls.{read_by, write_by, reached, begin as begin_def, read as read_def, write as write_def, try_commit as try_commit_def, abort as abort_def, closes, step as step_def, set_up as set_up_def};
ghost use Rattle.store.specs.Endings.{ended_in};
ghost use Rattle.store.specs.Model.{outcome, state, memory, task_of};
ghost use Rattle.store.specs.Tells.{told, set_up_told};
ghost use Rattle.process.specs.Traits.{Fits, fresh, traits};

use crate::answer::{Ending, Refusal};
use crate::stored::Store;
use bank::{Bank, MOST_PROCESSES, SET_SIZE};
use kinds::Kind;
use process::{Answer, Process, Status};
use rows::Place;
use table::{Entry, Part, Table};
use upkeep::clear;

// Store, bank and table come apart in each call: a call may be handed any bank and any table, and refuses one too short.
impl Store {
    /// Begins a transaction: both sets are empty and the status is null.
    pub fn begin<B: Bank>(
        &mut self,
        bank: &mut B,
        table: &mut Table<'_, B::Value>,
        process: usize,
    ) -> Result<Answer<B::Value>, Refusal>
        ensures exact { outcome (told result) (state (B.cells bank.new) self.new (entries_of table.new)) ≡ begin_def B.Value.blank (state (B.cells bank.old) self.old (entries_of table.old)) process }
        ensures bank { B.places bank.new ≡ B.places bank.old }
        ensures table { place_of table.new ≡ place_of table.old }
    {
        self.check_begin(table, process)?;
        let begun = Process {
            place: Place::Idle,
            ..Process::FRESH
        };
        self.replace(process, begun);
        self.life -= 1;
        Ok(Answer::Done)
    }

    /// Reads an item: its value if the transaction has written or read it before, else the read starts.
    pub fn read<B: Bank>(
        &mut self,
        bank: &mut B,
        table: &mut Table<'_, B::Value>,
        process: usize,
        item: usize,
    ) -> Result<Answer<B::Value>, Refusal>
        ensures exact { outcome (told result) (state (B.cells bank.new) self.new (entries_of table.new)) ≡ read_def B.Value.blank (state (B.cells bank.old) self.old (entries_of table.old)) process item }
        ensures bank { B.places bank.new ≡ B.places bank.old }
        ensures table { place_of table.new ≡ place_of table.old }
    {
        self.check_item(bank, table, process, item)?;
        self.read_item(table, process, item as u8)
    }

    /// Puts a value into the write set, in place of an earlier one of the item.
    pub fn write<B: Bank>(
        &mut self,
        bank: &mut B,
        table: &mut Table<'_, B::Value>,
        process: usize,
        item: usize,
        value: B::Value,
    ) -> Result<Answer<B::Value>, Refusal>
        ensures exact { outcome (told result) (state (B.cells bank.new) self.new (entries_of table.new)) ≡ write_def B.Value.blank (state (B.cells bank.old) self.old (entries_of table.old)) process item value }
        ensures bank { B.places bank.new ≡ B.places bank.old }
        ensures table { place_of table.new ≡ place_of table.old }
    {
        self.check_item(bank, table, process, item)?;
        self.write_item(table, process, item as u8, value)
    }

    /// Starts to commit the transaction.
    pub fn try_commit<B: Bank>(
        &mut self,
        bank: &mut B,
        table: &mut Table<'_, B::Value>,
        process: usize,
    ) -> Result<Answer<B::Value>, Refusal>
        ensures exact { outcome (told result) (state (B.cells bank.new) self.new (entries_of table.new)) ≡ try_commit_def B.Value.blank (state (B.cells bank.old) self.old (entries_of table.old)) process }
        ensures bank { B.places bank.new ≡ B.places bank.old }
        ensures table { place_of table.new ≡ place_of table.old }
    {
        self.close(bank, table, process, false)
    }

    /// Starts to abort the transaction, by choice.
    pub fn abort<B: Bank>(
        &mut self,
        bank: &mut B,
        table: &mut Table<'_, B::Value>,
        process: usize,
    ) -> Result<Answer<B::Value>, Refusal>
        ensures exact { outcome (told result) (state (B.cells bank.new) self.new (entries_of table.new)) ≡ abort_def B.Value.blank (state (B.cells bank.old) self.old (entries_of table.old)) process }
        ensures bank { B.places bank.new ≡ B.places bank.old }
        ensures table { place_of table.new ≡ place_of table.old }
    {
        self.close(bank, table, process, true)
    }

    // Starts to end the transaction: the read set is counted out, and then to abort or to commit.
    fn close<B: Bank>(
        &mut self,
        bank: &mut B,
        table: &mut Table<'_, B::Value>,
        process: usize,
        abort: bool,
    ) -> Result<Answer<B::Value>, Refusal>
        ensures exact { outcome (told result) (state (B.cells bank.new) self.new (entries_of table.new)) ≡ closes B.Value.blank (state (B.cells bank.old) self.old (entries_of table.old)) process abort }
        ensures bank { B.places bank.new ≡ B.places bank.old }
        ensures table { place_of table.new ≡ place_of table.old }
    {
        let old = self.check_operation(table, process)?;
        let place = Place::count_from(&table.task(process as u8, old.sizes), 0, abort);
        self.replace(process, Process { place, ..old });
        Ok(Answer::Going)
    }

    /// Runs one row for the process.
    pub fn step<B: Bank>(
        &mut self,
        bank: &mut B,
        table: &mut Table<'_, B::Value>,
        process: usize,
    ) -> Result<Answer<B::Value>, Refusal>
        ensures exact { outcome (told result) (state (B.cells bank.new) self.new (entries_of table.new)) ≡ step_def B.Value.blank (state (B.cells bank.old) self.old (entries_of table.old)) process }
        ensures bank { B.places bank.new ≡ B.places bank.old }
        ensures table { place_of table.new ≡ place_of table.old }
    {
        let old = self.check_step(table, process)?;
        let owned = self.recalled(table, old.place);
        match self.processes[process - 1].step(bank, table, process as u8, owned) {
            Some(answer) => Ok(answer),
            None => unreachable(),
        }
    }

    /// How the process's latest transaction ended: none while it is open, aborted if there was none.
    pub fn ending(&self, process: usize) -> Option<Ending>
        ensures { result ≡ ended_in self.now process }
    {
        let Some(latest) = self.record(process) else {
            return Some(Ending::Aborted);
        };
        match (latest.place, latest.status) {
            (Place::Closed, Status::Committed) => Some(Ending::Committed),
            (Place::Closed, _) => Some(Ending::Aborted),
            (_, _) => None,
        }
    }

    /// A store without processes; every call but set-up is refused.
    pub fn new() -> Store
        ensures processes { result.processes ≡ replicate most_processes fresh }
        ensures number { result.number ≡ 0 }
        ensures life { result.life ≡ 0 }
    {
        Store::fresh(0, 0)
    }

    // A store of so many processes that never began, with so many begins left.
    fn fresh(number: u8, life: u64) -> Store
        requires { number ≤ most_processes }
        ensures processes { result.processes ≡ replicate most_processes fresh }
        ensures number { result.number ≡ number }
        ensures life { result.life ≡ life }
    {
        Store {
            processes: [Process::FRESH; MOST_PROCESSES as usize],
            number,
            life,
        }
    }

    /// Sets the store up over a bank: every lock and count becomes 0, the values stay, and a new history begins with nothing open.
    pub fn set_up<B: Bank>(
        &mut self,
        bank: &mut B,
        table: &mut Table<'_, B::Value>,
        processes: usize,
        life: u64,
    ) -> Result<(), Refusal>
        ensures exact { outcome (set_up_told result) (state (B.cells bank.new) self.new (entries_of table.new)) ≡ set_up_def (state (B.cells bank.old) self.old (entries_of table.old)) processes life }
        ensures bank { B.places bank.new ≡ B.places bank.old }
        ensures table { place_of table.new ≡ place_of table.old }
    {
        self.check_set_up(bank, table, processes, life)?;
        clear(bank);
        *self = Store::fresh(processes as u8, life);
        Ok(())
    }

    // Reads an item that there is. That there is the process is asked here, of the next function and of `replace`, and shown by
    // the checks: a number with that fact as a type would be taken apart at each use.
    fn read_item<V: Kind>(
        &mut self,
        table: &Table<'_, V>,
        process: usize,
        item: u8,
    ) -> Result<Answer<V>, Refusal>
        requires { (0 < process) × (process ≤ self.old.number) }
        ensures { reached (told result) (memory self.new (entries_of table.now)) ≡ read_by V.blank (memory self.old (entries_of table.now)) process item (in_writes (task_of V.blank (memory self.old (entries_of table.now)) process) item) (in_reads (task_of V.blank (memory self.old (entries_of table.now)) process) item) }
    {
        let old = self.processes[process - 1];
        let task = table.task(process as u8, old.sizes);
        if let Some(entry) = task.found(item) {
            return Ok(Answer::Value(entry.value));
        }
        if old.sizes.reads as usize >= SET_SIZE {
            return Err(Refusal::SetFull);
        }
        let place = Place::R1 { item };
        self.replace(process, Process { place, ..old });
        Ok(Answer::Going)
    }

    // Writes an item that there is.
    fn write_item<V: Kind>(
        &mut self,
        table: &mut Table<'_, V>,
        process: usize,
        item: u8,
        value: V,
    ) -> Result<Answer<V>, Refusal>
        requires there { (0 < process) × (process ≤ self.old.number) }
        requires idle { (traits (slice_index_or self.old.processes (process - 1) fresh).place).ahead ≡ 0 }
        ensures exact { reached (told result) (memory self.new (entries_of table.new)) ≡ write_by V.blank (memory self.old (entries_of table.old)) process item value (in_writes (task_of V.blank (memory self.old (entries_of table.old)) process) item) }
        ensures table { place_of table.new ≡ place_of table.old }
    {
        let old = self.processes[process - 1];
        let task = table.task(process as u8, old.sizes);
        let at = task.write_slot(item);
        let mut sizes = old.sizes;
        if task.find(Part::Writes, item).is_none() {
            if sizes.writes as usize >= SET_SIZE {
                return Err(Refusal::SetFull);
            }
            sizes.writes += 1;
        }
        let entry = Entry {
            item,
            sequence: 0,
            value,
        };
        table.put(process as u8, Part::Writes, at, entry);
        self.replace(process, Process { sizes, ..old });
        Ok(Answer::Done)
    }

    // Makes the process's record anew.
    fn replace(&mut self, process: usize, new: Process)
        requires there { (0 < process) × (process ≤ most_processes) }
        requires fits { Fits new }
        ensures processes { self.new.processes ≡ slice_set self.old.processes (process - 1) new }
        ensures number { self.new.number ≡ self.old.number }
        ensures life { self.new.life ≡ self.old.life }
    {
        self.processes[process - 1] = new;
    }
}

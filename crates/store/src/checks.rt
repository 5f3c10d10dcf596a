//! On which grounds a call is refused: each check goes down its list, and the first that holds counts.
ghost use Rattle.std.specs.Prelude.{◌≡◌, ◌<◌, IfOk};
ghost use Rattle.table.specs.Lent.{entries_of};
ghost use Rattle.store.specs.Calls.{first_ground, known_grounds, open_grounds, begin_grounds, step_grounds, operation_grounds, item_refusal, set_up_grounds, holds_up, remembered as remembered_def};
ghost use Rattle.store.specs.Model.{state, memory, record_of, process as process_def};
ghost use Rattle.store.specs.Rows.{owned as owned_def, recalled as recalled_def};
ghost use Rattle.store.specs.Tells.{refused_with};
ghost use Rattle.process.specs.Traits.{traits};

use crate::answer::Refusal;
use crate::stored::Store;
use bank::{Bank, MOST_ITEMS, MOST_PROCESSES, MOST_SEQUENCE};
use kinds::Kind;
use process::{Process, Status};
use rows::Place;
use table::{ENTRIES, Entry, Part, Table};

// The owner that a process remembers at a place, or 0: an Option would be turned into 0 again at its one use.
fn remembers(place: Place) -> u8
    ensures { result ≡ (traits place).owner }
{
    match place {
        Place::R4 { lock, .. }
        | Place::R5 { lock, .. }
        | Place::L2 { lock, .. }
        | Place::L3 { lock, .. } => lock.owner,
        _ => 0,
    }
}

// Whether a process, numbered `at`, remembers p and is not p itself. No process is 0, so one that remembers none (0) is passed
// over before it is compared with p.
fn holds_up(at: usize, process: Process, p: usize) -> bool
    requires { 0 < p }
    ensures { result ≡ holds_up at process p }
{
    let owner = remembers(process.place);
    owner != 0 && at != p && owner as usize == p
}

// Whether one of the processes holds up p.
fn remembered(processes: &[Process], p: usize) -> bool
    requires { 0 < p }
    ensures { result ≡ remembered_def processes.now p }
{
    processes
        .iter()
        .enumerate()
        .any(|(k, process)| holds_up(k + 1, *process, p))
}

// Store, bank and table come apart here as in the calls.
impl Store {
    // The record of a process, if there is one of this number.
    pub(crate) fn record(&self, process: usize) -> Option<Process>
        ensures { result ≡ record_of self.now.processes self.now.number process }
    {
        let at = process.checked_sub(1)?;
        self.processes[..self.number as usize].get(at).copied()
    }

    // Grounds 1 and 2, of every call of a process: else its record. Four checks say of the record whose it is: a Result has no
    // place for a fact of its value, and a type with that fact would be opened at each use.
    fn known<V: Kind>(&self, table: &Table<'_, V>, process: usize) -> Result<Process, Refusal>
        ensures refusal { refused_with result ≡ first_ground (known_grounds (memory self.now (entries_of table.now)) process) }
        ensures record { IfOk result (λ q. q ≡ process_def (memory self.now (entries_of table.now)) process) }
    {
        if table.len() < ENTRIES * self.number as usize {
            return Err(Refusal::ShortTable);
        }
        self.record(process).ok_or(Refusal::NoProcess)
    }

    // Grounds 1, 2 and 4, of every call of an open transaction.
    fn opened<V: Kind>(&self, table: &Table<'_, V>, process: usize) -> Result<Process, Refusal>
        ensures refusal { refused_with result ≡ first_ground (open_grounds (memory self.now (entries_of table.now)) process) }
        ensures record { IfOk result (λ q. q ≡ process_def (memory self.now (entries_of table.now)) process) }
    {
        let found = self.known(table, process)?;
        match found.place {
            Place::Closed => Err(Refusal::NotOpen),
            _ => Ok(found),
        }
    }

    // Grounds 1, 2, 3, 7 and 8.
    pub(crate) fn check_begin<V: Kind>(
        &self,
        table: &Table<'_, V>,
        process: usize,
    ) -> Result<(), Refusal>
        ensures { refused_with result ≡ first_ground (begin_grounds (memory self.now (entries_of table.now)) process) }
    {
        let Place::Closed = self.known(table, process)?.place else {
            return Err(Refusal::AlreadyOpen);
        };
        if remembered(&self.processes, process) {
            return Err(Refusal::Remembered);
        }
        if self.life == 0 {
            return Err(Refusal::LifeUsed);
        }
        Ok(())
    }

    // Grounds 1, 2, 4 and 6. This and the next take idle and under way the other way round; one function for both would be
    // told which, and match on four cases in place of two.
    pub(crate) fn check_step<V: Kind>(
        &self,
        table: &Table<'_, V>,
        process: usize,
    ) -> Result<Process, Refusal>
        ensures refusal { refused_with result ≡ first_ground (step_grounds (memory self.now (entries_of table.now)) process) }
        ensures record { IfOk result (λ q. q ≡ process_def (memory self.now (entries_of table.now)) process) }
    {
        let found = self.opened(table, process)?;
        match found.place {
            Place::Idle => Err(Refusal::NotUnderWay),
            _ => Ok(found),
        }
    }

    // Grounds 1, 2, 4 and 5.
    pub(crate) fn check_operation<V: Kind>(
        &self,
        table: &Table<'_, V>,
        process: usize,
    ) -> Result<Process, Refusal>
        ensures refusal { refused_with result ≡ first_ground (operation_grounds (memory self.now (entries_of table.now)) process) }
        ensures record { IfOk result (λ q. q ≡ process_def (memory self.now (entries_of table.now)) process) }
    {
        let found = self.opened(table, process)?;
        match found.place {
            Place::Idle => Ok(found),
            _ => Err(Refusal::UnderWay),
        }
    }

    // The grounds of an operation, then 9.
    pub(crate) fn check_item<B: Bank>(
        &self,
        bank: &B,
        table: &Table<'_, B::Value>,
        process: usize,
        item: usize,
    ) -> Result<(), Refusal>
        ensures { refused_with result ≡ item_refusal (state (B.cells bank.now) self.now (entries_of table.now)) process item }
    {
        self.check_operation(table, process)?;
        if item >= bank.items() || item >= MOST_ITEMS {
            return Err(Refusal::NoItem);
        }
        Ok(())
    }

    // Grounds 11 and 1.
    pub(crate) fn check_set_up<B: Bank>(
        &self,
        bank: &B,
        table: &Table<'_, B::Value>,
        processes: usize,
        life: u64,
    ) -> Result<(), Refusal>
        ensures { refused_with result ≡ first_ground (set_up_grounds (state (B.cells bank.now) self.now (entries_of table.now)) processes life) }
    {
        let within = (1..=MOST_ITEMS).contains(&bank.items())
            && (1..=MOST_PROCESSES as usize).contains(&processes)
            && (1..=MOST_SEQUENCE).contains(&life);
        if !within {
            return Err(Refusal::OutsideLimits);
        }
        if table.len() < ENTRIES * processes {
            return Err(Refusal::ShortTable);
        }
        Ok(())
    }

    // The item's entry in the write set of an owner that has committed.
    fn owned<V: Kind>(&self, table: &Table<'_, V>, owner: u8, item: u8) -> Option<Entry<V>>
        ensures { result ≡ owned_def V.blank (memory self.now (entries_of table.now)) owner item }
    {
        match self.record(owner as usize) {
            Some(
                Process {
                    status: Status::Committed,
                    sizes,
                    ..
                },
            ) => table.task(owner, sizes).find(Part::Writes, item),
            _ => None,
        }
    }

    // The entry of the remembered owner, where the row asks for it.
    pub(crate) fn recalled<V: Kind>(&self, table: &Table<'_, V>, place: Place) -> Option<Entry<V>>
        ensures { result ≡ recalled_def V.blank (memory self.now (entries_of table.now)) place }
    {
        match place {
            Place::R5 { item, lock } | Place::L3 { item, lock } => self.owned(
                table, lock.owner, item,
            ),
            _ => None,
        }
    }
}

//! One step of a process.
ghost use Rattle.std.specs.Prelude.{◌≡◌, ◌+◌, ◌^◌, ◌<◌, ◌≤◌};
ghost use Rattle.table.specs.Lent.{entries_of, place_of};
ghost use Rattle.bank.specs.Limits.{set_size};
ghost use Rattle.rows.specs.Places.{seen_to};
ghost use Rattle.table.specs.Tasks.{task, seen, next_item, sequence_or};
ghost use Rattle.process.specs.Moves.{noted};
ghost use Rattle.process.specs.Rows.{placed, decided, read_one, fetched, settled, numbered, locked, unlock_to, written_to, move as move_def};
ghost use Rattle.process.specs.Turns.{turn_by, turned, done_by, ran, ran_by, stepped, stepped_by};
ghost use Rattle.process.specs.Traits.{traits, full};

use crate::answer::Answer;
use crate::record::{Process, Status};
use bank::{Bank, Lock, SET_SIZE};
use kinds::Kind;
use rows::{Place, Reply, ask};
use table::{Entry, Part, Table, Task};

// The number of the owner's entry, or that of the lock where it has none.
fn sequence_or<V: Kind>(sequence: u64, owned: Option<Entry<V>>) -> u64
    ensures { result ≡ sequence_or sequence owned }
{
    owned.map_or(sequence, |entry| entry.sequence)
}

// L2: without an owner the number is compared; else the owner is asked first.
fn seen<V: Kind>(task: &Task<'_, V>, item: u8, lock: Lock) -> Place
    ensures { result ≡ seen_to (seen V.blank task.now) item lock }
{
    if lock.owner == 0 {
        return Place::compared(task, item, lock.sequence);
    }
    Place::L3 { item, lock }
}

// Bank and table come apart as in the store's calls, and the process's number from the table where an entry is put: a struct
// that lends the table would need both, and a name for what it lends, at each of three calls.
impl Process {
    // Goes on at a place. (With the answer as a parameter, `go` and `wait` would be one, and eighteen calls would name it.)
    fn go<V: Kind>(&mut self, place: Place) -> Answer<V>
        ensures process { self.new ≡ placed self.old place }
        ensures answer { result ≡ Answer.Going }
    {
        self.place = place;
        Answer::Going
    }

    // Tries again at a place.
    fn wait<V: Kind>(&mut self, place: Place) -> Answer<V>
        ensures process { self.new ≡ placed self.old place }
        ensures answer { result ≡ Answer.Waiting }
    {
        self.place = place;
        Answer::Waiting
    }

    // Ends the transaction, with this answer.
    fn end<V: Kind>(&mut self, status: Status, answer: Answer<V>) -> Answer<V>
        ensures process { self.new ≡ decided self.old status Place.Closed }
        ensures answer { result ≡ answer }
    {
        self.status = status;
        self.place = Place::Closed;
        answer
    }

    // Ends a read: the entry after the read set joins it. That there is room is asked of the three functions that end a
    // read and shown once, in `run`; a type for it would be a second Process.
    fn end_read(&mut self)
        requires { self.old.sizes.reads < 8 }
        ensures { self.new ≡ read_one self.old }
    {
        self.sizes.reads += 1;
        self.place = Place::Idle;
    }

    // R4: the value goes into the entry after the read set; without an owner the read ends.
    fn fetch<V: Kind>(
        &mut self,
        table: &mut Table<'_, V>,
        me: u8,
        item: u8,
        lock: Lock,
        value: V,
    ) -> Answer<V>
        requires { self.old.sizes.reads < 8 }
        ensures exact { done_by result self.new (entries_of table.new) ≡ turned (entries_of table.old) me (fetched self.old (task V.blank (entries_of table.old) me self.old.sizes) item lock value) }
        ensures stays { place_of table.new ≡ place_of table.old }
    {
        let entry = Entry {
            item,
            sequence: lock.sequence,
            value,
        };
        table.put(me, Part::Reads, self.sizes.reads, entry);
        if lock.owner == 0 {
            self.end_read();
            Answer::Value(value)
        } else {
            self.go(Place::R5 { item, lock })
        }
    }

    // R5: the read ends with the owner's entry, if it has one, else with that of R4.
    fn settle<V: Kind>(
        &mut self,
        table: &mut Table<'_, V>,
        me: u8,
        owned: Option<Entry<V>>,
    ) -> Answer<V>
        requires { self.old.sizes.reads < 8 }
        ensures exact { done_by result self.new (entries_of table.new) ≡ turned (entries_of table.old) me (settled self.old (task V.blank (entries_of table.old) me self.old.sizes) owned) }
        ensures stays { place_of table.new ≡ place_of table.old }
    {
        let at = self.sizes.reads;
        self.end_read();
        match owned {
            Some(entry) => {
                table.put(me, Part::Reads, at, entry);
                Answer::Value(entry.value)
            }
            None => Answer::Value(table.task(me, self.sizes).entry(Part::Reads, at).value),
        }
    }

    // The item's entry of the write set, if there is one, takes the number.
    fn number<V: Kind>(&self, table: &mut Table<'_, V>, me: u8, item: u8, sequence: u64)
        ensures after { entries_of table.new ≡ noted (entries_of table.old) me (numbered self.now (task V.blank (entries_of table.old) me self.now.sizes) item sequence) }
        ensures stays { place_of table.new ≡ place_of table.old }
    {
        let task = table.task(me, self.sizes);
        let at = task.write_slot(item);
        if at < self.sizes.writes {
            let value = task.entry(Part::Writes, at).value;
            table.put(
                me,
                Part::Writes,
                at,
                Entry {
                    item,
                    sequence,
                    value,
                },
            );
        }
    }

    // L4 took the lock: the number goes up by one, and on to the next item.
    fn lock<V: Kind>(
        &mut self,
        table: &mut Table<'_, V>,
        me: u8,
        item: u8,
        sequence: u64,
    ) -> Answer<V>
        requires { sequence + 1 < 2 ^ 64 }
        ensures exact { done_by result self.new (entries_of table.new) ≡ turned (entries_of table.old) me (locked self.old (task V.blank (entries_of table.old) me self.old.sizes) item sequence) }
        ensures stays { place_of table.new ≡ place_of table.old }
    {
        let next = Place::lock_from(&table.task(me, self.sizes), item as usize + 1);
        self.number(table, me, item, sequence + 1);
        self.go(next)
    }

    // U at the next item; after the last the transaction ends.
    fn unlock_from<V: Kind>(&mut self, task: &Task<'_, V>, from: usize) -> Answer<V>
        ensures { turn_by result self.new ≡ unlock_to self.old (next_item (seen V.blank task.now) from) }
    {
        match task.next_item(from) {
            Some(item) => self.go(Place::U { item }),
            None => self.end(Status::Committed, Answer::Committed),
        }
    }

    // K said yes: the status becomes committed in that same step.
    fn commit<V: Kind>(&mut self) -> Answer<V>
        ensures process { self.new ≡ decided self.old Status.Committed (Place.W 0) }
        ensures answer { result ≡ Answer.Going }
    {
        self.status = Status::Committed;
        self.go(Place::W { at: 0 })
    }

    // W at the entry after `at` of the write set; after the last U.
    fn write_after<V: Kind>(&mut self, task: &Task<'_, V>, at: u8) -> Answer<V>
        ensures { turn_by result self.new ≡ written_to self.old (seen V.blank task.now) at }
    {
        let writes = task.sizes().writes;
        if at < writes && at + 1 < writes {
            return self.go(Place::W { at: at + 1 });
        }
        self.unlock_from(task, 0)
    }

    // Whether a read is under way whose entry would find no room.
    fn is_full(&self) -> bool
        ensures { result ≡ full self.now }
    {
        match self.place {
            Place::R1 { .. }
            | Place::R2 { .. }
            | Place::R3 { .. }
            | Place::R4 { .. }
            | Place::R5 { .. } => self.sizes.reads as usize >= SET_SIZE,
            _ => self.sizes.reads as usize > SET_SIZE,
        }
    }

    /// Runs the row that the process stands before. In a store a read always has room for its entry; without room nothing is done.
    pub fn step<B: Bank>(
        &mut self,
        bank: &mut B,
        table: &mut Table<'_, B::Value>,
        me: u8,
        owned: Option<Entry<B::Value>>,
    ) -> Option<Answer<B::Value>>
        ensures exact { stepped_by result (B.cells bank.new) self.new (entries_of table.new) ≡ stepped B.Value.blank (B.cells bank.old) self.old (entries_of table.old) me (move_def B.Value.blank (B.cells bank.old) self.old (task B.Value.blank (entries_of table.old) me self.old.sizes) owned) }
        ensures stays { (place_of table.new ≡ place_of table.old) × (B.places bank.new ≡ B.places bank.old) }
    {
        if self.is_full() {
            return None;
        }
        Some(self.run(bank, table, me, owned))
    }

    // Runs the row: asks the bank, and goes on from place and reply. They are matched together, as the step table is read:
    // a rule of the project.
    fn run<B: Bank>(
        &mut self,
        bank: &mut B,
        table: &mut Table<'_, B::Value>,
        me: u8,
        owned: Option<Entry<B::Value>>,
    ) -> Answer<B::Value>
        requires { self.old.sizes.reads + (traits self.old.place).ahead ≤ set_size }
        ensures exact { ran_by result (B.cells bank.new) self.new (entries_of table.new) ≡ ran B.Value.blank (B.cells bank.old) (entries_of table.old) me (move_def B.Value.blank (B.cells bank.old) self.old (task B.Value.blank (entries_of table.old) me self.old.sizes) owned) }
        ensures stays { (place_of table.new ≡ place_of table.old) × (B.places bank.new ≡ B.places bank.old) }
    {
        let task = &table.task(me, self.sizes);
        let reply = ask(self.place, bank, task);
        match (&mut self.place, reply) {
            (&mut Place::R1 { item }, Reply::Count(count)) => self.go(Place::R2 { item, count }),
            (&mut Place::R2 { item, .. }, Reply::Said(true)) => self.go(Place::R3 { item }),
            (&mut Place::R2 { item, .. }, Reply::Said(false)) => self.wait(Place::R1 { item }),
            (&mut Place::R3 { item }, Reply::Lock(lock)) => self.go(Place::R4 { item, lock }),
            (&mut Place::R4 { item, lock }, Reply::Value(v)) => self.fetch(
                table, me, item, lock, v,
            ),
            (&mut Place::R5 { .. }, _) => self.settle(table, me, owned),
            (&mut Place::D1 { at, abort }, Reply::Count(count)) => {
                self.go(Place::D2 { at, count, abort })
            }
            (&mut Place::D2 { at, abort, .. }, Reply::Said(true)) => {
                self.go(Place::count_from(task, at as usize + 1, abort))
            }
            (&mut Place::D2 { at, abort, .. }, _) => self.wait(Place::D1 { at, abort }),
            (&mut Place::C, _) => self.end(Status::Committed, Answer::Committed),
            (&mut Place::L1 { item }, Reply::Lock(lock)) => self.go(Place::L2 { item, lock }),
            (&mut Place::L2 { item, lock }, _) => self.go(seen(task, item, lock)),
            (&mut Place::L3 { item, lock }, _) => {
                self.go(Place::compared(task, item, sequence_or(lock.sequence, owned)))
            }
            (&mut Place::L4 { item, .. }, Reply::Said(false)) => self.wait(Place::L1 { item }),
            (&mut Place::L4 { item, sequence }, _) => self.lock(table, me, item, sequence),
            (&mut Place::K, Reply::Said(true)) => self.commit(),
            (&mut Place::K, Reply::Said(false)) => Answer::Waiting,
            (&mut Place::W { at }, _) => self.write_after(task, at),
            (&mut Place::U { item }, _) => self.unlock_from(task, item as usize + 1),
            (&mut Place::A1 { item, cause }, Reply::Lock(lock)) => {
                self.go(Place::released(task, item, lock, cause))
            }
            (&mut Place::A2 { item, cause, .. }, _) => {
                self.go(Place::abort_from(task, item as usize + 1, cause))
            }
            (&mut Place::A3 { cause }, _) => self.end(Status::Aborted, Answer::Aborted(cause)),
            (_, _) => Answer::Going,
        }
    }
}

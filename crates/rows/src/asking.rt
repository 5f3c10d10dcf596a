//! What is asked of the bank at a place.
ghost use Rattle.std.specs.Prelude.{◌≡◌, ◌+◌, map, take};
ghost use Rattle.bank.specs.Cells.{all_zero, stores_lock, swaps_lock, swaps_count, change, with_count, with_lock};
ghost use Rattle.bank.specs.Limits.{set_size};
ghost use Rattle.table.specs.Sets.{item_of};
ghost use Rattle.table.specs.Tasks.{seen};
ghost use Rattle.table.specs.declared.entry.Part.TheVariants.{Reads};
ghost use Rattle.rows.specs.Primitives.{replied, touched, touching, if_said, said};
ghost use Rattle.rows.specs.Places.{asked, lock_of};

use crate::place::Place;
use bank::{Bank, Lock};
use kinds::Kind;
use table::{Part, Task};

/// What the bank answered; nothing where nothing was asked of it.
#[derive(Clone, Copy, PartialEq, Eq, Debug)]
pub enum Reply<V> {
    Nothing,
    Lock(Lock),
    Value(V),
    Count(u8),
    Said(bool),
}

// Counts one reader more. A count of 255 has no successor here; the bank says no to 255 as it does to 256.
fn count_in<B: Bank>(bank: &mut B, item: u8, count: u8) -> bool
    ensures answer { result ≡ swaps_count B.Value.blank (B.cells bank.old) item count (count + 1) }
    ensures after { B.cells bank.new ≡ change result (with_count (count + 1)) B.Value.blank (B.cells bank.old) item }
    ensures stays { B.places bank.new ≡ B.places bank.old }
{
    bank.swap_count(item as usize, count, count.saturating_add(1))
}

// Whether nobody is counted in on an item of the write set.
fn unread<B: Bank>(bank: &B, task: &Task<'_, B::Value>) -> bool
    ensures { result ≡ all_zero B.Value.blank (B.cells bank.now) (take set_size (map item_of (seen B.Value.blank task.now).writes)) }
{
    bank.all_zero(task.write_items().as_slice())
}

// The item of an entry of the read set.
fn read_item<V: Kind>(task: &Task<'_, V>, at: u8) -> usize
    ensures { result ≡ ((seen V.blank task.now).entry Reads at).item }
{
    task.entry(Part::Reads, at).item as usize
}

// Takes the item's lock, if it has no owner and this number.
fn lock<B: Bank>(bank: &mut B, item: u8, sequence: u64, owner: u8) -> bool
    ensures answer { result ≡ swaps_lock B.Value.blank (B.cells bank.old) item (lock_of 0 sequence) (lock_of owner sequence) }
    ensures after { B.cells bank.new ≡ change result (with_lock (lock_of owner sequence)) B.Value.blank (B.cells bank.old) item }
    ensures stays { B.places bank.new ≡ B.places bank.old }
{
    let free = Lock { owner: 0, sequence };
    bank.swap_lock(item as usize, free, Lock { owner, ..free })
}

// Leaves the item's lock without an owner.
fn unlock<B: Bank>(bank: &mut B, item: u8, sequence: u64) -> bool
    ensures answer { result ≡ stores_lock (B.cells bank.old) item (lock_of 0 sequence) }
    ensures after { B.cells bank.new ≡ change result (with_lock (lock_of 0 sequence)) B.Value.blank (B.cells bank.old) item }
    ensures stays { B.places bank.new ≡ B.places bank.old }
{
    bank.write_lock(item as usize, Lock { owner: 0, sequence })
}

/// Asks the bank what the place asks.
pub fn ask<B: Bank>(place: Place, bank: &mut B, task: &Task<'_, B::Value>) -> Reply<B::Value>
    ensures reply { result ≡ replied B.Value.blank (B.cells bank.old) (asked (seen B.Value.blank task.now) place) }
    ensures after { B.cells bank.new ≡ touched B.Value.blank (B.cells bank.old) (if_said (said result) (touching (asked (seen B.Value.blank task.now) place))) }
    ensures stays { B.places bank.new ≡ B.places bank.old }
{
    match place {
        Place::Closed
        | Place::Idle
        | Place::R5 { .. }
        | Place::D2 { count: 0, .. }
        | Place::C
        | Place::L3 { .. }
        | Place::A3 { .. } => Reply::Nothing,
        Place::R1 { item } => Reply::Count(bank.read_count(item as usize)),
        Place::R2 { item, count } => Reply::Said(count_in(bank, item, count)),
        Place::R3 { item } | Place::L1 { item } | Place::A1 { item, .. } => {
            Reply::Lock(bank.read_lock(item as usize))
        }
        Place::R4 { item, .. } | Place::L2 { item, .. } => {
            Reply::Value(bank.read_value(item as usize))
        }
        Place::D1 { at, .. } => Reply::Count(bank.read_count(read_item(task, at))),
        Place::D2 { at, count, .. } => {
            Reply::Said(bank.swap_count(read_item(task, at), count, count - 1))
        }
        Place::L4 { item, sequence } => Reply::Said(lock(bank, item, sequence, task.me())),
        Place::K => Reply::Said(unread(bank, task)),
        Place::W { at } => {
            let entry = task.entry(Part::Writes, at);
            Reply::Said(bank.write_value(entry.item as usize, entry.value))
        }
        Place::U { item } => Reply::Said(unlock(bank, item, task.unlock_sequence(item))),
        Place::A2 { item, sequence, .. } => Reply::Said(unlock(bank, item, sequence)),
    }
}

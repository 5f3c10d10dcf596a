//! Where a process goes next.
ghost use Rattle.std.specs.Prelude.{◌≡◌};
ghost use Rattle.table.specs.Tasks.{seen, next_item};
ghost use Rattle.rows.specs.Places.{lock_to, abort_to, counted_out as counted_out_def, count_from, compared as compared_def, released as released_def};

use crate::place::Place;
use bank::Lock;
use kinds::Kind;
use table::{Part, Task};

impl Place {
    /// L1 at the lowest item of the data set not below `from`; after the last item K.
    pub fn lock_from<V: Kind>(task: &Task<'_, V>, from: usize) -> Place
        ensures { result ≡ lock_to (next_item (seen V.blank task.now) from) }
    {
        task.next_item(from)
            .map_or(Place::K, |item| Place::L1 { item })
    }

    /// A1 at the lowest item of the data set not below `from`; after the last item A3.
    pub fn abort_from<V: Kind>(task: &Task<'_, V>, from: usize, cause: Option<u8>) -> Place
        ensures { result ≡ abort_to cause (next_item (seen V.blank task.now) from) }
    {
        match task.next_item(from) {
            Some(item) => Place::A1 { item, cause },
            None => Place::A3 { cause },
        }
    }

    // After the read set is counted out.
    fn counted_out<V: Kind>(task: &Task<'_, V>, abort: bool) -> Place
        ensures { result ≡ counted_out_def (seen V.blank task.now) abort }
    {
        if abort {
            return Place::abort_from(task, 0, None);
        }
        if task.sizes().writes == 0 {
            return Place::C;
        }
        Place::lock_from(task, 0)
    }

    /// D1 at entry `at` of the read set; after the last entry to abort, to commit a read-only transaction, or to lock.
    // inline, since as a call of its own it adds some 35 instructions to each try-commit
    #[inline]
    pub fn count_from<V: Kind>(task: &Task<'_, V>, at: usize, abort: bool) -> Place
        ensures { result ≡ count_from (seen V.blank task.now) at abort }
    {
        if at < task.sizes().reads as usize {
            return Place::D1 {
                at: at as u8,
                abort,
            };
        }
        Place::counted_out(task, abort)
    }

    /// L4, unless the read set has another sequence number for the item: then the abort that names it.
    pub fn compared<V: Kind>(task: &Task<'_, V>, item: u8, sequence: u64) -> Place
        ensures { result ≡ compared_def (seen V.blank task.now) item sequence }
    {
        match task.find(Part::Reads, item) {
            Some(entry) if entry.sequence != sequence => { Place::abort_from(task, 0, Some(item)) }
            _ => Place::L4 { item, sequence },
        }
    }

    /// A2 if this process owns the lock; else on to the next item.
    pub fn released<V: Kind>(task: &Task<'_, V>, item: u8, lock: Lock, cause: Option<u8>) -> Place
        ensures { result ≡ released_def (seen V.blank task.now) item lock cause }
    {
        if lock.owner == task.me() {
            return Place::A2 {
                item,
                sequence: lock.sequence,
                cause,
            };
        }
        Place::abort_from(task, item as usize + 1, cause)
    }
}

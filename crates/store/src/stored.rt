//! The store's own memory.
ghost use Rattle.std.specs.Prelude.{ℕ, ◌≤◌, slice_index_or};
ghost use Rattle.bank.specs.Limits.{most_processes};
ghost use Rattle.process.specs.Traits.{Fits, fresh};

use bank::MOST_PROCESSES;
use process::Process;

/// The processes, how many of them there are, and how many begins are left.
#[derive(Drop)]
pub struct Store {
    // fixed memory, as all of the store: a place for each process that there may be, and how many there are
    pub(crate) processes: [Process; MOST_PROCESSES as usize],
    pub(crate) number: u8,
    pub(crate) life: u64,
    ghost few: { number ≤ most_processes },
    ghost fit: { (k : ℕ) → Fits (slice_index_or processes k fresh) },
}

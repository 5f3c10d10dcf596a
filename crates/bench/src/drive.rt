//! The drive that the programs play on.
ghost use Rattle.std.specs.Prelude.{◌≡◌, IfOk, string_bytes};
ghost use Rattle.bench.specs.Drive.{drive_played};

use crate::session::{PROCESSES, play};
use bank::Record;
use kinds::Setting;
use std::alloc::{AllocError, Global};
use table::Entry;

// How many settings the drive has.
const ITEMS: usize = 4;

// How many entries its processes have.
const ENTRIES: usize = table::ENTRIES * PROCESSES;

/// Plays a script on a drive with four settings, all off: the bytes that are printed.
pub fn play_settings(heap: Global, input: &[u8]) -> Result<String, AllocError>
    ensures { IfOk result (λ s. string_bytes s ≡ drive_played input.now) }
{
    let mut records = [Record::new(Setting::Off); ITEMS];
    let mut entries = [Entry::blank(); ENTRIES];
    play(heap, &mut records, &mut entries, input)
}

//! A whole script.
ghost use Rattle.std.specs.Prelude.{◌≡◌, ◌++◌, take, IfOk, string_bytes, OnOk};
ghost use Rattle.table.specs.Lent.{entries_of, place_of};
ghost use Rattle.script.specs.Grammar.{lines_of};
ghost use Rattle.store.specs.Model.{state};
ghost use Rattle.bench.specs.Faults.{line_told};
ghost use Rattle.bench.specs.Plays.{line_turn, printed, played, lines_after, started, script_lines, Reaches, Holds, HoldsSome};
ghost use Rattle.bench.specs.Texts.{line_text};

use crate::fault::Fault;
use crate::report::Report;
use crate::turn::play_line;
use bank::{Bank, Record};
use kinds::Kind;
use record_bank::RecordBank;
use script::Lines;
use std::alloc::{AllocError, Global};
use store::{Answer, Store};
use table::{Entry, Table};

/// The most bytes of a script that are played.
pub const MOST_INPUT: usize = 65_536;

// How many processes the player sets up.
pub(crate) const PROCESSES: usize = 4;

// How many transactions may be begun.
const LIFE: u64 = 1_000;

// Adds what is printed of a line.
fn report(out: &mut String, line: usize, res: Result<Answer<u64>, Fault>) -> Result<(), AllocError>
    ensures { OnOk result (string_bytes out.new ≡ string_bytes out.old ++ line_text line (line_told res)) }
{
    writeln!(out, "{}", Report { line, result: res })
}

// At most the first `most` bytes of an input.
fn first_bytes(input: &[u8], most: usize) -> &[u8]
    ensures { result.now ≡ take most input.now }
{
    input.get(..most).unwrap_or(input)
}

// A store that the player sets up over a bank and a table.
fn start<B: Bank>(bank: &mut B, table: &mut Table<'_, B::Value>) -> Store
    ensures state { state (B.cells bank.new) result (entries_of table.new) ≡ started (B.cells bank.old) (entries_of table.old) }
    ensures bank { B.places bank.new ≡ B.places bank.old }
    ensures table { place_of table.new ≡ place_of table.old }
{
    let mut store = Store::new();
    let _ = store.set_up(bank, table, PROCESSES, LIFE);
    store
}

// Plays one line, and adds what is printed of it.
fn play_next<B: Bank>(
    out: &mut String,
    store: &mut Store,
    bank: &mut B,
    table: &mut Table<'_, B::Value>,
    number: usize,
    line: &[u8],
) -> Result<(), AllocError>
    ensures text { OnOk result (string_bytes out.new ≡ string_bytes out.old ++ line_text number (line_turn B.Value.blank B.Value.packing B.Value.unpacking (state (B.cells bank.old) store.old (entries_of table.old)) line.now).tells) }
    ensures state { state (B.cells bank.new) store.new (entries_of table.new) ≡ (line_turn B.Value.blank B.Value.packing B.Value.unpacking (state (B.cells bank.old) store.old (entries_of table.old)) line.now).after }
    ensures bank { B.places bank.new ≡ B.places bank.old }
    ensures table { place_of table.new ≡ place_of table.old }
{
    let result = play_line(store, bank, table, number, line);
    report(out, number, result)
}

/// Plays the lines of a script one after the other: the bytes that are printed.
pub fn play_lines<B: Bank>(
    heap: Global,
    store: &mut Store,
    bank: &mut B,
    table: &mut Table<'_, B::Value>,
    input: &[u8],
) -> Result<String, AllocError>
    ensures text { IfOk result (λ s. string_bytes s ≡ printed B.Value.blank B.Value.packing B.Value.unpacking (state (B.cells bank.old) store.old (entries_of table.old)) 1 (lines_of input.now)) }
    ensures whole { OnOk result (state (B.cells bank.new) store.new (entries_of table.new) ≡ lines_after B.Value.blank B.Value.packing B.Value.unpacking (state (B.cells bank.old) store.old (entries_of table.old)) (lines_of input.now)) }

    // Where memory for what is printed runs out, the first lines were played, and no others.
    ensures part { Reaches B.Value.blank B.Value.packing B.Value.unpacking (state (B.cells bank.old) store.old (entries_of table.old)) (lines_of input.now) (state (B.cells bank.new) store.new (entries_of table.new)) }
    ensures bank { B.places bank.new ≡ B.places bank.old }
    ensures table { place_of table.new ≡ place_of table.old }
{
    let mut out = String::new(heap);
    for (i, line) in Lines::new(input).enumerate() {
        play_next(&mut out, store, bank, table, i + 1, line)?;
    }
    Ok(out)
}

/// Sets a store up over lent records and entries, with four processes and a life of 1,000, and plays a script: the bytes that are printed.
pub fn play<V: Kind>(
    heap: Global,
    records: &mut [Record<V>],
    entries: &mut [Entry<V>],
    input: &[u8],
) -> Result<String, AllocError>
    ensures text { IfOk result (λ s. string_bytes s ≡ played V.blank V.packing V.unpacking records.old entries.old input.now) }
    ensures whole { OnOk result (Holds (lines_after V.blank V.packing V.unpacking (started records.old entries.old) (script_lines input.now)) records.new entries.new) }

    // Where memory for what is printed runs out, the first lines were played, and no others.
    ensures part { HoldsSome V.blank V.packing V.unpacking records.old entries.old input.now records.new entries.new }
{
    let mut bank = RecordBank::new(records);
    let mut table = Table::new(entries);
    let mut store = start(&mut bank, &mut table);
    play_lines(
        heap,
        &mut store,
        &mut bank,
        &mut table,
        first_bytes(input, MOST_INPUT),
    )
}

//! One line of a script.
ghost use Rattle.std.specs.Prelude.{◌≡◌};
ghost use Rattle.table.specs.Lent.{entries_of, place_of};
ghost use Rattle.store.specs.Model.{state};
ghost use Rattle.bench.specs.Faults.{line_told, At};
ghost use Rattle.bench.specs.Plays.{turn as turn_def, line_turn, made};

use crate::fault::{Cause, Fault, at_line};
use crate::values::{with_value, with_word};
use bank::Bank;
use script::parse;
use store::{Answer, Call, Store};
use table::Table;

// Store, bank and table come apart here and in a script's functions as they do in tickets.

// Makes the call of a line.
fn make<B: Bank>(
    store: &mut Store,
    bank: &mut B,
    table: &mut Table<'_, B::Value>,
    number: usize,
    call: Call<u32>,
) -> Result<Answer<u64>, Fault>
    ensures exact { turn_def (line_told result) (state (B.cells bank.new) store.new (entries_of table.new)) ≡ made B.Value.blank B.Value.packing B.Value.unpacking (state (B.cells bank.old) store.old (entries_of table.old)) call }
    ensures line { At number result }
    ensures bank { B.places bank.new ≡ B.places bank.old }
    ensures table { place_of table.new ≡ place_of table.old }
{
    let answer = at_line(number, store.call(bank, table, with_value(call)))?;
    Ok(with_word(answer))
}

/// Plays one line: what its call is answered, or why it is refused, with the line's number.
pub fn play_line<B: Bank>(
    store: &mut Store,
    bank: &mut B,
    table: &mut Table<'_, B::Value>,
    number: usize,
    line: &[u8],
) -> Result<Answer<u64>, Fault>
    ensures exact { turn_def (line_told result) (state (B.cells bank.new) store.new (entries_of table.new)) ≡ line_turn B.Value.blank B.Value.packing B.Value.unpacking (state (B.cells bank.old) store.old (entries_of table.old)) line.now }
    ensures line { At number result }
    ensures bank { B.places bank.new ≡ B.places bank.old }
    ensures table { place_of table.new ≡ place_of table.old }
{
    // `let .. else` with the fault: a rule of the project
    let Ok(call) = parse(line) else {
        return Err(Fault {
            line: number,
            cause: Cause::NotACall,
        });
    };
    make(store, bank, table, number, call)
}

//! Work over any bank: clear its locks and counts, copy its values to another bank.
#![tactic(auto, using(crate::proofs::Clearing::clearing, crate::proofs::Copying::copying))]

ghost use Rattle.std.specs.Prelude.{◌≡◌, ◌<◌, map, length, slice_set};
ghost use Rattle.bank.specs.Cells.{cell_at, with_count};
ghost use Rattle.upkeep.specs.Upkeep.{cleared, copied};

use bank::{Bank, Lock};

/// Makes every lock free and every count 0, and keeps the values.
pub fn clear<B: Bank>(bank: &mut B)
    ensures after { B.cells bank.new ≡ map cleared (B.cells bank.old) }
    ensures stays { B.places bank.new ≡ B.places bank.old }
{
    // by number: a bank is no slice to iterate over, its items are reached by their numbers alone
    for item in 0..bank.items() {
        clear_item(bank, item);
    }
}

// Clears one item. Apart from the loop: with both calls in the loop the proof did not close.
fn clear_item<B: Bank>(bank: &mut B, item: usize)
    requires { item < length (B.cells bank.old) }
    ensures after { B.cells bank.new ≡ slice_set (B.cells bank.old) item (cleared (cell_at B.Value.blank (B.cells bank.old) item)) }
    ensures stays { B.places bank.new ≡ B.places bank.old }
{
    bank.write_lock(item, Lock::free());
    zero_count(bank, item);
}

// A count has no write of its own, so it is read and then swapped.
fn zero_count<B: Bank>(bank: &mut B, item: usize)
    requires { item < length (B.cells bank.old) }
    ensures after { B.cells bank.new ≡ slice_set (B.cells bank.old) item (with_count 0 (cell_at B.Value.blank (B.cells bank.old) item)) }
    ensures stays { B.places bank.new ≡ B.places bank.old }
{
    let count = bank.read_count(item);
    bank.swap_count(item, count, 0);
}

/// Gives each item that both banks have the value that it has in `from`; locks and counts stay.
pub fn copy_values<A: Bank, B: Bank<Value = A::Value>>(from: &A, to: &mut B)
    ensures after { B.cells to.new ≡ copied (A.cells from.now) (B.cells to.old) }
    ensures stays { B.places to.new ≡ B.places to.old }
{
    // by number, as in `clear`
    for item in 0..from.items() {
        to.write_value(item, from.read_value(item));
    }
}

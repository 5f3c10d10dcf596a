//! A list of calls performed after set-up, and the history claim: what every such list comes to.
#![tactic(auto)]

ghost use Rattle.std.specs.Prelude.{◌≡◌, Ok, Err, IfOk};
ghost use Rattle.table.specs.Lent.{entries_of, place_of};
ghost use Rattle.store.specs.Model.{state};
ghost use Rattle.history.specs.History.{AlwaysPermissive};
ghost use Rattle.history.specs.Performed.{Performed};

use bank::Bank;
use std::alloc::{AllocError, Global};
use store::{Answer, Call, Refusal, Store};
use table::Table;

#[tactic(auto, using(crate::proofs::Joined::always_permissive))]
/// Sets a store up over a bank and a table, and makes calls one after the other: what each answered. A refused set-up makes none.
pub fn perform<B: Bank>(
    heap: Global,
    store: &mut Store,
    bank: &mut B,
    table: &mut Table<'_, B::Value>,
    processes: usize,
    life: u64,
    calls: &[Call<B::Value>],
) -> Result<Result<Vec<Result<Answer<B::Value>, Refusal>>, Refusal>, AllocError>
    ensures exact { IfOk result (λ r. elim r [ Ok v ↦ Performed B.Value.blank (state (B.cells bank.old) store.old (entries_of table.old)) processes life calls.now (Ok v.items) (state (B.cells bank.new) store.new (entries_of table.new)) | Err e ↦ Performed B.Value.blank (state (B.cells bank.old) store.old (entries_of table.old)) processes life calls.now (Err e) (state (B.cells bank.new) store.new (entries_of table.new)) ]) }
    ensures claim { AlwaysPermissive B.Value.blank }
    ensures bank { B.places bank.new ≡ B.places bank.old }
    ensures table { place_of table.new ≡ place_of table.old }
{
    if let Err(refusal) = store.set_up(bank, table, processes, life) {
        return Ok(Err(refusal));
    }
    let mut answers = Vec::new(heap);
    for call in calls {
        answers.push(store.call(bank, table, *call))?;
    }
    Ok(Ok(answers))
}

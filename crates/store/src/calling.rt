//! A call as a value, so that a list of them can be made.
ghost use Rattle.std.specs.Prelude.{◌≡◌};
ghost use Rattle.table.specs.Lent.{entries_of, place_of};
ghost use Rattle.store.specs.Calls.{called};
ghost use Rattle.store.specs.Values.{AtValue, WithValue};
ghost use Rattle.store.specs.Model.{outcome, state};
ghost use Rattle.store.specs.Tells.{told};

use crate::answer::Refusal;
use crate::stored::Store;
use bank::Bank;
use process::Answer;
use table::Table;

/// One call on a store that is set up.
#[derive(Clone, Copy, PartialEq, Eq, Debug)]
pub enum Call<V> {
    Begin {
        process: usize,
    },
    Read {
        process: usize,
        item: usize,
    },
    Write {
        process: usize,
        item: usize,
        value: V,
    },
    TryCommit {
        process: usize,
    },
    Abort {
        process: usize,
    },
    Step {
        process: usize,
    },
}

impl<V> Call<V> {
    /// The call with its value changed by `f`.
    pub fn map<W, F: FnOnce(V) -> W>(self, f: F) -> Call<W>
        requires { AtValue self (F.pre f) }
        ensures { WithValue (F.post f) self result }
    {
        match self {
            Call::Begin { process } => Call::Begin { process },
            Call::Read { process, item } => Call::Read { process, item },
            Call::Write {
                process,
                item,
                value,
            } => Call::Write {
                process,
                item,
                value: f(value),
            },
            Call::TryCommit { process } => Call::TryCommit { process },
            Call::Abort { process } => Call::Abort { process },
            Call::Step { process } => Call::Step { process },
        }
    }
}

// Store, bank and table come apart here as in the other calls.
impl Store {
    /// Makes one call.
    pub fn call<B: Bank>(
        &mut self,
        bank: &mut B,
        table: &mut Table<'_, B::Value>,
        call: Call<B::Value>,
    ) -> Result<Answer<B::Value>, Refusal>
        ensures exact { outcome (told result) (state (B.cells bank.new) self.new (entries_of table.new)) ≡ called B.Value.blank (state (B.cells bank.old) self.old (entries_of table.old)) call }
        ensures bank { B.places bank.new ≡ B.places bank.old }
        ensures table { place_of table.new ≡ place_of table.old }
    {
        match call {
            Call::Begin { process } => self.begin(bank, table, process),
            Call::Read { process, item } => self.read(bank, table, process, item),
            Call::Write {
                process,
                item,
                value,
            } => self.write(bank, table, process, item, value),
            Call::TryCommit { process } => self.try_commit(bank, table, process),
            Call::Abort { process } => self.abort(bank, table, process),
            Call::Step { process } => self.step(bank, table, process),
        }
    }
}

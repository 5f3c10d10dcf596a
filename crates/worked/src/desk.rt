//! A store with a bank and a table of its own, whose calls take and tell values as words.
use bank::Bank;
use kinds::Kind;
use store::{Answer, Call, Refusal, Store};
use table::{Entry, Table};

// A store, a bank and a table.
#[derive(Drop)]
pub struct Desk<'a, B: Bank + Drop> {
    pub store: Store,
    pub bank: B,
    pub table: Table<'a, B::Value>,
}

impl<'a, B: Bank + Drop> Desk<'a, B> {
    // A store that was never set up, over this bank and these entries.
    pub fn new(bank: B, entries: &'a mut [Entry<B::Value>]) -> Desk<'a, B> {
        Desk {
            store: Store::new(),
            bank,
            table: Table::new(entries),
        }
    }

    pub fn set_up(&mut self, processes: usize, life: u64) -> Result<(), Refusal> {
        self.store
            .set_up(&mut self.bank, &mut self.table, processes, life)
    }

    // Makes one call.
    pub fn call(&mut self, call: Call<u64>) -> Result<Answer<u64>, Refusal> {
        let call = call.map(|word| <B::Value>::unpack(word));
        let answer = self.store.call(&mut self.bank, &mut self.table, call)?;
        Ok(answer.map(|value| value.pack()))
    }

    pub fn begin(&mut self, process: usize) -> Result<Answer<u64>, Refusal> {
        self.call(Call::Begin { process })
    }

    pub fn read(&mut self, process: usize, item: usize) -> Result<Answer<u64>, Refusal> {
        self.call(Call::Read { process, item })
    }

    pub fn write(
        &mut self,
        process: usize,
        item: usize,
        value: u64,
    ) -> Result<Answer<u64>, Refusal> {
        self.call(Call::Write {
            process,
            item,
            value,
        })
    }

    pub fn commit(&mut self, process: usize) -> Result<Answer<u64>, Refusal> {
        self.call(Call::TryCommit { process })
    }

    pub fn abort(&mut self, process: usize) -> Result<Answer<u64>, Refusal> {
        self.call(Call::Abort { process })
    }

    // What the last of so many steps tells, one at least.
    pub fn steps(&mut self, process: usize, n: u32) -> Result<Answer<u64>, Refusal> {
        for _ in 1..n {
            let _ = self.call(Call::Step { process });
        }
        self.call(Call::Step { process })
    }
}
